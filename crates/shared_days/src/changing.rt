//! Transactions that are put under their days, and taken from them.
ghost use Rattle.std.specs.Prelude.{◌≡◌, ◌==◌, OnOk, if◌then◌else◌};
ghost use Rattle.std.specs.List.{list_any};
ghost use Rattle.hl_time.specs.declared.day.Day.{Day as Date};
ghost use Rattle.placed_sums.specs.Days.{numbers_in};
ghost use Rattle.placed_sums.specs.Numbers.{has_on, is_on};
ghost use Rattle.shared_days.specs.Days.{HasPut, numbers_now};
ghost use Rattle.shared_days.specs.Places.{left, with_number};

use crate::day_places::{DayPlaces, Sought};
use crate::days::{SharedDays, made_before};
use crate::listing;
use book::{Posting, Txn};
use hl_base::Memory;
use hl_time::Day;
use placed_sums::OnDay;
use std::alloc::Global;

/// The places of a day.
fn places_on(days: &SharedDays, day: Day) -> &[OnDay]
    ensures { numbers_in result.now ≡ numbers_now day days.now }
{
    let sought = Sought { day };
    match days.changed.get(&sought) {
        Some(found) => found.places.as_slice(),
        None => made_before(&days.made, day, usize::MAX),
    }
}

/// Lets a day have these places.
fn put_places(
    alloc: Global,
    days: &mut SharedDays,
    day: Day,
    places: Vec<OnDay>,
) -> Result<(), Memory>
    ensures { OnOk result (HasPut day (numbers_in places.items) days.old days.new) }
{
    days.changed.put(alloc, DayPlaces { day, places })?;
    Ok(())
}

/// Puts a transaction under a day.
fn put_in(alloc: Global, days: &mut SharedDays, day: Day, number: usize) -> Result<(), Memory>
    ensures { OnOk result ((other : Date) → numbers_now other days.new
        ≡ (if day.0 == other.0 then with_number number
        (numbers_now other days.old) else numbers_now other days.old)) }
{
    let old = places_on(days, day);
    let places = listing::with_number(alloc, day, old, number)?;
    put_places(alloc, days, day, places)?;
    Ok(())
}

/// Takes a transaction from a day.
fn take_out(alloc: Global, days: &mut SharedDays, day: Day, number: usize) -> Result<(), Memory>
    ensures { OnOk result ((other : Date) → numbers_now other days.new
        ≡ (if day.0 == other.0 then left number
        (numbers_now other days.old) else numbers_now other days.old)) }
{
    let old = places_on(days, day);
    let places = listing::without_number(alloc, old, number)?;
    put_places(alloc, days, day, places)?;
    Ok(())
}

/// Puts a transaction under the days of its postings.
pub(crate) fn put_txn(
    alloc: Global,
    days: &mut SharedDays,
    number: usize,
    txn: &Txn,
) -> Result<(), Memory>
    ensures { OnOk result ((day : Date) → numbers_now day days.new
        ≡ (if has_on day.0 txn.now then with_number number
        (numbers_now day days.old) else numbers_now day days.old)) }
{
    put_postings(alloc, days, number, txn, txn.postings.as_slice())?;
    Ok(())
}

/// Puts a transaction under the days of some of its postings.
fn put_postings(
    alloc: Global,
    days: &mut SharedDays,
    number: usize,
    txn: &Txn,
    postings: &[Posting],
) -> Result<(), Memory>
    ensures { OnOk result ((day : Date) → numbers_now day days.new
        ≡ (if list_any (is_on day.0 txn.now) postings.now then with_number number
        (numbers_now day days.old)
        else numbers_now day days.old)) }
{
    for posting in postings {
        let day = posting.day_in(txn);
        put_in(alloc, days, day, number)?;
    }
    Ok(())
}

/// Takes a transaction from the days of its postings.
pub(crate) fn take_txn(
    alloc: Global,
    days: &mut SharedDays,
    number: usize,
    txn: &Txn,
) -> Result<(), Memory>
    ensures { OnOk result ((day : Date) → numbers_now day days.new
        ≡ (if has_on day.0 txn.now then left number
        (numbers_now day days.old) else numbers_now day days.old)) }
{
    take_postings(alloc, days, number, txn, txn.postings.as_slice())?;
    Ok(())
}

/// Takes a transaction from the days of some of its postings.
fn take_postings(
    alloc: Global,
    days: &mut SharedDays,
    number: usize,
    txn: &Txn,
    postings: &[Posting],
) -> Result<(), Memory>
    ensures { OnOk result ((day : Date) → numbers_now day days.new
        ≡ (if list_any (is_on day.0 txn.now) postings.now then left number
        (numbers_now day days.old)
        else numbers_now day days.old)) }
{
    for posting in postings {
        let day = posting.day_in(txn);
        take_out(alloc, days, day, number)?;
    }
    Ok(())
}
