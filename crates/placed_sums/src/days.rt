//! The transactions of a book by the days of their postings.
ghost use Rattle.std.specs.Prelude.{◌≡◌, ◌<◌, ◌≤◌, ◌++◌, ◌∷◌, [], List, IfOk, OnOk, length, set, slice_get, slice_range, true};
ghost use Rattle.std.specs.Option.{option_copied};
ghost use Rattle.book.specs.declared.transaction.Txn.{Txn};
ghost use Rattle.placed_sums.specs.Days.{AreDaysOf, is_below, places_before, rise};
ghost use Rattle.placed_sums.specs.Placing.{below_count, is_found, is_same, text_places, with_place, with_txn, without_number};

use crate::on_day::OnDay;
use book::Txn;
use hl_base::Memory;
use hl_time::Day;
use std::alloc::Global;
use std::marker::Model;

/// The transactions of a book by the days of their postings. Contracts see a list of places, by day
/// and then by number, each once.
#[derive(Drop)]
pub struct Days {
    places: Vec<OnDay>,
}

impl Model for Days {
    ghost use Rattle.std.specs.Prelude.{◌≡◌, List, true};
    ghost use Rattle.placed_sums.specs.Days.{rise};
    ghost use Rattle.placed_sums.specs.declared.on_day.OnDay.{OnDay};

    ghost Value = { List OnDay };

    ghost view = { λ d. d.places.items };

    ghost invariant = { λ d. rise d.places.items ≡ true };
}

impl Days {
    ghost use Rattle.std.specs.Prelude.{◌≡◌, ◌<◌, ◌++◌, ◌∷◌, [], List, IfOk, length, set};
    ghost use Rattle.book.specs.declared.transaction.Txn.{Txn};
    ghost use Rattle.placed_sums.specs.Days.{AreDaysOf, places_before};

    /// The days of a book, sorted once.
    pub fn of(alloc: Global, book: &[Txn]) -> Result<Days, Memory>
        ensures { IfOk result (λ days. AreDaysOf days book.now) }
    {
        let places = places_by_day(alloc, book)?;
        Ok(Days { places })
    }

    /// The places of the transactions with a posting on a day and a number below one, found by
    /// halves. They serve `SumsAt`.
    pub fn before(&self, day: Day, number: usize) -> &[OnDay]
        ensures { result.now ≡ places_before day number self.now }
    {
        places_between(self.places.as_slice(), day, number)
    }

    /// The days of the book in which a transaction gets another form, or has one more at its end.
    /// These stay as they are. Takes time for each place.
    pub fn replaced(&self, alloc: Global, number: usize, txn: &Txn) -> Result<Days, Memory>
        ensures replaced { IfOk result (λ days. (book : List Txn) → AreDaysOf self.now book
            → number < length book → AreDaysOf days (set book number txn.now)) }
        ensures added { IfOk result (λ days. (book : List Txn) → AreDaysOf self.now book
            → number ≡ length book → AreDaysOf days (book ++ txn.now ∷ [])) }
    {
        let places = places_with(alloc, self.places.as_slice(), number, txn)?;
        Ok(Days { places })
    }
}

/// The places of a book's transactions in their order.
fn places_by_day(alloc: Global, book: &[Txn]) -> Result<Vec<OnDay>, Memory>
    ensures rise { IfOk result (λ places. rise places.items ≡ true) }
    ensures days { IfOk result (λ places. AreDaysOf places.items book.now) }
{
    let mut places = places_of(alloc, book)?;
    places.sort_by_key(|place| place.day.0)?;
    Ok(places)
}

/// The places of a book's transactions, one transaction after the other.
fn places_of(alloc: Global, book: &[Txn]) -> Result<Vec<OnDay>, Memory>
    ensures { IfOk result (λ places. places.items ≡ text_places 0 book.now) }
{
    let mut places = Vec::new(alloc);
    let mut own = Vec::new(alloc);
    for number in 0..book.len() {
        push_txn(&mut places, &mut own, number, &book[number])?;
    }
    Ok(places)
}

/// Adds the places of a transaction to others. What `own` had is lost.
fn push_txn(
    places: &mut Vec<OnDay>,
    own: &mut Vec<OnDay>,
    number: usize,
    txn: &Txn,
) -> Result<(), Memory>
    ensures { OnOk result (places.new.items ≡ places.old.items ++ with_txn number txn.now []) }
{
    own.clear();
    put_txn(own, number, txn)?;
    places.extend_from_slice(own.as_slice())?;
    Ok(())
}

/// Other places in their order, with a transaction under a number in place of the one that was there.
fn places_with(
    alloc: Global,
    places: &[OnDay],
    number: usize,
    txn: &Txn,
) -> Result<Vec<OnDay>, Memory>
    requires { rise places.now ≡ true }
    ensures rise { IfOk result (λ new. rise new.items ≡ true) }
    ensures places { IfOk result (λ new. new.items
        ≡ with_txn number txn.now (without_number number places.now)) }
{
    let mut new = Vec::from_slice(alloc, places)?;
    leave_out(&mut new, number);
    put_txn(&mut new, number, txn)?;
    Ok(new)
}

/// Takes away the places of the transaction with a number.
fn leave_out(places: &mut Vec<OnDay>, number: usize)
    ensures { places.new.items ≡ without_number number places.old.items }
{
    places.retain(|place| place.number != number);
}

/// Puts the places of a transaction among others in their order.
fn put_txn(places: &mut Vec<OnDay>, number: usize, txn: &Txn) -> Result<(), Memory>
    requires { rise places.old.items ≡ true }
    ensures rise { OnOk result (rise places.new.items ≡ true) }
    ensures places { OnOk result (places.new.items ≡ with_txn number txn.now places.old.items) }
{
    for posting in txn.postings.as_slice() {
        let day = posting.day_in(txn);
        put_place(places, OnDay { day, number })?;
    }
    Ok(())
}

/// Puts a place among others in their order, unless it is there.
fn put_place(places: &mut Vec<OnDay>, place: OnDay) -> Result<(), Memory>
    requires { rise places.old.items ≡ true }
    ensures rise { OnOk result (rise places.new.items ≡ true) }
    ensures places { OnOk result (places.new.items ≡ with_place place places.old.items) }
{
    let at = first_from(places.as_slice(), &place);
    if is_found(places.as_slice(), at, &place) {
        return Ok(());
    }
    places.insert(at, place)?;
    Ok(())
}

/// Whether a place stands at an index.
fn is_found(places: &[OnDay], at: usize, place: &OnDay) -> bool
    ensures { result ≡ is_found place.now (slice_get places.now at) }
{
    match place_at(places, at) {
        Some(other) => is_same(other, place),
        None => false,
    }
}

fn place_at(places: &[OnDay], at: usize) -> Option<&OnDay>
    ensures { option_copied result ≡ slice_get places.now at }
{
    places.get(at)
}

/// The places of a day before a number.
fn places_between(places: &[OnDay], day: Day, number: usize) -> &[OnDay]
    requires { rise places.now ≡ true }
    ensures { result.now ≡ places_before day number places.now }
{
    let first = first_from(places, &OnDay { day, number: 0 });
    let end = first_from(places, &OnDay { day, number });
    between(places, first, end)
}

fn between(places: &[OnDay], first: usize, end: usize) -> &[OnDay]
    requires order { first ≤ end }
    requires within { end ≤ length places.now }
    ensures { result.now ≡ slice_range places.now first end }
{
    &places[first..end]
}

/// How many places stand below one, found by halves.
fn first_from(places: &[OnDay], place: &OnDay) -> usize
    requires { rise places.now ≡ true }
    ensures { result ≡ below_count place.now places.now }
{
    let mut low = 0;
    let mut high = places.len();
    while low < high {
        let middle = low + (high - low) / 2;
        if is_below(&places[middle], place) {
            low = middle + 1;
        } else {
            high = middle;
        }
    }
    low
}

fn is_below(a: &OnDay, b: &OnDay) -> bool
    ensures { result ≡ is_below a.now b.now }
{
    a.day.0 < b.day.0 || (a.day.0 == b.day.0 && a.number < b.number)
}

fn is_same(a: &OnDay, b: &OnDay) -> bool
    ensures { result ≡ is_same a.now b.now }
{
    a.day.0 == b.day.0 && a.number == b.number
}
