//! The days on which a book asks, by its postings that have an assertion or are an assignment.
ghost use Rattle.std.specs.Prelude.{◌≡◌, ◌++◌, ◌∷◌, [], ℕ, List, Some, IfOk, OnErr, OnOk, set, slice_get};
ghost use Rattle.std.specs.List.{flat_map, fold};
ghost use Rattle.book.specs.declared.transaction.Txn.{Txn as Entry};
ghost use Rattle.asked_days.specs.Asked.{AreOf, IsKept, days_if, days_of, days_of_posting, has_assigned, last_asked};
ghost use Rattle.asked_days.specs.Counts.{counted, uncounted};

use crate::assigned::{assigned_in, with_txn, without_txn};
use crate::counts::{DayCount, count, last_day, uncount};
use book::{Assertion, Boxed, Posting, Txn};
use hl_base::Memory;
use hl_time::Day;
use shared_set::SharedSet;
use std::alloc::Global;

/// The days on which postings of a book ask for a balance, each with how many do, and how many of all these are
/// assignments. A copy shares them, and a change takes time and memory for a few ways down a tree for each posting of its
/// transaction that asks.
#[derive(Drop)]
pub struct AskedDays {
    days: SharedSet<DayCount>,
    assigned: u64,
}

impl AskedDays {
    /// Those of a book.
    pub fn of(alloc: Global, txns: &[Txn]) -> Result<AskedDays, Memory>
        ensures { IfOk result (AreOf txns.now) }
    {
        let assigned = assigned_in(txns)?;
        let days = days_in(alloc, txns)?;
        Ok(AskedDays { days, assigned })
    }

    /// Those of the same book.
    pub fn copy(&self) -> Result<AskedDays, Memory>
        ensures { IfOk result (λ copy. copy ≡ self.now) }
    {
        Ok(AskedDays {
            days: self.days.copy()?,
            assigned: self.assigned,
        })
    }

    /// Adds those of a transaction behind the book. After an error they are as before.
    pub fn add(&mut self, alloc: Global, txn: &Txn) -> Result<(), Memory>
        ensures ok { OnOk result
            ((book : List Entry) → AreOf book self.old → AreOf (book ++ txn.now ∷ []) self.new) }
        ensures err { OnErr result (self.new ≡ self.old) }
    {
        let assigned = with_txn(self.assigned, txn)?;
        let mut days = self.days.copy()?;
        count_txn(alloc, &mut days, txn)?;
        self.days = days;
        self.assigned = assigned;
        Ok(())
    }

    /// Lets them be those of the book in which a transaction gets another form. After an error they are as before.
    pub fn exchange(&mut self, alloc: Global, old: &Txn, new: &Txn) -> Result<(), Memory>
        ensures ok { OnOk result ((book : List Entry) (number : ℕ) → AreOf book self.old
            → slice_get book number ≡ Some old.now → AreOf (set book number new.now) self.new) }
        ensures err { OnErr result (self.new ≡ self.old) }
    {
        let fewer = without_txn(self.assigned, old)?;
        let assigned = with_txn(fewer, new)?;
        let mut days = self.days.copy()?;
        uncount_txn(alloc, &mut days, old)?;
        count_txn(alloc, &mut days, new)?;
        self.days = days;
        self.assigned = assigned;
        Ok(())
    }

    /// The last of them, 0 where no posting asks.
    pub fn last(&self) -> Day
        ensures { (book : List Entry) → AreOf book self.now → result.0 ≡ last_asked book }
    {
        last_day(&self.days)
    }

    /// Whether one of the postings that ask is an assignment.
    pub fn has_assigned(&self) -> bool
        ensures { (book : List Entry) → AreOf book self.now → result ≡ has_assigned book }
    {
        self.assigned > 0
    }
}

/// Those of a book.
fn days_in(alloc: Global, txns: &[Txn]) -> Result<SharedSet<DayCount>, Memory>
    ensures { IfOk result (IsKept (flat_map days_of txns.now)) }
{
    let mut days = SharedSet::new();
    for txn in txns {
        count_txn(alloc, &mut days, txn)?;
    }
    Ok(days)
}

/// Counts a day, where an assertion is there.
fn count_if(
    alloc: Global,
    days: &mut SharedSet<DayCount>,
    wanted: &Option<Boxed<Assertion>>,
    day: Day,
) -> Result<(), Memory>
    ensures { OnOk result (days.new ≡ fold counted days.old (days_if wanted.now day)) }
{
    match wanted {
        Some(_) => count(alloc, days, day),
        None => Ok(()),
    }
}

/// Counts a day once less, where an assertion is there.
fn uncount_if(
    alloc: Global,
    days: &mut SharedSet<DayCount>,
    wanted: &Option<Boxed<Assertion>>,
    day: Day,
) -> Result<(), Memory>
    ensures { OnOk result (days.new ≡ fold uncounted days.old (days_if wanted.now day)) }
{
    match wanted {
        Some(_) => uncount(alloc, days, day),
        None => Ok(()),
    }
}

/// Counts the day of a posting that asks.
fn count_posting(
    alloc: Global,
    days: &mut SharedSet<DayCount>,
    txn: &Txn,
    posting: &Posting,
) -> Result<(), Memory>
    ensures { OnOk result (days.new ≡ fold counted days.old (days_of_posting txn.now posting.now)) }
{
    let day = posting.day_in(txn);
    count_if(alloc, days, &posting.wanted, day)
}

/// Counts it once less.
fn uncount_posting(
    alloc: Global,
    days: &mut SharedSet<DayCount>,
    txn: &Txn,
    posting: &Posting,
) -> Result<(), Memory>
    ensures { OnOk result
        (days.new ≡ fold uncounted days.old (days_of_posting txn.now posting.now)) }
{
    let day = posting.day_in(txn);
    uncount_if(alloc, days, &posting.wanted, day)
}

/// Counts the days on which a transaction's postings ask.
fn count_txn(alloc: Global, days: &mut SharedSet<DayCount>, txn: &Txn) -> Result<(), Memory>
    ensures { OnOk result (days.new ≡ fold counted days.old (days_of txn.now)) }
{
    count_postings(alloc, days, txn, txn.postings.as_slice())
}

/// Counts the days of some postings that ask.
fn count_postings(
    alloc: Global,
    days: &mut SharedSet<DayCount>,
    txn: &Txn,
    postings: &[Posting],
) -> Result<(), Memory>
    ensures { OnOk result
        (days.new ≡ fold counted days.old (flat_map (days_of_posting txn.now) postings.now)) }
{
    for posting in postings {
        count_posting(alloc, days, txn, posting)?;
    }
    Ok(())
}

/// Counts them once less.
fn uncount_txn(alloc: Global, days: &mut SharedSet<DayCount>, txn: &Txn) -> Result<(), Memory>
    ensures { OnOk result (days.new ≡ fold uncounted days.old (days_of txn.now)) }
{
    uncount_postings(alloc, days, txn, txn.postings.as_slice())
}

/// Counts them once less.
fn uncount_postings(
    alloc: Global,
    days: &mut SharedSet<DayCount>,
    txn: &Txn,
    postings: &[Posting],
) -> Result<(), Memory>
    ensures { OnOk result
        (days.new ≡ fold uncounted days.old (flat_map (days_of_posting txn.now) postings.now)) }
{
    for posting in postings {
        uncount_posting(alloc, days, txn, posting)?;
    }
    Ok(())
}
