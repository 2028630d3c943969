//! The transactions of a book by the days of their postings.
ghost use Rattle.std.specs.Prelude.{◌≡◌, ◌++◌, ◌∷◌, [], List, Some, IfOk, length, set, slice_get};
ghost use Rattle.book.specs.declared.transaction.Txn.{Txn as Entry};
ghost use Rattle.hl_time.specs.declared.day.Day.{Day as Date};
ghost use Rattle.placed_sums.specs.Days.{numbers_in, places_before};
ghost use Rattle.placed_sums.specs.Numbers.{earlier_on};
ghost use Rattle.shared_days.specs.Days.{AreOf, numbers_now};

use crate::changing::{put_txn, take_txn};
use crate::day_places::{DayPlaces, Sought};
use crate::listing::lower_front;
use book::Txn;
use hl_base::Memory;
use hl_time::Day;
use placed_sums::{Days, OnDay};
use shared_set::SharedSet;
use std::alloc::Global;
use std::sync::Arc;

/// The transactions of a book by the days of their postings. All copies share the days as they were made, and a tree of the
/// days that have changed since, each with all its places. A transaction that is added, or gets another form, takes time and
/// memory for the places of its own days and a way down the tree.
#[derive(Drop)]
pub struct SharedDays {
    pub(crate) made: Arc<Days>,
    pub(crate) changed: SharedSet<DayPlaces>,
}

impl SharedDays {
    /// The days of a book, sorted once.
    pub fn of(alloc: Global, book: &[Txn]) -> Result<SharedDays, Memory>
        ensures { IfOk result (AreOf book.now) }
    {
        if book.len() == usize::MAX {
            return Err(Memory);
        }
        let days = Days::of(alloc, book)?;
        let made = Arc::new(alloc, days)?;
        let changed = SharedSet::new();
        Ok(SharedDays { made, changed })
    }

    /// The same days, shared.
    pub fn copy(&self) -> Result<SharedDays, Memory>
        ensures { IfOk result
            (λ copy. (day : Date) → numbers_now day copy ≡ numbers_now day self.now) }
    {
        let made = Arc::try_clone(&self.made)?;
        let changed = self.changed.copy()?;
        Ok(SharedDays { made, changed })
    }

    /// The places of the transactions with a posting on a day and a number below one. They serve `SumsAt`.
    pub fn before(&self, day: Day, number: usize) -> &[OnDay]
        ensures { (book : List Entry) → AreOf book self.now
            → numbers_in result.now ≡ earlier_on day.0 number book }
    {
        let sought = Sought { day };
        match self.changed.get(&sought) {
            Some(found) => lower_front(found.places.as_slice(), number),
            None => made_before(&self.made, day, number),
        }
    }

    /// The days of the book with a transaction behind it. These stay as they are.
    pub fn added(&self, alloc: Global, number: usize, txn: &Txn) -> Result<SharedDays, Memory>
        ensures { IfOk result
            (λ days. (book : List Entry) → AreOf book self.now → number ≡ length book
            → AreOf (book ++ txn.now ∷ []) days) }
    {
        let mut days = self.copy()?;
        put_txn(alloc, &mut days, number, txn)?;
        Ok(days)
    }

    /// The days of the book in which a transaction gets another form. These stay as they are.
    pub fn exchanged(
        &self,
        alloc: Global,
        number: usize,
        old: &Txn,
        new: &Txn,
    ) -> Result<SharedDays, Memory>
        ensures { IfOk result (λ days. (book : List Entry) → AreOf book self.now
            → slice_get book number ≡ Some old.now → AreOf (set book number new.now) days) }
    {
        let mut days = self.copy()?;
        take_txn(alloc, &mut days, number, old)?;
        put_txn(alloc, &mut days, number, new)?;
        Ok(days)
    }
}

/// The places on a day below a number with which days were made.
pub(crate) fn made_before(days: &Days, day: Day, number: usize) -> &[OnDay]
    ensures { result.now ≡ places_before day number days.now }
{
    days.before(day, number)
}
