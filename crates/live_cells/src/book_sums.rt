//! Sums of a book before a day, as they are asked for.
ghost use Rattle.std.specs.Prelude.{◌≡◌, ◌+◌, ◌≤◌};
ghost use Rattle.hl_num.specs.Decimal.{units_of};
ghost use Rattle.book.specs.SumsBefore.{OnlyAsked, start_of, sum_before};

use crate::over_book::sum_over;
use book::{DaySums, Txn};
use hl_base::{Steps, Text};
use hl_num::Dec;
use hl_time::Day;
use live_index::{Index, upto};
use std::marker::Model;
use std::sync::ledger::Ledger;

/// The days that an index reaches: those below this number.
const DAYS: u32 = 1 << 22;

/// Tells sums of a book before any day. Each comes from at most 22 nodes of an index of the book's rows, and before a day that
/// the index doesn't reach, which is none of the calendar, from all postings of the book. Contracts see the book's transactions.
#[derive(Drop)]
pub struct BookSums<'a> {
    index: &'a Index,
    txns: &'a [Txn],
}

impl<'a> Model for BookSums<'a> {
    ghost use Rattle.std.specs.Prelude.{List};
    ghost use Rattle.book.specs.declared.transaction.Txn.{Txn};
    ghost use Rattle.live_cells.specs.Kept.{AreKept};

    ghost Value = { List Txn };

    ghost view = { λ s. s.txns.now };

    ghost invariant = { λ s. AreKept s.index.now s.txns.now };
}

impl<'a> BookSums<'a> {
    ghost use Rattle.std.specs.Prelude.{◌≡◌, IfSome};
    ghost use Rattle.std.specs.Option.{option_copied};
    ghost use Rattle.book.specs.Bounds.{TurnoverFits};
    ghost use Rattle.book.specs.Postings.{postings_of};
    ghost use Rattle.placed_sums.specs.Rows.{Tell};
    ghost use Rattle.live_cells.specs.Kept.{Reaches};

    /// The sums of a book whose amounts are in range, as those of a loaded book are, by an index that tells it.
    pub fn new(index: &'a Index, txns: &'a [Txn]) -> BookSums<'a>
        requires fits { TurnoverFits (postings_of txns.now) }
        requires told { Tell index.now txns.now }
        ensures { result ≡ txns.now }
    {
        BookSums { index, txns }
    }

    /// The index, if it reaches the day.
    fn reaching(&self, end: Day) -> Option<&'a Index>
        ensures { IfSome (option_copied result) (λ rows. Reaches rows self.now end.0) }
    {
        if end.0 >= DAYS {
            return None;
        }
        Some(self.index)
    }
}

impl<'a> DaySums for BookSums<'a> {
    ghost txns = { λ book. book };

    fn cell<L: Ledger>(
        &self,
        account: &Text,
        symbol: &Text,
        end: Day,
        below: bool,
        steps: &mut Steps<L>,
    ) -> Dec {
        match self.reaching(end) {
            Some(index) => upto(index, account, symbol, end, below, steps),
            None => sum_over(self.txns, account, symbol, end, below),
        }
    }
}
