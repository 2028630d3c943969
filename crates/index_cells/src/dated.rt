//! Books whose days are days of the calendar.
ghost use Rattle.std.specs.Prelude.{◌≡◌, ◌↔◌, nat_lt, IsTrue};
ghost use Rattle.hl_time.specs.Calendar.{day_end};
ghost use Rattle.query.specs.Matching.{day_of};
ghost use Rattle.index_cells.specs.Posted.{AreDated, is_dated};

use book::{Posting, Txn};
use hl_time::DAY_END;

/// Whether the days of the postings of some transactions are days of the calendar.
pub fn are_dated(txns: &[Txn]) -> bool
    ensures { IsTrue result ↔ AreDated txns.now }
{
    for txn in txns {
        let dated = is_dated(txn);
        if !dated {
            return false;
        }
    }
    true
}

/// Whether the days of a transaction's postings are.
fn is_dated(txn: &Txn) -> bool
    ensures { result ≡ is_dated txn.now }
{
    for posting in txn.postings.as_slice() {
        let early = is_early(posting, txn);
        if !early {
            return false;
        }
    }
    true
}

/// Whether the day of a posting is.
fn is_early(posting: &Posting, txn: &Txn) -> bool
    ensures { result ≡ nat_lt (day_of posting.now txn.now) day_end }
{
    posting.day_in(txn).0 < DAY_END
}
