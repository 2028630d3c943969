//! What a walk of an edit asks of a book.
ghost use Rattle.std.specs.Prelude.{◌≡◌, IfOk, true};
ghost use Rattle.book.specs.Bounds.{TurnoverFits};
ghost use Rattle.book.specs.Postings.{postings_of, txns_of};
ghost use Rattle.balancing.specs.Solves.{Solves};
ghost use Rattle.entry_balance.specs.Entry.{moved};
ghost use Rattle.kept_turnover.specs.Keeping.{IsTurnover};
ghost use Rattle.kept_books.specs.Keeping.{AreWalks};

use crate::gathering::symbols_of;
use crate::watching::watches_of;
use crate::written::entries_of;
use book::{Placed, Txn};
use hl_base::{List, Memory, Text};
use kept_turnover::Turnover;
use placed_sums::index_of;
use shared_days::SharedDays;
use std::alloc::Global;
use walked_edits::Kept;
use watchers::Watchers;

/// What a walk of an edit asks of a book: an index of its rows with its days and its turnover, the watches of the
/// transactions as they are written, and the symbols that they write, in the order of their bytes.
#[derive(Drop)]
pub struct Walks {
    pub kept: Kept,
    pub watchers: Watchers,
    pub symbols: List<Text>,
}

/// What a walk asks of the book of some items, with its turnover.
fn walks_with(
    alloc: Global,
    items: &[Placed],
    txns: &[Txn],
    turnover: Turnover,
) -> Result<Walks, Memory>
    requires fits { TurnoverFits (postings_of txns.now) }
    requires turnover { IsTurnover turnover (moved (postings_of txns.now)) }
    ensures { IfOk result (AreWalks (txns_of items.now) txns.now) }
{
    let index = index_of(alloc, txns)?;
    let days = SharedDays::of(alloc, txns)?;
    let entries = entries_of(alloc, items)?;
    let watchers = watches_of(alloc, &entries)?;
    let symbols = symbols_of(alloc, entries.txns.as_slice())?;
    let kept = Kept {
        index,
        days,
        turnover,
    };
    Ok(Walks {
        kept,
        watchers,
        symbols,
    })
}

/// What a walk asks of the book of some items.
pub(crate) fn walks_of(alloc: Global, items: &[Placed], txns: &[Txn]) -> Result<Walks, Memory>
    requires { Solves (txns_of items.now) txns.now }
    ensures { IfOk result (AreWalks (txns_of items.now) txns.now) }
{
    let turnover = Turnover::of(alloc, txns)?;
    walks_with(alloc, items, txns, turnover)
}
