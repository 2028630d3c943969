//! What is kept of a book with transactions behind it that leave all others as they are.
ghost use Rattle.std.specs.Prelude.{◌≡◌, ◌++◌, IfOk, List, length, true};
ghost use Rattle.book.specs.Bounds.{TurnoverFits};
ghost use Rattle.book.specs.Postings.{postings_of, txns_of};
ghost use Rattle.book.specs.declared.transaction.Txn.{Txn as Entry};
ghost use Rattle.entry_balance.specs.Entry.{moved};
ghost use Rattle.entry_balance.specs.Values.{Value};
ghost use Rattle.kept_turnover.specs.Keeping.{IsTurnover, are_told};
ghost use Rattle.live_index.specs.Rows as index_rows;
ghost use Rattle.live_index.specs.Standing.{standing};
ghost use Rattle.placed_sums.specs.Rows as rows;
ghost use Rattle.shared_days.specs.Days.{AreOf as AreDaysOf};
ghost use Rattle.walked_edits.specs.Keeping.{IsKept};
ghost use Rattle.kept_books.specs.Keeping.{AreWalks};

use crate::gathering::symbols_with;
use crate::walks::Walks;
use crate::watching::watches_renewed;
use crate::written::{entries_of, no_entries};
use book::{Placed, Txn};
use hl_base::Memory;
use kept_turnover::Turnover;
use live_index::Index;
use placed_sums::rows_of;
use shared_days::SharedDays;
use std::alloc::Global;
use walked_edits::Kept;

/// An index with the rows of more transactions.
fn index_behind(alloc: Global, index: &Index, txns: &[Txn]) -> Result<Index, Memory>
    requires { index_rows.TurnoverFits (standing (index.now ++ rows.rows_of txns.now)) }
    ensures { IfOk result (λ more. more ≡ index.now ++ rows.rows_of txns.now) }
{
    let own = rows_of(alloc, txns)?;
    let mut more = index.copy()?;
    let prepared = more.prepare(own.as_slice())?;
    more.put(prepared);
    Ok(more)
}

/// The days of a book with more transactions behind it.
fn days_behind(
    alloc: Global,
    days: &SharedDays,
    book: &[Txn],
    txns: &[Txn],
) -> Result<SharedDays, Memory>
    requires { AreDaysOf book.now days.now }
    ensures { IfOk result (AreDaysOf (book.now ++ txns.now)) }
{
    let mut all = days.copy()?;
    let mut at = 0;
    while at < txns.len() {
        let more = all.added(alloc, book.len() + at, &txns[at])?;
        all = more;
        at += 1;
    }
    Ok(all)
}

/// What a book moves with more transactions behind it.
fn turnover_behind(alloc: Global, turnover: &Turnover, txns: &[Txn]) -> Result<Turnover, Memory>
    requires { are_told txns.now ≡ true }
    ensures { IfOk result (λ more. (values : List Value) → IsTurnover turnover.now values
        → IsTurnover more (values ++ moved (postings_of txns.now))) }
{
    let mut more = turnover.copied()?;
    for txn in txns {
        more.add(alloc, txn)?;
    }
    Ok(more)
}

/// What is kept of the rows, the days and the turnover of a book with more transactions behind it.
fn kept_behind(alloc: Global, kept: &Kept, book: &[Txn], txns: &[Txn]) -> Result<Kept, Memory>
    requires kept { IsKept book.now kept.now }
    requires told { are_told txns.now ≡ true }
    requires fits { TurnoverFits (postings_of (book.now ++ txns.now)) }
    ensures { IfOk result (IsKept (book.now ++ txns.now)) }
{
    let index = index_behind(alloc, &kept.index, txns)?;
    let days = days_behind(alloc, &kept.days, book, txns)?;
    let turnover = turnover_behind(alloc, &kept.turnover, txns)?;
    Ok(Kept {
        index,
        days,
        turnover,
    })
}

/// What a walk asks of a book with more transactions behind it, which are written in some items.
pub(crate) fn walks_behind(
    alloc: Global,
    items: &[Placed],
    walks: &Walks,
    book: &[Txn],
    more: &[Placed],
    txns: &[Txn],
) -> Result<Walks, Memory>
    requires walks { AreWalks (txns_of items.now) book.now walks.now }
    requires size { length (txns_of items.now) ≡ length book.now }
    requires told { are_told txns.now ≡ true }
    requires fits { TurnoverFits (postings_of (book.now ++ txns.now)) }
    ensures { IfOk result
        (AreWalks (txns_of items.now ++ txns_of more.now) (book.now ++ txns.now)) }
{
    let kept = kept_behind(alloc, &walks.kept, book, txns)?;
    let forms = entries_of(alloc, more)?;
    let nothing = no_entries(alloc);
    let first = book.len();
    let _count = forms.txns.len();
    let watchers = watches_renewed(
        alloc,
        &walks.watchers,
        nothing.txns.as_slice(),
        first,
        forms.txns.as_slice(),
    )?;
    let symbols = symbols_with(alloc, walks.symbols.as_slice(), forms.txns.as_slice())?;
    Ok(Walks {
        kept,
        watchers,
        symbols,
    })
}
