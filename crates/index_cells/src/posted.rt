//! What a plain report takes of a book.
ghost use Rattle.std.specs.Prelude.{◌≡◌, ◌++◌, false, map, OnOk, IfOk};
ghost use Rattle.entry_balance.specs.Values.{value_of};
ghost use Rattle.report_cells.specs.Bounds as bounds;
ghost use Rattle.report_takings.specs.Costs as costs;
ghost use Rattle.index_cells.specs.Keeps.{Keeps};
ghost use Rattle.index_cells.specs.Names.{NamesOf};
ghost use Rattle.index_cells.specs.Posted.{posted, posted_in};

use crate::building::keep;
use crate::kept::Kept;
use book::{Amount, Posting, Txn};
use hl_base::Memory;
use report_cells::{Share, Taking};
use std::alloc::Global;

/// What is kept of the postings of some transactions, no symbol of which is out of range.
pub fn keep_book(alloc: Global, txns: &[Txn]) -> Result<Kept, Memory>
    requires { bounds.TurnoverFits (posted_in txns.now) }
    ensures keeps { IfOk result (λ kept. Keeps (posted_in txns.now) kept) }
    ensures names { IfOk result (λ kept. NamesOf (posted_in txns.now) kept) }
{
    let takings = posted_in(alloc, txns)?;
    keep(alloc, &takings)
}

/// The postings of some transactions as they are written.
pub(crate) fn posted_in<'a>(alloc: Global, txns: &'a [Txn]) -> Result<Vec<Taking<'a>>, Memory>
    ensures { IfOk result (λ takings. takings.items ≡ posted_in txns.now) }
{
    let mut takings = Vec::new(alloc);
    for txn in txns {
        push_postings(&mut takings, txn)?;
    }
    Ok(takings)
}

/// Adds the postings of a transaction.
fn push_postings<'a>(takings: &mut Vec<Taking<'a>>, txn: &'a Txn) -> Result<(), Memory>
    ensures { OnOk result (takings.new.items
        ≡ takings.old.items ++ map (λ posting. posted (posting, txn.now)) txn.now.postings) }
{
    for posting in txn.postings.as_slice() {
        takings.push(posted(posting, txn))?;
    }
    Ok(())
}

/// A posting as it is written.
fn posted<'a>(posting: &'a Posting, txn: &'a Txn) -> Taking<'a>
    ensures { result ≡ posted (posting.now, txn.now) }
{
    Taking {
        account: posting.account.as_str(),
        day: posting.day_in(txn),
        amount: moved(posting),
    }
}

/// What a posting moves.
fn moved<'a>(posting: &'a Posting) -> Option<Share<'a>>
    ensures { result ≡ costs.moved false posting.now }
{
    match &posting.amount {
        Some(amount) => Some(told_as(amount, posting.filled)),
        None => None,
    }
}

/// An amount as it is told, with as few decimals as it needs where balancing found it.
fn told_as<'a>(amount: &'a Amount, found: bool) -> Share<'a>
    ensures { result ≡ costs.told_as found (value_of amount.now) }
{
    Share {
        symbol: &amount.symbol,
        value: if found {
            amount.value.trimmed()
        } else {
            amount.value
        },
    }
}
