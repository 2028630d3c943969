//! The judgement on transactions that rules had a part in.
ghost use Rattle.std.specs.Prelude.{◌≡◌, ◌++◌, [], ◌∷◌, OnOk};
ghost use Rattle.hl_base.specs.Gives.{Gives};
ghost use Rattle.book.specs.Postings.{txn_in, txns_of};
ghost use Rattle.generated.specs.Judged as judging;
ghost use Rattle.generated.specs.Refusals.{cause_of};

use crate::fault::GenFault;
use balancing::{CheckFault, check};
use book::{Book, Item, Placed, Txn};
use hl_base::{Kind, List, Memory, Piece};
use std::alloc::Global;

/// A transaction as an item that stands in no text.
fn placed(txn: Txn) -> Placed
    ensures { txn_in result.item ≡ txn ∷ [] }
{
    Placed {
        piece: Piece {
            at: 0,
            len: 0,
            line: 1,
            kind: Kind::Entry,
        },
        item: Item::Txn(txn),
    }
}

/// Puts transactions behind others.
pub(crate) fn place_all(items: &mut Vec<Placed>, txns: Vec<Txn>) -> Result<(), Memory>
    ensures { OnOk result (txns_of items.new.items ≡ txns_of items.old.items ++ txns.items) }
{
    for txn in txns {
        items.push(placed(txn))?;
    }
    Ok(())
}

/// What is told of a fault that was found.
fn fault_told(fault: CheckFault) -> GenFault
    ensures { result ≡ judging.fault_told fault }
{
    match fault {
        CheckFault::Journal(fault) => GenFault::Journal(fault),
        CheckFault::Memory => GenFault::Memory,
    }
}

/// The book of some transactions, or the fault of the first group of them that has one.
pub(crate) fn judged(alloc: Global, items: Vec<Placed>) -> Result<Book, GenFault>
    ensures { Gives (λ book. book) cause_of result
        (judging.told_book (judging.judged (txns_of items.items))) }
{
    match check(alloc, List::from_vec(items)) {
        Ok(book) => Ok(book),
        Err(fault) => Err(fault_told(fault)),
    }
}
