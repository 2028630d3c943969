//! Copies of the transactions of a text.
ghost use Rattle.std.specs.Prelude.{◌≡◌, ◌++◌, ◌∷◌, [], IfOk, OnOk};
ghost use Rattle.book.specs.Postings.{txn_in, txns_of};

use book::{Item, Items, Placed, Txn, copied_txn};
use hl_base::{List, Memory, Piece};
use std::alloc::Global;

/// Puts a copy of a transaction behind other items.
fn push_copy(alloc: Global, piece: Piece, txn: &Txn, copies: &mut Vec<Placed>) -> Result<(), Memory>
    ensures { OnOk result (txns_of copies.new.items ≡ txns_of copies.old.items ++ txn.now ∷ []) }
{
    let copy = copied_txn(alloc, txn)?;
    let item = Item::Txn(copy);
    copies.push(Placed { piece, item })?;
    Ok(())
}

/// Puts a copy of an item that is a transaction behind other items.
fn push_entry(alloc: Global, placed: &Placed, copies: &mut Vec<Placed>) -> Result<(), Memory>
    ensures { OnOk result (txns_of copies.new.items ≡ txns_of copies.old.items
        ++ txn_in placed.now.item) }
{
    match &placed.item {
        Item::Txn(txn) => push_copy(alloc, placed.piece, txn, copies),
        Item::Gap => Ok(()),
        Item::Block => Ok(()),
        Item::Auto(_) => Ok(()),
        Item::Periodic(_) => Ok(()),
        Item::Price(_) => Ok(()),
        Item::Directive(_) => Ok(()),
    }
}

/// Copies of the transactions among some items, as items.
pub(crate) fn entries_of(alloc: Global, items: &[Placed]) -> Result<Items, Memory>
    ensures { IfOk result (λ copies. txns_of copies ≡ txns_of items.now) }
{
    let mut copies = Vec::new(alloc);
    for placed in items {
        push_entry(alloc, placed, &mut copies)?;
    }
    Ok(List::from_vec(copies))
}
