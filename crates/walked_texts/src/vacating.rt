//! Transactions that hold the places of those behind a book.
ghost use Rattle.std.specs.Prelude.{◌≡◌, ◌∷◌, ◌++◌, [], IfOk, OnOk, map};
ghost use Rattle.book.specs.Postings.{txn_in, txns_of};
ghost use Rattle.walked_edits.specs.Forms as spec;

use book::{Item, Placed, Txn};
use hl_base::Memory;
use std::alloc::Global;
use walked_edits::vacant;

/// Puts one behind others that holds the place of a transaction.
fn push_vacant(alloc: Global, vacants: &mut Vec<Txn>, txn: &Txn) -> Result<(), Memory>
    ensures { OnOk result (vacants.new.items ≡ vacants.old.items ++ spec.vacant txn.now.day ∷ []) }
{
    vacants.push(vacant(alloc, txn.day))?;
    Ok(())
}

/// The same for the transaction that an item is, if it is one.
fn push_for(alloc: Global, vacants: &mut Vec<Txn>, item: &Item) -> Result<(), Memory>
    ensures { OnOk result (vacants.new.items ≡ vacants.old.items
        ++ map (λ t. spec.vacant t.day) (txn_in item.now)) }
{
    match item {
        Item::Txn(txn) => push_vacant(alloc, vacants, txn),
        Item::Gap => Ok(()),
        Item::Block => Ok(()),
        Item::Auto(_) => Ok(()),
        Item::Periodic(_) => Ok(()),
        Item::Price(_) => Ok(()),
        Item::Directive(_) => Ok(()),
    }
}

/// Those that hold the places of the transactions of some items.
pub(crate) fn vacants_for(alloc: Global, items: &[Placed]) -> Result<Vec<Txn>, Memory>
    ensures { IfOk result (λ vacants.
        vacants.items ≡ map (λ t. spec.vacant t.day) (txns_of items.now)) }
{
    let mut vacants = Vec::new(alloc);
    for placed in items {
        push_for(alloc, &mut vacants, &placed.item)?;
    }
    Ok(vacants)
}
