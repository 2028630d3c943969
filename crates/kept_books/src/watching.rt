//! The watches of transactions as they are written, with others in their place.
ghost use Rattle.std.specs.Prelude.{◌≡◌, [], ◌+◌, ◌^◌, ◌<◌, IfOk, OnOk, length, map};
ghost use Rattle.std.specs.Option.{option_copied};
ghost use Rattle.watchers.specs.Watches.{AreOf, numbered_from};
ghost use Rattle.kept_books.specs.Renewing.{LeavesWatches, PutsWatches, RenewsWatches};

use crate::written::{Entries, lent_at, no_entries};
use book::Txn;
use hl_base::Memory;
use std::alloc::Global;
use watchers::Watchers;

/// Takes out the watches of the transaction under a number, if one stands there.
fn leave_watches(
    alloc: Global,
    watchers: &mut Watchers,
    number: usize,
    old: Option<&Txn>,
) -> Result<(), Memory>
    ensures { OnOk result (LeavesWatches number (option_copied old.entry)
        watchers.old watchers.new) }
{
    match old {
        Some(txn) => watchers.remove(alloc, number as u64, txn),
        None => Ok(()),
    }
}

/// Puts in the watches of a transaction under a number, in the place of those of the one that stands there, if one does.
fn put_watches(
    alloc: Global,
    watchers: &mut Watchers,
    number: usize,
    old: Option<&Txn>,
    txn: &Txn,
) -> Result<(), Memory>
    ensures { OnOk result (PutsWatches number (option_copied old.entry) txn.now
        watchers.old watchers.new) }
{
    leave_watches(alloc, watchers, number, old)?;
    watchers.add(alloc, number as u64, txn)?;
    Ok(())
}

/// The watches of transactions with others in the place of those from a number on, or behind them all. `former` has
/// those that had the numbers from there on.
pub(crate) fn watches_renewed(
    alloc: Global,
    watchers: &Watchers,
    former: &[&Txn],
    first: usize,
    forms: &[&Txn],
) -> Result<Watchers, Memory>
    requires { first + length forms.now < 2 ^ 64 }
    ensures { IfOk result (RenewsWatches first (map (λ t. t.now) former.now)
        (map (λ t. t.now) forms.now) watchers.now) }
{
    let mut more = watchers.copy()?;
    let mut at = 0;
    while at < forms.len() {
        let old = lent_at(former, first + at);
        put_watches(alloc, &mut more, first + at, old, forms[at])?;
        at += 1;
    }
    Ok(more)
}

/// The watches of no transactions.
fn no_watches(alloc: Global) -> Result<Watchers, Memory>
    ensures { IfOk result (AreOf (numbered_from 0 [])) }
{
    let none: Vec<Txn> = Vec::new(alloc);
    Watchers::of(alloc, none.as_slice())
}

/// The watches of some transactions.
pub(crate) fn watches_of(alloc: Global, entries: &Entries) -> Result<Watchers, Memory>
    ensures { IfOk result (AreOf (numbered_from 0 (map (λ t. t.now) entries.now.txns.items))) }
{
    let none = no_watches(alloc)?;
    let nothing = no_entries(alloc);
    let _count = entries.txns.len();
    watches_renewed(
        alloc,
        &none,
        nothing.txns.as_slice(),
        0,
        entries.txns.as_slice(),
    )
}
