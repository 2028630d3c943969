//! The accounts that change, and where their balances are asked for next.
ghost use Rattle.std.specs.Prelude.{◌≡◌, ◌∷◌, [], false, true, IfErr, IfOk, OnOk};
ghost use Rattle.std.specs.List.{list_any, AllZip};
ghost use Rattle.reached_walk.specs.Asks.{IsNextAfter};
ghost use Rattle.reached_walk.specs.Apart as dates;
ghost use Rattle.reached_walk.specs.Notes as spec;

use crate::dated::is_dated;
use crate::fault::ReachFault;
use crate::place::{Spot, is_due, spot_at};
use book::{Posting, Txn};
use hl_base::{Memory, Text};
use std::alloc::Global;
use watchers::{Place, Watchers};

/// An account whose balance changes: from which transaction on, and the next one that asks for it.
#[derive(Drop)]
pub(crate) struct Change {
    pub(crate) account: Text,
    pub(crate) since: Spot,
    pub(crate) next: Option<Spot>,
}

/// The first transaction after one that asks for the balance of an account.
fn next_after(watchers: &Watchers, account: &Text, spot: Spot) -> Option<Spot>
    ensures { IsNextAfter watchers.now account.now spot result }
{
    let after = Place {
        day: spot.day,
        txn: spot.number,
        posting: u64::MAX,
    };
    match watchers.next(account, after) {
        Some(place) => Some(spot_at(&place)),
        None => None,
    }
}

/// Whether an account changed at a place, or before it.
fn is_since(change: &Change, account: &Text, spot: Spot) -> bool
    ensures { result ≡ spec.is_since account.now spot change.now }
{
    change.account.as_bytes() == account.as_bytes() && !spot.is_before(&change.since)
}

/// Whether one of some accounts that changed is this, which changed at a place or before it.
fn is_noted(changes: &[Change], account: &Text, spot: Spot) -> bool
    ensures { result ≡ list_any (spec.is_since account.now spot) changes.now }
{
    changes.iter().any(|change| is_since(change, account, spot))
}

/// An account that changes at a place.
fn change_of(
    alloc: Global,
    watchers: &Watchers,
    account: &Text,
    spot: Spot,
) -> Result<Change, Memory>
    ensures account { IfOk result (λ change. change.account ≡ account.now) }
    ensures since { IfOk result (λ change. change.since ≡ spot) }
    ensures next { IfOk result (λ change. IsNextAfter watchers.now account.now spot change.next) }
{
    let account_text = Text::copied(alloc, account.as_str())?;
    let next = next_after(watchers, account, spot);
    Ok(Change {
        account: account_text,
        since: spot,
        next,
    })
}

/// Notes that an account changes at a place, unless that is known.
fn note_account(
    alloc: Global,
    watchers: &Watchers,
    changes: &mut Vec<Change>,
    spot: Spot,
    account: &Text,
) -> Result<(), Memory>
    ensures { OnOk result
        (spec.Notes watchers.now spot (account.now ∷ []) changes.old.items changes.new.items) }
{
    if is_noted(changes.as_slice(), account, spot) {
        return Ok(());
    }
    let change = change_of(alloc, watchers, account, spot)?;
    changes.push(change)?;
    Ok(())
}

/// Notes that the accounts of some postings change at a place.
fn note_postings(
    alloc: Global,
    watchers: &Watchers,
    changes: &mut Vec<Change>,
    spot: Spot,
    postings: &[Posting],
) -> Result<(), Memory>
    ensures { OnOk result (spec.Notes watchers.now spot (spec.accounts_of postings.now)
        changes.old.items changes.new.items) }
{
    for posting in postings {
        note_account(alloc, watchers, changes, spot, &posting.account)?;
    }
    Ok(())
}

/// Notes that the accounts of a transaction change at a place, unless a posting of it stands on another day.
pub(crate) fn note_txn(
    alloc: Global,
    watchers: &Watchers,
    changes: &mut Vec<Change>,
    spot: Spot,
    txn: &Txn,
) -> Result<(), ReachFault>
    ensures noted { OnOk result (spec.Notes watchers.now spot
        (spec.accounts_of txn.now.postings) changes.old.items changes.new.items) }
    ensures plain { OnOk result (dates.is_dated txn.now ≡ false) }
    ensures dated { IfErr result (λ fault. spec.IsCause fault (dates.is_dated txn.now ≡ true)) }
{
    if is_dated(txn) {
        return Err(ReachFault::Dated);
    }
    note_postings(alloc, watchers, changes, spot, txn.postings.as_slice())?;
    Ok(())
}

/// The next place of an account, looked up anew where it is the given one.
fn renewed(watchers: &Watchers, spot: Spot, change: &Change) -> Option<Spot>
    ensures { spec.IsRenewed watchers.now spot change.now result }
{
    if is_due(change.next, spot) {
        return next_after(watchers, &change.account, spot);
    }
    change.next
}

/// Lets an account come past a place.
fn pass(watchers: &Watchers, spot: Spot, change: &mut Change)
    ensures { spec.Passes watchers.now spot change.old change.new }
{
    let next = renewed(watchers, spot, change);
    change.next = next;
}

/// Lets some accounts come past a place.
fn pass_each(watchers: &Watchers, spot: Spot, changes: &mut [Change])
    ensures { AllZip (spec.Passes watchers.now spot) changes.old changes.new }
{
    for change in changes.iter_mut() {
        pass(watchers, spot, change);
    }
}

/// Lets all accounts come past a place.
pub(crate) fn pass_all(watchers: &Watchers, spot: Spot, changes: &mut Vec<Change>)
    ensures { AllZip (spec.Passes watchers.now spot) changes.old.items changes.new.items }
{
    pass_each(watchers, spot, changes);
}
