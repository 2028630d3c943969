//! All that an edit reaches.
ghost use Rattle.std.specs.Prelude.{◌≡◌, ◌==◌, ◌<◌, [], length, Some, IfErr, IfOk, OnOk};
ghost use Rattle.std.specs.List.{slice_get};
ghost use Rattle.reached_entries.specs.Reached.{AreSame};
ghost use Rattle.watchers.specs.Watches.{AreOf, numbered_from};
ghost use Rattle.reached_walk.specs.Closed.{edit_of, AreReached, ReachesDated};
ghost use Rattle.reached_walk.specs.Notes.{IsCause};
ghost use Rattle.reached_walk.specs.Walks.{IsTold, WasDated, Walks};

use crate::fault::ReachFault;
use crate::place::Spot;
use crate::walking::Reach;
use book::Txn;
use hl_base::List;
use std::alloc::Global;
use watchers::Watchers;

/// The transaction under a number, which counts from 0.
fn txn_at(txns: &[Txn], number: usize) -> &Txn
    requires { number < length txns.now }
    ensures { slice_get txns.now number ≡ Some result.now }
{
    &txns[number]
}

/// Tells a walk the old form of the edited transaction, if it had one.
fn tell_old(
    alloc: Global,
    watchers: &Watchers,
    walk: &mut Reach,
    before: &[Txn],
    spot: Spot,
) -> Result<(), ReachFault>
    ensures told { OnOk result (IsTold watchers.now spot before.now walk.old walk.new) }
    ensures dated { IfErr result (λ fault. IsCause fault (WasDated spot.number before.now)) }
{
    match before.get(spot.number as usize) {
        Some(old) => walk.leave(alloc, watchers, spot, old),
        None => Ok(()),
    }
}

/// A walk that begins at the edited transaction.
fn begun(
    alloc: Global,
    watchers: &Watchers,
    number: u64,
    before: &[Txn],
    after: &[Txn],
) -> Result<Reach, ReachFault>
    requires inside { number < length after.now }
    requires others { AreSame (λ n. n == number) 0 before.now after.now }
    requires watched { AreOf (numbered_from 0 after.now) watchers.now }
    ensures begun { IfOk result (Walks (edit_of number before.now after.now) [] []) }
    ensures dated { IfErr result
        (λ fault. IsCause fault (ReachesDated (edit_of number before.now after.now))) }
{
    let new = txn_at(after, number as usize);
    let spot = Spot {
        day: new.day,
        number,
    };
    let mut walk = Reach::new(alloc, std::slice::from_ref(&spot))?;
    tell_old(alloc, watchers, &mut walk, before, spot)?;
    Ok(walk)
}

/// The transactions that the edit of one reaches, in the order of their places: the texts before and after it differ
/// in the one under a number alone, and the watches are those of the text after it. `Dated` says that a reached one has
/// a posting on another day than its own.
pub fn reached_from(
    alloc: Global,
    watchers: &Watchers,
    number: u64,
    before: &[Txn],
    after: &[Txn],
) -> Result<List<Spot>, ReachFault>
    requires inside { number < length after.now }
    requires others { AreSame (λ n. n == number) 0 before.now after.now }
    requires watched { AreOf (numbered_from 0 after.now) watchers.now }
    ensures reached { IfOk result (AreReached (edit_of number before.now after.now)) }
    ensures dated { IfErr result
        (λ fault. IsCause fault (ReachesDated (edit_of number before.now after.now))) }
{
    let mut walk = begun(alloc, watchers, number, before, after)?;
    let mut spots = Vec::new(alloc);
    while let Some(spot) = walk.next(watchers) {
        spots.push(spot)?;
        let txn = txn_at(after, spot.number as usize);
        walk.reach(alloc, watchers, spot, txn)?;
    }
    Ok(List::from_vec(spots))
}
