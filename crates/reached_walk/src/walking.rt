//! The walk over what an edit reaches.
ghost use Rattle.std.specs.Prelude.{◌≡◌, [], List, Option, IfErr, IfOk, OnOk, drop, false, true};
ghost use Rattle.book.specs.declared.transaction.Txn.{Txn};
ghost use Rattle.reached_walk.specs.declared.place.Spot.{Spot};
ghost use Rattle.reached_walk.specs.Asks.{AreWatched};
ghost use Rattle.reached_walk.specs.Closed.{Edit};
ghost use Rattle.reached_walk.specs.Apart as dates;
ghost use Rattle.reached_walk.specs.Notes.{IsCause, earliest_of};
ghost use Rattle.reached_walk.specs.Spots.{first_of, waiting};
ghost use Rattle.reached_walk.specs.Walks.{Goes, IsBegun, IsHanded, IsToldOf, Walks, awaited_in};

use crate::change::{Change, note_txn, pass_all};
use crate::fault::ReachFault;
use crate::place::{Spot, first_from, passed, sooner};
use book::Txn;
use hl_base::Memory;
use std::alloc::Global;
use watchers::Watchers;

/// A walk over the transactions that an edit of some reaches, in the order of their places. It begins at the edited
/// ones, each at the earlier of its old and its new place: `new` is given their new places, and `leave` the old form of
/// each that had one. `next` answers the next transaction, which is then handed to `reach`; the transactions of the new
/// text are looked at in no other way. The watches are those of the new text: of the new forms of the edited
/// transactions and without their old ones.
///
/// A step compares the next place of each account that changed, and asks the watches only for those whose next place
/// it has come to, and once for each account of a transaction that is handed over.
#[derive(Drop)]
pub struct Reach {
    // From `at` on they weren't answered yet.
    edited: Vec<Spot>,
    at: usize,
    changes: Vec<Change>,
}

/// The earliest of a place and of those at which some accounts are asked for next.
fn earliest(edited: Option<Spot>, changes: &[Change]) -> Option<Spot>
    ensures { result ≡ earliest_of edited changes.now }
{
    let mut first = edited;
    for change in changes {
        let earlier = sooner(first, change.next);
        first = earlier;
    }
    first
}

fn copied(alloc: Global, spots: &[Spot]) -> Result<Vec<Spot>, Memory>
    ensures { IfOk result (λ copy. copy.items ≡ spots.now) }
{
    let mut copy = Vec::new(alloc);
    copy.extend_from_slice(spots)?;
    Ok(copy)
}

impl Reach {
    /// A walk that begins at some transactions, which stand at these places.
    pub fn new(alloc: Global, edited: &[Spot]) -> Result<Reach, Memory>
        ensures { IfOk result (λ walk. (edit : Edit) → IsBegun edit edited.now [] walk) }
    {
        let spots = copied(alloc, edited)?;
        let changes = Vec::new(alloc);
        Ok(Reach {
            edited: spots,
            at: 0,
            changes,
        })
    }

    /// Notes that the accounts of an edited transaction's old form change, which no more stands. `Dated` says that it has a
    /// posting on another day than its own.
    pub fn leave(
        &mut self,
        alloc: Global,
        watchers: &Watchers,
        spot: Spot,
        old: &Txn,
    ) -> Result<(), ReachFault>
        ensures told { OnOk result (IsToldOf watchers.now spot old.now self.old self.new) }
        ensures plain { OnOk result (dates.is_dated old.now ≡ false) }
        ensures dated { IfErr result (λ fault. IsCause fault (dates.is_dated old.now ≡ true)) }
    {
        let place = Spot {
            day: old.day,
            number: spot.number,
        };
        note_txn(alloc, watchers, &mut self.changes, place, old)?;
        Ok(())
    }

    /// The first of the edited transactions that weren't answered yet.
    fn first(&self) -> Option<Spot>
        ensures { result ≡ first_of (awaited_in self.now) }
    {
        first_from(self.edited.as_slice(), self.at)
    }

    /// Where the walk goes on.
    fn nearest(&self) -> Option<Spot>
        ensures { result ≡ earliest_of (first_of (awaited_in self.now)) self.now.changes.items }
    {
        let first = self.first();
        earliest(first, self.changes.as_slice())
    }

    /// From which one of the edited transactions on they weren't answered yet, once one was.
    fn past(&self, spot: Spot) -> usize
        ensures { drop result self.now.edited.items ≡ waiting (awaited_in self.now) spot }
    {
        passed(self.edited.as_slice(), self.at, spot)
    }

    /// The next transaction that the edit reaches, in the order of days and then of numbers, or none at the end. Each
    /// that was answered was handed to `reach`.
    pub fn next(&mut self, watchers: &Watchers) -> Option<Spot>
        ensures { (edit : Edit) (answered : List Spot) → AreWatched edit.after watchers.now
            → Walks edit answered answered self.old → Goes edit answered result self.new }
    {
        match self.nearest() {
            None => None,
            Some(spot) => {
                let at = self.past(spot);
                pass_all(watchers, spot, &mut self.changes);
                self.at = at;
                Some(spot)
            }
        }
    }

    /// Notes that the accounts of the transaction change that was answered last. `Dated` says that it has a posting on
    /// another day than its own. After an error the walk is over.
    pub fn reach(
        &mut self,
        alloc: Global,
        watchers: &Watchers,
        spot: Spot,
        txn: &Txn,
    ) -> Result<(), ReachFault>
        ensures handed { OnOk result (IsHanded watchers.now spot txn.now self.old self.new) }
        ensures plain { OnOk result (dates.is_dated txn.now ≡ false) }
        ensures dated { IfErr result (λ fault. IsCause fault (dates.is_dated txn.now ≡ true)) }
    {
        note_txn(alloc, watchers, &mut self.changes, spot, txn)?;
        Ok(())
    }
}
