//! The watches of a book's transactions.
ghost use Rattle.std.specs.Prelude.{◌≡◌, [], IfOk, OnErr, OnOk};
ghost use Rattle.book.specs.Standing.{Numbered, with_number, without_number};
ghost use Rattle.book.specs.declared.transaction.Txn.{Txn};
ghost use Rattle.watchers.specs.Reach.{IsNextOf, reached};
ghost use Rattle.watchers.specs.Watches.{AreOf, Stands, numbered_from};

use crate::first::first_reached;
use crate::noting::{put_txn, remove_txn, watches_in_all};
use crate::watch::{Place, Watch};
use book::Txn;
use hl_base::{Memory, Text};
use shared_set::SharedSet;
use std::alloc::Global;
use std::marker::Model;

/// For each account the places of its assertions and assignments, in order. Contracts see a list of them all. A copy
/// shares them, and a change takes time and memory for a way down a tree alone.
#[derive(Drop)]
pub struct Watchers {
    watches: SharedSet<Watch>,
}

impl Model for Watchers {
    ghost use Rattle.std.specs.Prelude.{List};
    ghost use Rattle.watchers.specs.declared.watch.Watch.{Watch};

    ghost Value = { List Watch };

    ghost view = { λ w. w.watches };
}

impl Watchers {
    /// Those of the transactions of a book, each under its place in it, counted from 0.
    pub fn of(alloc: Global, txns: &[Txn]) -> Result<Watchers, Memory>
        ensures { IfOk result (AreOf (numbered_from 0 txns.now)) }
    {
        Ok(Watchers {
            watches: watches_in_all(alloc, txns)?,
        })
    }

    /// The same, shared.
    pub fn copy(&self) -> Result<Watchers, Memory>
        ensures { IfOk result (λ copy. copy ≡ self.now) }
    {
        Ok(Watchers {
            watches: self.watches.copy()?,
        })
    }

    /// Puts in those of a transaction that balancing answered, under a number. After an error they are as before.
    pub fn add(&mut self, alloc: Global, number: u64, txn: &Txn) -> Result<(), Memory>
        ensures ok { OnOk result ((standing : Numbered Txn) → AreOf standing self.old
            → AreOf (with_number number txn.now standing) self.new) }
        ensures err { OnErr result (self.new ≡ self.old) }
    {
        let mut watches = self.watches.copy()?;
        put_txn(alloc, &mut watches, number, txn)?;
        self.watches = watches;
        Ok(())
    }

    /// Takes out those of the transaction that stands under a number. After an error they are as before.
    pub fn remove(&mut self, alloc: Global, number: u64, txn: &Txn) -> Result<(), Memory>
        ensures ok { OnOk result ((standing : Numbered Txn) → AreOf standing self.old
            → Stands number txn.now standing → AreOf (without_number number standing) self.new) }
        ensures err { OnErr result (self.new ≡ self.old) }
    {
        let mut watches = self.watches.copy()?;
        remove_txn(alloc, &mut watches, number, txn)?;
        self.watches = watches;
        Ok(())
    }

    /// The first place after one at which a change of an account's balance is asked for: of the postings after it that
    /// have an assertion on the account, or one that counts subaccounts on an account above it.
    pub fn next(&self, account: &Text, after: Place) -> Option<Place>
        ensures { (standing : Numbered Txn) → AreOf standing self.now
            → IsNextOf (reached standing account.now after) result }
    {
        first_reached(&self.watches, account.as_bytes(), after)
    }
}
