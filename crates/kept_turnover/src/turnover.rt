//! What a book moves.
ghost use Rattle.std.specs.Prelude.{◌≡◌, [], List, true, OnOk, IfOk};
ghost use Rattle.book.specs.Postings.{postings_of};
ghost use Rattle.entry_balance.specs.Entry.{costs_fit, moved};
ghost use Rattle.entry_balance.specs.Tally.{turnover_fits};
ghost use Rattle.entry_balance.specs.Values.{Value};
ghost use Rattle.kept_turnover.specs.Keeping.{Gains, IsTurnover, Loses, Replaces, Stays, are_told};

use crate::postings::{Symbols, add_postings, all_fit, take_postings};
use book::Txn;
use entry_balance::costs_fit;
use hl_base::Memory;
use std::alloc::Global;
use std::collections::BTreeMap;

/// What a book moves: for each symbol and number of decimals how many amounts there are, and the sum of their mantissas
/// without signs, exact however large it is. Costs count too. The order in which transactions were put in doesn't matter.
#[derive(Drop)]
pub struct Turnover {
    symbols: Symbols,
}

/// Whether all costs of some transactions can be told.
pub fn are_told(txns: &[Txn]) -> bool
    ensures { result ≡ are_told txns.now }
{
    for txn in txns {
        if !costs_fit(txn.postings.as_slice()) {
            return false;
        }
    }
    true
}

impl Turnover {
    /// That of no transactions, which takes no memory.
    pub fn new(alloc: Global) -> Turnover
        ensures { IsTurnover result [] }
    {
        Turnover {
            symbols: BTreeMap::new(alloc),
        }
    }

    /// That of some transactions whose costs can be told.
    pub fn of(alloc: Global, txns: &[Txn]) -> Result<Turnover, Memory>
        requires { are_told txns.now ≡ true }
        ensures { IfOk result (λ t. IsTurnover t (moved (postings_of txns.now))) }
    {
        let mut turnover = Turnover::new(alloc);
        for txn in txns {
            turnover.add(alloc, txn)?;
        }
        Ok(turnover)
    }

    /// Takes in a transaction whose costs can be told. Want of memory is also the answer where there would be 2^64 amounts of
    /// a symbol with one number of decimals. After it this is no turnover any more.
    pub fn add(&mut self, alloc: Global, txn: &Txn) -> Result<(), Memory>
        requires { costs_fit txn.now.postings ≡ true }
        ensures { OnOk result (Gains self.old.symbols self.new.symbols (moved txn.now.postings)) }
    {
        add_postings(alloc, &mut self.symbols, txn.postings.as_slice())
    }

    /// Takes off a transaction that was taken in.
    pub fn remove(&mut self, txn: &Txn)
        requires { costs_fit txn.now.postings ≡ true }
        ensures { Loses self.old.symbols self.new.symbols (moved txn.now.postings) }
    {
        take_postings(&mut self.symbols, txn.postings.as_slice());
    }

    /// Puts one form of a transaction in the place of another.
    pub fn replace(&mut self, alloc: Global, old: &Txn, new: &Txn) -> Result<(), Memory>
        requires old { costs_fit old.now.postings ≡ true }
        requires new { costs_fit new.now.postings ≡ true }
        ensures { OnOk result (Replaces old.now new.now self.old self.new) }
    {
        self.remove(old);
        self.add(alloc, new)
    }

    /// A copy.
    pub fn copied(&self) -> Result<Turnover, Memory>
        ensures { IfOk result (Stays self.now) }
    {
        Ok(Turnover {
            symbols: self.symbols.clone()?,
        })
    }

    /// Whether in each symbol what is moved sums to less than 2^127, in units of the greatest number of decimals.
    pub fn fits(&self) -> bool
        ensures { (values : List Value) → IsTurnover self.now values
            → result ≡ turnover_fits values }
    {
        let _symbols = self.symbols.len();
        all_fit(&self.symbols)
    }
}
