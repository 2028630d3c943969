//! An index of rows.
ghost use Rattle.std.specs.Prelude.{◌≡◌, ◌+◌, ◌*◌, ◌^◌, ◌≤◌, ◌++◌, ◌-ℤ◌, IfOk, [], List};
ghost use Rattle.std.specs.Option.{option_copied};
ghost use Rattle.std.specs.Int.{int_wrap, w128};
ghost use Rattle.live_index.specs.Cells.{runs_in, told_by};
ghost use Rattle.live_index.specs.Runs.{before};
ghost use Rattle.live_index.specs.Rows.{TurnoverFits, node_sum};
ghost use Rattle.live_index.specs.Standing.{Preparing, standing};
ghost use Rattle.live_index.specs.Told.{IsSum};

use crate::cell::Cell;
use crate::cells::sums_of;
use crate::nodes::{Nodes, sum_of};
use crate::puts::Puts;
use crate::row::Row;
#[cfg(test)]
use crate::tree::count;
use crate::tree::{Tree, find, shared, with_all};
use hl_base::{Memory, Steps, Text};
use hl_num::Dec;
use std::alloc::Global;
use std::marker::Model;
use std::snapshot::Snapshot;
use std::sync::ledger::Ledger;

/// Sums of rows by account, symbol and day. Contracts see the rows that were put in, in turn.
#[derive(Drop)]
pub struct Index {
    alloc: Global,
    puts: Puts,
    cells: Tree,
}

impl Model for Index {
    ghost use Rattle.std.specs.Prelude.{List};
    ghost use Rattle.live_index.specs.Trees.{cells_of};
    ghost use Rattle.live_index.specs.declared.row.Row.{Row};
    ghost use Rattle.live_index.specs.Kept.{IsKept};
    ghost use Rattle.live_index.specs.Puts.{rows_put};

    ghost Value = { List Row };

    ghost view = { λ i. rows_put i.puts };

    ghost invariant = { λ i. IsKept (rows_put i.puts) (cells_of i.cells) };
}

/// Rows that were prepared for an index. Contracts see the rows that it had, and those that it will have.
#[derive(Drop)]
pub struct Prepared {
    from: Snapshot<Index>,
    puts: Puts,
    cells: Tree,
}

impl Model for Prepared {
    ghost use Rattle.live_index.specs.Trees.{cells_of};
    ghost use Rattle.live_index.specs.Standing.{Preparing};
    ghost use Rattle.live_index.specs.Kept.{IsKept};
    ghost use Rattle.live_index.specs.Puts.{rows_put};

    ghost Value = { Preparing };

    ghost view = { λ p. record { before = p.from.value; after = rows_put p.puts } };

    ghost invariant = { λ p. IsKept (rows_put p.puts) (cells_of p.cells) };
}

impl Index {
    /// An empty index.
    pub fn new(alloc: Global) -> Result<Index, Memory>
        ensures { IfOk result (λ index. index ≡ []) }
    {
        Ok(Index {
            alloc,
            puts: Puts::new(),
            cells: Tree::Leaf,
        })
    }

    /// An index of some rows.
    pub fn of(alloc: Global, rows: &[Row]) -> Result<Index, Memory>
        requires { TurnoverFits (standing rows.now) }
        ensures { IfOk result (λ index. index ≡ rows.now) }
    {
        let mut index = Index::new(alloc)?;
        let prepared = index.prepare(rows)?;
        index.put(prepared);
        Ok(index)
    }

    /// An index of the same rows. Both share what they have, so it takes the same memory however many rows there are, and
    /// what is put into one of them stays out of the other.
    pub fn copy(&self) -> Result<Index, Memory>
        ensures { IfOk result (λ copy. copy ≡ self.now) }
    {
        let cells = shared(&self.cells)?;
        Ok(Index {
            alloc: self.alloc,
            puts: self.puts.same(),
            cells,
        })
    }

    /// Takes all the memory that putting rows in takes. The index stays as it is. The rows that will stand, opposite
    /// ones cancelled, keep the bound on the turnover of each symbol.
    pub fn prepare(&mut self, rows: &[Row]) -> Result<Prepared, Memory>
        requires { TurnoverFits (standing (self.old ++ rows.now)) }
        ensures made { IfOk result (λ p. p
            ≡ record { before = self.old; after = self.old ++ rows.now }) }
        ensures stays { self.new ≡ self.old }
    {
        let sums = sums_of(self.alloc, rows)?;
        let cells = with_all(self.alloc, &self.cells, &sums)?;
        Ok(Prepared {
            from: Snapshot::of(self),
            puts: self.puts.with_all(rows),
            cells,
        })
    }

    /// Puts in rows that this index prepared after the last rows were put in. It takes no memory.
    pub fn put(&mut self, prepared: Prepared)
        requires { prepared.before ≡ self.old }
        ensures { self.new ≡ prepared.after }
    {
        let Prepared {
            from: _,
            puts,
            cells,
        } = prepared;
        self.puts = puts;
        self.cells = cells;
    }

    /// How many accounts have sums.
    #[cfg(test)]
    pub(crate) fn kept(&self) -> usize {
        count(&self.cells)
    }

    /// The sum of the rows of a node.
    fn sum(&self, account: &Text, symbol: &Text, below: bool, level: u8, at: u32) -> Dec
        requires { level ≤ 21 }
        ensures sum { IsSum (standing self.now) symbol.now
            (node_sum (standing self.now) account.now symbol.now below level at) result }
        ensures fits { TurnoverFits (standing self.now) }
    {
        let start = first_day(u64::from(at), level);
        let end = first_day(u64::from(at) + 1, level);
        let cell = find(&self.cells, account.as_bytes(), symbol, below);
        let mut sum = Dec::zero();
        for places in 0..37u8 {
            let mantissa = sum_between(cell, places, start, end);
            if mantissa != 0 {
                sum = sum_of(sum, Dec { mantissa, places });
            }
        }
        sum
    }
}

/// The first day of a node.
fn first_day(at: u64, level: u8) -> u64
    requires few { at ≤ 2 ^ 32 }
    requires level { level ≤ 21 }
    ensures { result ≡ at * 2 ^ level }
{
    at << level
}

impl Nodes for Index {
    ghost use Rattle.live_index.specs.Standing.{standing};

    ghost told = { standing };

    fn node<L: Ledger>(
        &self,
        account: &Text,
        symbol: &Text,
        below: bool,
        level: u8,
        at: u32,
        steps: &mut Steps<L>,
    ) -> Dec {
        steps.ask_node();
        self.sum(account, symbol, below, level, at)
    }
}

/// The sum of a cell's amounts with a number of decimals from a day to before another, modulo 2^128.
fn sum_between(found: Option<&Cell>, places: u8, start: u64, end: u64) -> i128
    ensures { result ≡ int_wrap w128
        (before (runs_in (told_by (option_copied found.entry)) places) end
        -ℤ before (runs_in (told_by (option_copied found.entry)) places) start) }
{
    match found {
        Some(cell) => cell.sum_between(places, start, end),
        None => 0,
    }
}
