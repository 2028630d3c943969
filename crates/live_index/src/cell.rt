//! The sums of an account in a symbol.
ghost use Rattle.std.specs.Prelude.{◌≡◌, ◌-ℤ◌, [], IfOk};
ghost use Rattle.std.specs.Arc.{arc_value};
ghost use Rattle.std.specs.Bool.{OnTrue, OnFalse};
ghost use Rattle.std.specs.Int.{int_wrap, w128};
ghost use Rattle.live_index.specs.Runs.{before};
ghost use Rattle.live_index.specs.Cells.{key_cmp, runs_in, AreSummed, HasDays};

use crate::by_places::ByPlaces;
use hl_base::{Bytes, Memory, Text};
use std::alloc::Global;
use std::cmp::Ordering;
use std::marker::Model;
use std::sync::Arc;

/// Sums by day of an account's own rows in a symbol, or with `below` of its subaccounts' too. Cells of the same rows
/// share them. Contracts see the key and the sums.
#[derive(Drop)]
pub(crate) struct Cell {
    account: Bytes,
    symbol: Text,
    below: bool,
    sums: Arc<ByPlaces>,
}

impl Model for Cell {
    ghost use Rattle.std.specs.Arc.{arc_value};
    ghost use Rattle.live_index.specs.Cells.{Cell as CellValue};

    ghost Value = { CellValue };

    ghost view = { λ c. (record { account = c.account; symbol = c.symbol; below = c.below }, arc_value c.sums) };
}

impl Cell {
    /// Sums under a key.
    pub(crate) fn of(
        alloc: Global,
        account: &[u8],
        symbol: &Text,
        below: bool,
        sums: &Arc<ByPlaces>,
    ) -> Result<Cell, Memory>
        ensures key { IfOk result (λ cell. cell.0
            ≡ record { account = account.now; symbol = symbol.now; below = below }) }
        ensures sums { IfOk result (λ cell. cell.1 ≡ arc_value sums.now) }
    {
        Ok(Cell {
            account: Bytes::copied(alloc, account)?,
            symbol: Text::copied(alloc, symbol.as_str())?,
            below,
            sums: Arc::try_clone(sums)?,
        })
    }

    /// The sums of this cell and another, under this cell's key.
    pub(crate) fn plus(&self, alloc: Global, other: &Cell) -> Result<Cell, Memory>
        ensures key { IfOk result (λ both. both.0 ≡ self.now.0) }
        ensures sums { IfOk result (λ both. AreSummed self.now.1 other.now.1 both.1) }
    {
        let sums = self.sums.plus(alloc, &other.sums)?;
        Ok(Cell {
            account: Bytes::copied(alloc, self.account.as_slice())?,
            symbol: Text::copied(alloc, self.symbol.as_str())?,
            below: self.below,
            sums: Arc::new(alloc, sums)?,
        })
    }

    /// Whether sums are left.
    pub(crate) fn has_days(&self) -> bool
        ensures some { OnTrue result (HasDays self.now.1) }
        ensures none { OnFalse result (self.now.1 ≡ []) }
    {
        self.sums.has_days()
    }

    /// How the key compares with another: by account, then by symbol, then by `below`.
    pub(crate) fn compare(&self, account: &[u8], symbol: &Text, below: bool) -> Ordering
        ensures { result ≡ key_cmp self.now.0
            (record { account = account.now; symbol = symbol.now; below = below }) }
    {
        match self.account.as_slice().cmp(account) {
            Ordering::Equal => match self.symbol.as_str().cmp(symbol.as_str()) {
                Ordering::Equal => self.below.cmp(&below),
                other => other,
            },
            other => other,
        }
    }

    /// How the key compares with that of another cell.
    pub(crate) fn compare_with(&self, other: &Cell) -> Ordering
        ensures { result ≡ key_cmp self.now.0 other.now.0 }
    {
        self.compare(other.account.as_slice(), &other.symbol, other.below)
    }

    /// The sum of the amounts with a number of decimals from a day to before another, modulo 2^128.
    pub(crate) fn sum_between(&self, places: u8, start: u64, end: u64) -> i128
        ensures { result ≡ int_wrap w128
            (before (runs_in self.now.1 places) end -ℤ before (runs_in self.now.1 places) start) }
    {
        self.sums.sum_between(places, start, end)
    }
}
