//! The sums of an account while takings are read.
ghost use Rattle.std.specs.Prelude.{◌≡◌, OnOk, IfOk, replicate, []};
ghost use Rattle.report_cells.specs.Kept.{ShareFits, PlacedFits, with_share, with_placed};

use crate::taking::Share;
use book::{Mixed, MixedFault};
use hl_base::Memory;
use std::alloc::Global;
use std::marker::Model;

/// The sums of each column. Contracts see a list of them.
#[derive(Drop)]
pub(crate) struct Row {
    cells: Vec<Mixed>,
}

impl Model for Row {
    ghost use Rattle.std.specs.Prelude.{List, ℕ};
    ghost use Rattle.hl_num.specs.Decimal.{Decimal};

    ghost Value = { List (List (List ℕ × Decimal)) };

    ghost view = { λ r. r.cells.items };
}

impl Row {
    /// So many columns without sums.
    pub(crate) fn empty(alloc: Global, width: usize) -> Result<Row, Memory>
        ensures { IfOk result (λ row. row ≡ replicate width []) }
    {
        let mut cells = Vec::new(alloc);
        for _column in 0..width {
            cells.push(Mixed::new(alloc))?;
        }
        Ok(Row { cells })
    }

    /// The sums of each column, without a copy.
    pub(crate) fn into_cells(self) -> Vec<Mixed>
        ensures { result.items ≡ self }
    {
        self.cells
    }

    /// Adds an amount, if it is there, to the sums of a column, if there is one.
    pub(crate) fn add(
        &mut self,
        alloc: Global,
        place: Option<usize>,
        amount: &Option<Share>,
    ) -> Result<(), Memory>
        requires { PlacedFits place amount.now self.old }
        ensures { OnOk result (self.new ≡ with_placed place amount.now self.old) }
    {
        match place {
            Some(at) => add_share(alloc, &mut self.cells[at], amount),
            None => Ok(()),
        }
    }
}

/// Adds an amount, if it is there, to sums with which it stays within bounds. Fails only for want of memory.
pub fn add_share(alloc: Global, sums: &mut Mixed, amount: &Option<Share>) -> Result<(), Memory>
    requires { ShareFits amount.now sums.old }
    ensures { OnOk result (sums.new ≡ with_share amount.now sums.old) }
{
    match amount {
        Some(share) => match sums.add(alloc, share.symbol, share.value) {
            Ok(()) => Ok(()),
            Err(MixedFault::Memory) => Err(Memory),
            Err(MixedFault::Range { a: _, b: _ }) => unreachable!(),
        },
        None => Ok(()),
    }
}
