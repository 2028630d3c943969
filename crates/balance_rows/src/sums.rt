//! Sums of cells.
ghost use Rattle.std.specs.Prelude.{◌≡◌, IfOk, OnOk, [], true};
ghost use Rattle.hl_num.specs.Decimal.{units_of};
ghost use Rattle.book.specs.Entries.{held};
ghost use Rattle.book.specs.Mixed.{added, fits_with};
ghost use Rattle.hl_num.specs.Shortest.{shortest};
ghost use Rattle.balance_rows.specs.Kept.{EachFits, added_all, all_entries};

use book::{Mixed, MixedFault};
use hl_base::{Memory, Text};
use hl_num::Dec;
use std::alloc::Global;

/// The value with no more decimals than it needs.
pub(crate) fn shortened(value: Dec) -> Dec
    ensures { result ≡ shortest (units_of value) }
{
    let _places = value.decimals();
    value.trimmed()
}

/// Adds a value to the sum of its symbol, where it fits.
fn add_entry(sums: &mut Mixed, alloc: Global, symbol: &Text, value: Dec) -> Result<(), Memory>
    requires { fits_with (held symbol.now sums.old) (shortest (units_of value)) ≡ true }
    ensures { OnOk result (sums.new ≡ added symbol.now (shortest (units_of value)) sums.old) }
{
    match sums.add(alloc, symbol, shortened(value)) {
        Ok(()) => Ok(()),
        Err(MixedFault::Memory) => Err(Memory),
        Err(MixedFault::Range { a: _, b: _ }) => unreachable!(),
    }
}

/// Adds a cell to sums, where each of its entries fits.
pub(crate) fn add_cell(alloc: Global, sums: &mut Mixed, cell: &Mixed) -> Result<(), Memory>
    requires { EachFits sums.old cell.now }
    ensures { OnOk result (sums.new ≡ added_all sums.old cell.now) }
{
    for (symbol, value) in cell.entries() {
        add_entry(sums, alloc, symbol, *value)?;
    }
    Ok(())
}

/// The sums of some cells, where their entries fit.
pub(crate) fn sum_of_cells(alloc: Global, cells: &[Mixed]) -> Result<Mixed, Memory>
    requires { EachFits [] (all_entries cells.now) }
    ensures { IfOk result (λ sums. sums ≡ added_all [] (all_entries cells.now)) }
{
    let mut sums = Mixed::new(alloc);
    for cell in cells {
        add_cell(alloc, &mut sums, cell)?;
    }
    Ok(sums)
}
