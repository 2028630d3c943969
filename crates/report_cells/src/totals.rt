//! The totals of columns over the rows of a report.
ghost use Rattle.std.specs.Prelude.{◌≡◌, ◌<◌, ℕ, [], OnOk, IfOk};
ghost use Rattle.report_cells.specs.Kept.{EachFits, MergeFits, cell_at, column_of, column_totals, merged, merged_each};

use crate::cells::CellRow;
use crate::running::add_sums;
use book::Mixed;
use hl_base::{List, Memory};
use std::alloc::Global;

/// The sums of each column over all rows.
pub fn totals_of(alloc: Global, rows: &[CellRow], width: usize) -> Result<List<Mixed>, Memory>
    requires { (at : ℕ) → at < width → EachFits [] (column_of at rows.now) }
    ensures { IfOk result (λ totals. totals ≡ column_totals width rows.now) }
{
    let mut totals = Vec::new(alloc);
    for at in 0..width {
        let total = column_total(alloc, rows, at)?;
        totals.push(total)?;
    }
    Ok(List::from_vec(totals))
}

/// The sums of a column over all rows.
fn column_total(alloc: Global, rows: &[CellRow], at: usize) -> Result<Mixed, Memory>
    requires { EachFits [] (column_of at rows.now) }
    ensures { IfOk result (λ total. total ≡ merged_each [] (column_of at rows.now)) }
{
    let mut total = Mixed::new(alloc);
    for row in rows {
        add_column(alloc, &mut total, row, at)?;
    }
    Ok(total)
}

/// Adds the sums of a row's column, if there is one.
fn add_column(alloc: Global, total: &mut Mixed, row: &CellRow, at: usize) -> Result<(), Memory>
    requires { MergeFits total.old (cell_at row.now.cells at) }
    ensures { OnOk result (total.new ≡ merged total.old (cell_at row.now.cells at)) }
{
    let cells = row.cells.as_slice();
    if cells.len() <= at {
        return Ok(());
    }
    add_sums(alloc, total, &cells[at])
}
