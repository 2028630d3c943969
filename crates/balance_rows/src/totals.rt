//! Totals of rows.
ghost use Rattle.std.specs.Prelude.{◌≡◌, IfOk, map};
ghost use Rattle.report_cells.specs.Report.{row_seen, seen};
ghost use Rattle.balance_rows.specs.Fitting.{ColumnsFit, Fit};
ghost use Rattle.balance_rows.specs.Sums.{entries_of, summed};
ghost use Rattle.balance_rows.specs.Trees.{column_sums, roots, tree};

use crate::groups::all_given;
use crate::sums::sum_of_cells;
use crate::tree::sums_of;
use book::Mixed;
use hl_base::{List, Memory};
use report_cells::CellRow;
use std::alloc::Global;

/// The sums of some cells, as the total of a row, where they can be summed.
pub fn total_of(alloc: Global, cells: &[Mixed]) -> Result<Mixed, Memory>
    requires { Fit (entries_of (map seen cells.now)) }
    ensures { IfOk result (λ total. seen total ≡ summed (map seen cells.now)) }
{
    let total = sum_of_cells(alloc, cells)?;
    Ok(total)
}

/// The totals of some rows: the sums of each column, as those of a tree's rows that have no parent.
pub fn totals_of(alloc: Global, rows: &[CellRow], columns: usize) -> Result<List<Mixed>, Memory>
    requires { ColumnsFit (map row_seen rows.now) }
    ensures flat { IfOk result (λ totals.
        map seen totals ≡ column_sums columns (map row_seen rows.now)) }
    ensures tree { IfOk result (λ totals. map seen totals
        ≡ column_sums columns (roots (tree columns (map row_seen rows.now)))) }
{
    let given = all_given(alloc, rows)?;
    let totals = sums_of(alloc, given.as_slice(), columns)?;
    Ok(totals)
}
