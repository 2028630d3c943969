//! The rows that stay.
ghost use Rattle.std.specs.Prelude.{◌≡◌, ◌||◌, IfOk, filter, map};
ghost use Rattle.std.specs.List.{list_any};
ghost use Rattle.report_cells.specs.Report.{row_seen, seen};
ghost use Rattle.balance_rows.specs.Rows.{has_sums, is_shown, shown_rows};

use book::Mixed;
use hl_base::{List, Memory};
use report_cells::CellRow;
use std::alloc::Global;

/// The rows that stay: those with a sum that isn't zero, or all.
pub fn shown_rows(alloc: Global, rows: List<CellRow>, empty: bool) -> Result<List<CellRow>, Memory>
    ensures { IfOk result (λ shown. map row_seen shown ≡ shown_rows empty (map row_seen rows)) }
{
    if empty {
        return Ok(rows);
    }
    let mut shown = Vec::new(alloc);
    for row in rows.into_vec() {
        if is_shown(&row) {
            shown.push(row)?;
        }
    }
    Ok(List::from_vec(shown))
}

/// Whether a row has a sum that isn't zero.
fn is_shown(row: &CellRow) -> bool
    ensures { result ≡ is_shown (row_seen row.now) }
{
    for cell in row.cells.as_slice() {
        if has_sums(cell) {
            return true;
        }
    }
    false
}

/// Whether a cell has a sum that isn't zero.
fn has_sums(cell: &Mixed) -> bool
    ensures { result ≡ has_sums (seen cell.now) }
{
    match cell.entries() {
        [] => false,
        [_, ..] => true,
    }
}
