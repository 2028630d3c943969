//! The balance list.
ghost use Rattle.std.specs.Prelude.{◌≡◌, IfOk, map};
ghost use Rattle.std.specs.List.{flat_map};
ghost use Rattle.book.specs.Styles.{style_in};
ghost use Rattle.report_cells.specs.Report.{row_seen, seen};
ghost use Rattle.report_table.specs.Cells.{widest};
ghost use Rattle.balance_layouts.specs.Lists.{balance_list, least_columns, list_above};
ghost use Rattle.balance_layouts.specs.Shown.{row_lines};

use crate::lines::{push_end, push_rows};
use crate::printed::{printed_cell, widest_amount};
use crate::shown::{Shown, printed_rows, widest_row};
use balance_rows::Layout;
use book::{Mixed, Styles};
use hl_base::{Bytes, Memory};
use report_cells::CellRow;
use report_table::Printed;
use std::alloc::Global;

/// The least number of columns of the amounts.
const LEAST_COLUMNS: usize = 20;

/// The balance list of rows that stand in their order, and of their total: a line for each amount of each row, right
/// aligned in 20 columns or as many as the widest amount takes, the last one followed by two spaces and the row's name;
/// then as many dashes, and the total's amounts in the same way. Without its total a list has neither dashes nor total,
/// and is as wide as its rows' amounts.
pub fn list_text(
    alloc: Global,
    rows: &[CellRow],
    totals: &[Mixed],
    layout: &Layout,
    styles: &Styles,
) -> Result<Bytes, Memory>
    ensures { IfOk result (λ text. text ≡ balance_list layout.now (style_in styles.now)
        (map row_seen rows.now) (map seen totals.now)) }
{
    let shown = printed_rows(alloc, rows, layout.order, styles)?;
    if layout.no_total {
        return rows_alone(alloc, shown.as_slice());
    }
    let total = printed_cell(alloc, totals, styles)?;
    rows_above(alloc, shown.as_slice(), total.as_slice())
}

/// The lines of printed rows.
fn rows_alone(alloc: Global, rows: &[Shown]) -> Result<Bytes, Memory>
    ensures { IfOk result (λ text. text
        ≡ flat_map (row_lines (widest least_columns (flat_map (λ row. row.1) rows.now))) rows.now) }
{
    let mut out = Vec::new(alloc);
    push_rows(alloc, &mut out, widest_row(LEAST_COLUMNS, rows), rows)?;
    Ok(Bytes::from_vec(out))
}

/// The lines of printed rows, dashes, and the lines of a total.
fn rows_above(alloc: Global, rows: &[Shown], total: &[Printed]) -> Result<Bytes, Memory>
    ensures { IfOk result (λ text. text ≡ list_above
        (widest (widest least_columns total.now) (flat_map (λ row.
        row.1) rows.now)) rows.now total.now) }
{
    let columns = widest_row(widest_amount(LEAST_COLUMNS, total), rows);
    let mut out = Vec::new(alloc);
    push_rows(alloc, &mut out, columns, rows)?;
    push_end(alloc, &mut out, columns, total)?;
    Ok(Bytes::from_vec(out))
}
