//! The text of a balance report.
ghost use Rattle.std.specs.Prelude.{◌≡◌, ◌<◌, None, IfOk, IfErr, OnOk, length, map};
ghost use Rattle.book.specs.Styles.{style_in};
ghost use Rattle.report_cells.specs.Report.{row_seen, seen};
ghost use Rattle.balance_layouts.specs.Balance.{CellsFit, IsFault, balance_text, out_of_range};

use crate::list::list_text;
use crate::table::table_text;
use balance_rows::{Layout, laid_rows};
use book::Styles;
use hl_base::Bytes;
use report_cells::{Cells, ReportFault};
use std::alloc::Global;

/// The text of a balance report: without an interval a list, with one a table of its columns. Rows whose cells are all
/// zero are left out unless they are asked for, and the others stand by their accounts, by their amounts, or as a tree.
/// `Range` names the least symbol in which an average can't be told.
pub fn balance_text(
    alloc: Global,
    cells: Cells,
    layout: &Layout,
    styles: &Styles,
) -> Result<Bytes, ReportFault>
    requires some { 0 < length cells.columns }
    requires fits { CellsFit layout.now (length cells.columns) (map row_seen cells.rows)
        (map seen cells.totals) }
    ensures text { IfOk result (λ text. text ≡ balance_text layout.now (style_in styles.now)
        cells.columns (map row_seen cells.rows) (map seen cells.totals)) }
    ensures told { OnOk result (out_of_range layout.now (length cells.columns) (style_in styles.now)
        (map row_seen cells.rows) (map seen cells.totals) ≡ None) }
    ensures fault { IfErr result (IsFault
        (out_of_range layout.now (length cells.columns) (style_in styles.now)
        (map row_seen cells.rows) (map seen cells.totals))) }
{
    let Cells {
        columns,
        rows,
        totals,
    } = cells;
    let rows = laid_rows(alloc, rows, columns.len(), layout)?;
    if layout.table {
        return table_text(alloc, columns.as_slice(), rows, totals, layout, styles);
    }
    Ok(list_text(alloc, rows.as_slice(), totals.as_slice(), layout, styles)?)
}
