//! The rows of a report in their order.
ghost use Rattle.std.specs.Prelude.{◌≡◌, IfOk, map};
ghost use Rattle.report_cells.specs.Report.{row_seen};
ghost use Rattle.balance_rows.specs.Fitting.{OrderFits};
ghost use Rattle.balance_rows.specs.Layouts.{laid_rows};

use crate::layout::{Layout, Order};
use crate::rows::shown_rows;
use crate::sorted::sorted_rows;
use crate::tree::tree_rows;
use hl_base::{List, Memory};
use report_cells::CellRow;
use std::alloc::Global;

/// The rows that stay, in their order.
pub fn laid_rows(
    alloc: Global,
    rows: List<CellRow>,
    columns: usize,
    layout: &Layout,
) -> Result<List<CellRow>, Memory>
    requires { OrderFits layout.now.order layout.now.basis (map row_seen rows) }
    ensures { IfOk result (λ laid. map row_seen laid
        ≡ laid_rows layout.now columns (map row_seen rows)) }
{
    let shown = shown_rows(alloc, rows, layout.empty)?;
    match layout.order {
        Order::Accounts => Ok(shown),
        Order::Amounts => sorted_rows(alloc, shown, layout.basis),
        Order::Tree => tree_rows(alloc, shown.as_slice(), columns),
    }
}
