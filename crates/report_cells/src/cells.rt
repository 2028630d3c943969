//! The sums of a report by account and column.
ghost use Rattle.std.specs.Prelude.{◌≡◌, ◌<◌, ℕ, [], None, OnOk, IfOk, IfErr, length, map};
ghost use Rattle.report_cells.specs.Faults.{IsFault};
ghost use Rattle.report_cells.specs.Follows.{Follow};
ghost use Rattle.report_cells.specs.Kept.{EachFits, FinishFits, column_of, column_totals, finished_row};
ghost use Rattle.report_cells.specs.Report.{row_seen, rows_in, seen, totals_in};
ghost use Rattle.std.specs.List.{AllByRecursion};
ghost use Rattle.report_cells.specs.Bounds.{first_out};
ghost use Rattle.report_cells.specs.declared.fault.ReportFault.TheVariants as report_fault;

use crate::account_key::AccountKey;
use crate::fault::ReportFault;
use crate::gatherer::Gatherer;
use crate::reach::Reach;
use crate::row::Row;
use crate::running::finished;
use crate::taking::Taking;
use crate::totals::totals_of;
use book::Mixed;
use hl_base::{List, Memory, Text};
use hl_time::Span;
use std::alloc::Global;
use std::collections::BTreeMap;

/// An account's sums, one for each column.
#[derive(Debug, Drop)]
pub struct CellRow {
    pub account: Text,
    pub cells: List<Mixed>,
}

/// The columns of a report, its rows in the order of their accounts, and the total of each column.
#[derive(Debug, Drop)]
pub struct Cells {
    pub columns: List<Span>,
    pub rows: List<CellRow>,
    pub totals: List<Mixed>,
}

/// The sums of takings by account and column. `Range` names the least symbol whose amounts are too large.
pub fn make_cells<'a>(
    alloc: Global,
    takings: &[Taking<'a>],
    columns: List<Span>,
    reach: Reach,
) -> Result<Cells, ReportFault>
    requires { Follow columns }
    ensures columns { IfOk result (λ c. c.columns ≡ columns) }
    ensures rows { IfOk result (λ c. map row_seen c.rows ≡ rows_in reach columns takings.now) }
    ensures totals { IfOk result (λ c. map seen c.totals ≡ totals_in reach columns takings.now) }
    ensures within { OnOk result (first_out takings.now ≡ None) }
    ensures fault { IfErr result (IsFault takings.now) }
{
    let mut gatherer = Gatherer::new(alloc, columns, reach);
    for taking in takings {
        gatherer.add(alloc, taking)?;
    }
    gatherer.finish(alloc)
}

/// The cells of a report, from the sums of its accounts. The totals are summed from the rows, since those of all accounts
/// go through zero at each entry.
pub(crate) fn cells_of<'a>(
    alloc: Global,
    rows: BTreeMap<AccountKey<'a>, Row>,
    columns: List<Span>,
    reach: Reach,
) -> Result<Cells, ReportFault>
    requires rows { AllByRecursion (λ row. FinishFits reach row.1) rows.entries }
    requires totals { (at : ℕ) → at < length columns
        → EachFits [] (column_of at (map (finished_row reach) rows.entries)) }
    ensures columns { IfOk result (λ c. c.columns ≡ columns) }
    ensures rows { IfOk result (λ c. c.rows ≡ map (finished_row reach) rows.entry.entries) }
    ensures totals { IfOk result (λ c. c.totals
        ≡ column_totals (length columns) (map (finished_row reach) rows.entry.entries)) }
    ensures fault { IfErr result (λ fault. fault ≡ report_fault.Memory) }
{
    let width = columns.len();
    let rows = cell_rows(alloc, rows, reach)?;
    let shown = rows.as_slice();
    let totals = totals_of(alloc, shown, width)?;
    Ok(Cells {
        columns,
        rows,
        totals,
    })
}

/// The rows of a report, from the sums of its accounts.
fn cell_rows<'a>(
    alloc: Global,
    rows: BTreeMap<AccountKey<'a>, Row>,
    reach: Reach,
) -> Result<List<CellRow>, Memory>
    requires { AllByRecursion (λ row. FinishFits reach row.1) rows.entries }
    ensures { IfOk result (λ cells. cells ≡ map (finished_row reach) rows.entry.entries) }
{
    let mut cells = Vec::new(alloc);
    for (key, row) in rows {
        let account = Text::copied(alloc, key.account())?;
        let sums = finished(alloc, row, reach)?;
        cells.push(CellRow {
            account,
            cells: sums,
        })?;
    }
    Ok(List::from_vec(cells))
}
