//! The goals of a budget.
ghost use Rattle.std.specs.Prelude.{◌≡◌, ◌<◌, [], ℕ, List, None, Some, IfOk, OnOk, true, false, length, map, if◌then◌else◌};
ghost use Rattle.std.specs.List.{AllByRecursion};
ghost use Rattle.report_cells.specs.Report.{row_seen, seen};
ghost use Rattle.balance_rows.specs.Fitting.{Fit, RowFits};
ghost use Rattle.balance_layouts.specs.Averages.{least_with};
ghost use Rattle.balance_layouts.specs.TableRows.{named_seen, seen_totals};
ghost use Rattle.balance_layouts.specs.Totals.{TotalsFit, rows_out, table_row, totals_out, with_total};
ghost use Rattle.budget_layout.specs.Grouped.{cells_at};
ghost use Rattle.budget_layout.specs.Lined.{goals_in};
ghost use Rattle.budget_layout.specs.OnPage.{layout_on, style_on};

use crate::page::Page;
use crate::places::Places;
use balance_layouts::{table_rows, table_totals};
use book::Mixed;
use hl_base::{List, Memory, Text};
use report_cells::CellRow;
use std::alloc::Global;

/// The goals of accounts by their places, and their totals, if they are shown.
#[derive(Drop)]
pub(crate) struct GoalCells {
    pub places: Places,
    pub cells: List<(Text, List<Mixed>)>,
    pub totals: Option<List<Mixed>>,
}

/// The cells of the row at a place, if there is one.
fn cells_at(rows: &[(Text, List<Mixed>)], place: Option<usize>) -> &[Mixed]
    ensures { map seen result.now ≡ cells_at place (map named_seen rows.now) }
{
    match place {
        Some(at) => row_cells(rows, at),
        None => &[],
    }
}

/// The cells of the row at an index, if there is one.
fn row_cells(rows: &[(Text, List<Mixed>)], at: usize) -> &[Mixed]
    ensures { map seen result.now ≡ cells_at (Some at) (map named_seen rows.now) }
{
    match rows.get(at) {
        Some(row) => row.1.as_slice(),
        None => &[],
    }
}

impl GoalCells {
    /// No goals, which take no memory.
    pub fn none(alloc: Global) -> GoalCells
        ensures { (account : List ℕ) → goals_in result account ≡ [] }
    {
        GoalCells {
            places: Places::none(alloc),
            cells: List::new(alloc),
            totals: None,
        }
    }

    /// The goals of an account, with their total and average where these are asked for.
    pub fn of(&self, account: &str) -> &[Mixed]
        ensures { map seen result.now ≡ goals_in self.now account.now }
    {
        cells_at(self.cells.as_slice(), self.places.place(account))
    }
}

/// The goals with their totals and averages, where these are asked for. Of the symbols in which an average can't be
/// told and the one that is kept already, the least is kept.
pub(crate) fn wide_goals(
    alloc: Global,
    page: &Page,
    places: Places,
    rows: List<CellRow>,
    totals: List<Mixed>,
    least: &mut Option<Text>,
) -> Result<GoalCells, Memory>
    requires some { 0 < page.now.columns }
    requires fits { TotalsFit (layout_on page.now) (map row_seen rows) (map seen totals) }
    ensures places { IfOk result (λ goals. goals.places ≡ places) }
    ensures cells { IfOk result (λ goals. map named_seen goals.cells
        ≡ map (table_row (layout_on page.now) page.now.columns (style_on page.now))
        (map row_seen rows)) }
    ensures totals { IfOk result (λ goals. seen_totals goals.totals
        ≡ (if (layout_on page.now).no_total then None
        else Some (with_total (layout_on page.now) page.now.columns (style_on page.now)
        (map seen totals)))) }
    ensures least { OnOk result (least.new ≡ least_with (least_with least.old
        (rows_out (layout_on page.now) page.now.columns (style_on page.now) (map row_seen rows)))
        (totals_out (layout_on page.now) page.now.columns (style_on page.now) (map seen totals))) }
{
    let columns = page.columns as u64;
    let cells = table_rows(alloc, rows, page.layout, columns, page.styles, least)?;
    let totals = table_totals(alloc, totals, page.layout, columns, page.styles, least)?;
    Ok(GoalCells {
        places,
        cells,
        totals,
    })
}
