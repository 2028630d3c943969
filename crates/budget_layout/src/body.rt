//! The lines of a budget below its heads.
ghost use Rattle.std.specs.Prelude.{◌≡◌, ◌<◌, ◌++◌, ◌∷◌, [], true, None, IfOk, IfErr, OnOk, OnSome, map};
ghost use Rattle.std.specs.List.{AllByRecursion};
ghost use Rattle.report_cells.specs.Report.{row_seen, seen};
ghost use Rattle.balance_rows.specs.Fitting.{Fit, RowFits};
ghost use Rattle.balance_rows.specs.Sums.{entries_of};
ghost use Rattle.balance_layouts.specs.Averages.{least, least_with};
ghost use Rattle.balance_layouts.specs.Balance.{IsFault};
ghost use Rattle.balance_layouts.specs.TableRows.{seen_totals};
ghost use Rattle.balance_layouts.specs.Totals.{TotalsFit, asks_totals};
ghost use Rattle.budget_layout.specs.Fits.{CellsFit};
ghost use Rattle.budget_layout.specs.Lined.{goals_in};
ghost use Rattle.budget_layout.specs.OnPage.{layout_on};
ghost use Rattle.budget_layout.specs.RowsFit.{LinesFit};
ghost use Rattle.budget_layout.specs.Shown.{body_on, body_out_on, last_on, last_out_on, line_on, line_out_on, lines_on, outs_on};
ghost use Rattle.budget_layout.specs.Told.{told_by};

use crate::beside::beside;
use crate::goals::{GoalCells, wide_goals};
use crate::page::Page;
use crate::places::Places;
use crate::rows::{Rows, budget_rows};
use balance_layouts::{check_averages, with_total};
use book::Mixed;
use hl_base::{List, Memory, Text};
use report_cells::{CellRow, Cells, ReportFault};
use report_table::{Printed, THIN, TableLine};
use std::alloc::Global;

/// The line of a row beside its goals. Of the symbols in which an average or a percentage can't be told and the one that
/// is kept already, the least is kept.
fn budget_line(
    alloc: Global,
    page: &Page,
    row: CellRow,
    goals: &[Mixed],
    least: &mut Option<Text>,
) -> Result<TableLine, Memory>
    requires some { 0 < page.now.columns }
    requires fits { asks_totals (layout_on page.now) ≡ true → RowFits (row_seen row) }
    ensures line { IfOk result (λ line. line
        ≡ line_on page.now (row_seen row) (map seen goals.now)) }
    ensures least { OnOk result (least.new
        ≡ least_with least.old (line_out_on page.now (row_seen row) (map seen goals.now))) }
{
    let CellRow { account, cells } = row;
    let columns = page.columns as u64;
    let cells = with_total(alloc, cells, page.layout, columns, page.styles, least)?;
    let texts = beside(alloc, cells.as_slice(), goals, page.styles, least)?;
    Ok(TableLine::Row(Printed::new(account), texts))
}

/// Appends the line of a row beside its goals.
fn push_row(
    alloc: Global,
    page: &Page,
    lines: &mut Vec<TableLine>,
    row: CellRow,
    goals: &[Mixed],
    least: &mut Option<Text>,
) -> Result<(), Memory>
    requires some { 0 < page.now.columns }
    requires fits { asks_totals (layout_on page.now) ≡ true → RowFits (row_seen row) }
    ensures lines { OnOk result (lines.new.items ≡ lines.old.items
        ++ line_on page.now (row_seen row) (map seen goals.now) ∷ []) }
    ensures least { OnOk result (least.new
        ≡ least_with least.old (line_out_on page.now (row_seen row) (map seen goals.now))) }
{
    let line = budget_line(alloc, page, row, goals, least)?;
    lines.push(line)?;
    Ok(())
}

/// Appends the lines of rows, each beside the goals of its account.
fn push_rows(
    alloc: Global,
    page: &Page,
    lines: &mut Vec<TableLine>,
    rows: List<CellRow>,
    goals: &GoalCells,
    least: &mut Option<Text>,
) -> Result<(), Memory>
    requires some { 0 < page.now.columns }
    requires fits { asks_totals (layout_on page.now) ≡ true
        → AllByRecursion RowFits (map row_seen rows) }
    ensures lines { OnOk result (lines.new.items ≡ lines.old.items
        ++ lines_on page.now (goals_in goals.now) (map row_seen rows)) }
    ensures least { OnOk result (least.new
        ≡ least_with least.old (outs_on page.now (goals_in goals.now) (map row_seen rows))) }
{
    for row in rows.into_vec() {
        push_beside(alloc, page, lines, row, goals, least)?;
    }
    Ok(())
}

/// Appends the line of a row beside the goals of its account.
fn push_beside(
    alloc: Global,
    page: &Page,
    lines: &mut Vec<TableLine>,
    row: CellRow,
    goals: &GoalCells,
    least: &mut Option<Text>,
) -> Result<(), Memory>
    requires some { 0 < page.now.columns }
    requires fits { asks_totals (layout_on page.now) ≡ true → RowFits (row_seen row) }
    ensures lines { OnOk result (lines.new.items ≡ lines.old.items
        ++ line_on page.now (row_seen row) (goals_in goals.now row.account) ∷ []) }
    ensures least { OnOk result (least.new
        ≡ least_with least.old
        (line_out_on page.now (row_seen row) (goals_in goals.now row.account))) }
{
    let own = goals.of(row.account.as_str());
    push_row(alloc, page, lines, row, own, least)
}

/// Appends the totals below a rule, beside those of their goals, where these are shown.
fn push_totals(
    alloc: Global,
    page: &Page,
    lines: &mut Vec<TableLine>,
    totals: List<Mixed>,
    goals: &Option<List<Mixed>>,
    least: &mut Option<Text>,
) -> Result<(), Memory>
    requires some { 0 < page.now.columns }
    requires fits { asks_totals (layout_on page.now) ≡ true
        → OnSome (seen_totals goals.now) (Fit (entries_of (map seen totals))) }
    ensures lines { OnOk result (lines.new.items ≡ lines.old.items
        ++ last_on page.now (map seen totals) (seen_totals goals.now)) }
    ensures least { OnOk result (least.new
        ≡ least_with least.old (last_out_on page.now (map seen totals) (seen_totals goals.now))) }
{
    match goals {
        Some(goals) => push_shown(alloc, page, lines, totals, goals.as_slice(), least),
        None => Ok(()),
    }
}

/// Appends totals below a rule, beside those of their goals.
fn push_shown(
    alloc: Global,
    page: &Page,
    lines: &mut Vec<TableLine>,
    totals: List<Mixed>,
    goals: &[Mixed],
    least: &mut Option<Text>,
) -> Result<(), Memory>
    requires some { 0 < page.now.columns }
    requires fits { asks_totals (layout_on page.now) ≡ true → Fit (entries_of (map seen totals)) }
    ensures lines { OnOk result (lines.new.items ≡ lines.old.items
        ++ last_on page.now (map seen totals) (Some (map seen goals.now))) }
    ensures least { OnOk result (least.new
        ≡ least_with least.old
        (last_out_on page.now (map seen totals) (Some (map seen goals.now)))) }
{
    let row = CellRow {
        account: Text::new(alloc),
        cells: totals,
    };
    lines.push(TableLine::Rule(THIN))?;
    push_row(alloc, page, lines, row, goals, least)?;
    Ok(())
}

/// Appends all lines of rows and totals. Of the symbols in which an average or a percentage can't be told and the one
/// that is kept already, the least is kept.
fn push_lines(
    alloc: Global,
    page: &Page,
    lines: &mut Vec<TableLine>,
    actual: Rows,
    goals: &GoalCells,
    least: &mut Option<Text>,
) -> Result<(), Memory>
    requires some { 0 < page.now.columns }
    requires fits { LinesFit (layout_on page.now) (map row_seen actual.rows)
        (map row_seen actual.rest)
        (map seen actual.totals) (seen_totals goals.now.totals) }
    ensures lines { OnOk result (lines.new.items ≡ lines.old.items
        ++ (lines_on page.now (goals_in goals.now) (map row_seen actual.rows)
        ++ lines_on page.now (λ account. []) (map row_seen actual.rest)
        ++ last_on page.now (map seen actual.totals) (seen_totals goals.now.totals))) }
    ensures least { OnOk result (least.new ≡ least_with least.old
        (outs_on page.now (goals_in goals.now) (map row_seen actual.rows)
        ++ outs_on page.now (λ account. []) (map row_seen actual.rest)
        ++ last_out_on page.now (map seen actual.totals) (seen_totals goals.now.totals))) }
{
    let Rows { rows, rest, totals } = actual;
    let none = GoalCells::none(alloc);
    push_rows(alloc, page, lines, rows, goals, least)?;
    push_rows(alloc, page, lines, rest, &none, least)?;
    push_totals(alloc, page, lines, totals, &goals.totals, least)?;
    Ok(())
}

/// Appends the lines of a budget below its heads. `Range` names the least symbol in which an average or a percentage
/// can't be told.
pub(crate) fn push_body(
    alloc: Global,
    page: &Page,
    lines: &mut Vec<TableLine>,
    cells: Cells,
    goals: Cells,
) -> Result<(), ReportFault>
    requires some { 0 < page.now.columns }
    requires fits { CellsFit (layout_on page.now) (told_by cells) }
    requires goals_fit { TotalsFit (layout_on page.now) (map row_seen goals.rows)
        (map seen goals.totals) }
    ensures lines { OnOk result (lines.new.items ≡ lines.old.items
        ++ body_on page.now (told_by cells) (told_by goals)) }
    ensures told { OnOk result (least (body_out_on page.now (told_by cells) (told_by goals))
        ≡ None) }
    ensures fault { IfErr result (IsFault
        (least (body_out_on page.now (told_by cells) (told_by goals)))) }
{
    let Cells {
        columns: _columns,
        rows,
        totals,
    } = cells;
    let Cells {
        columns: _spans,
        rows: goal_rows,
        totals: goal_totals,
    } = goals;
    let places = Places::new(alloc, goal_rows.as_slice())?;
    let actual = budget_rows(alloc, page, &places, goal_rows.as_slice(), rows, totals)?;
    let mut least = None;
    let wide = wide_goals(alloc, page, places, goal_rows, goal_totals, &mut least)?;
    push_lines(alloc, page, lines, actual, &wide, &mut least)?;
    check_averages(least)?;
    Ok(())
}
