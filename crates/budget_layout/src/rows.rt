//! The rows of a budget: one for each account with goals, and one of what counts for none.
ghost use Rattle.std.specs.Prelude.{◌≡◌, ◌∷◌, [], false, ℕ, List, IfOk, codes, length, map};
ghost use Rattle.std.specs.List.{AllByRecursion};
ghost use Rattle.report_cells.specs.Report.{row_seen};
ghost use Rattle.balance_rows.specs.declared.layout.Basis.TheVariants.{Changes};
ghost use Rattle.balance_rows.specs.Fitting.{ColumnsFit, RowFits};
ghost use Rattle.balance_rows.specs.Rows.{shown_rows};
ghost use Rattle.balance_rows.specs.Trees.{column_sums};
ghost use Rattle.budget_layout.specs.Counted.{goal_rows, ordered, rest_rows};
ghost use Rattle.budget_layout.specs.Grouped.{names_of, place_from, rows_at};
ghost use Rattle.budget_layout.specs.OnPage.{layout_on};
ghost use Rattle.budget_layout.specs.Placed.{place_in};
ghost use Rattle.budget_layout.specs.RowsFit.{RowsFit};

use crate::groups::{Group, Groups, grouped, rows_at};
use crate::page::Page;
use crate::places::Places;
use balance_rows::{Layout, Order, shown_rows, sorted_rows, totals_of};
use book::Mixed;
use hl_base::{List, Memory, Text};
use report_cells::CellRow;
use std::alloc::Global;

/// A name with the sums of some rows.
fn summed_row(
    alloc: Global,
    name: &str,
    rows: &[CellRow],
    columns: usize,
) -> Result<CellRow, Memory>
    requires { ColumnsFit (map row_seen rows.now) }
    ensures { IfOk result (λ row.
        row_seen row ≡ (name.now, column_sums columns (map row_seen rows.now))) }
{
    let account = Text::copied(alloc, name)?;
    let cells = totals_of(alloc, rows, columns)?;
    Ok(CellRow { account, cells })
}

/// The row of an account with goals: the sums of what counts for it.
fn goal_row(
    alloc: Global,
    account: &str,
    places: &Places,
    groups: &[Group],
    columns: usize,
) -> Result<CellRow, Memory>
    requires { ColumnsFit (map row_seen (rows_at (place_in places.now account.now) groups.now)) }
    ensures { IfOk result (λ row. row_seen row ≡ (
      account.now,
      column_sums columns (map row_seen (rows_at (place_in places.now account.now) groups.now)),
    )) }
{
    let rows = rows_at(groups, places.place(account));
    summed_row(alloc, account, rows, columns)
}

/// The row of each account with goals.
fn goal_rows(
    alloc: Global,
    goals: &[CellRow],
    places: &Places,
    groups: &[Group],
    columns: usize,
) -> Result<List<CellRow>, Memory>
    requires { (name : List ℕ)
        → ColumnsFit (map row_seen (rows_at (place_in places.now name) groups.now)) }
    ensures { IfOk result (λ rows. map row_seen rows ≡ map (λ goal. (
      goal.account,
      column_sums columns (map row_seen (rows_at (place_in places.now goal.account) groups.now)),
    )) goals.now) }
{
    let mut rows = Vec::new(alloc);
    for goal in goals {
        rows.push(goal_row(alloc, goal.account.as_str(), places, groups, columns)?)?;
    }
    Ok(List::from_vec(rows))
}

/// The row of what counts for none, unless it is zero.
fn rest_rows(alloc: Global, rest: &[CellRow], columns: usize) -> Result<List<CellRow>, Memory>
    requires { ColumnsFit (map row_seen rest.now) }
    ensures { IfOk result (λ rows. map row_seen rows
        ≡ shown_rows false ((codes "<unbudgeted>", column_sums columns (map row_seen rest.now))
        ∷ [])) }
{
    let row = summed_row(alloc, "<unbudgeted>", rest, columns)?;
    let rows = one_row(alloc, row)?;
    let shown = shown_rows(alloc, rows, false)?;
    Ok(shown)
}

/// A list of one row.
fn one_row(alloc: Global, row: CellRow) -> Result<List<CellRow>, Memory>
    ensures { IfOk result (λ rows. rows ≡ row ∷ []) }
{
    let mut rows = Vec::new(alloc);
    rows.push(row)?;
    Ok(List::from_vec(rows))
}

/// The rows by their amounts where that is asked for, else by their accounts.
fn in_order(alloc: Global, rows: List<CellRow>, layout: &Layout) -> Result<List<CellRow>, Memory>
    requires { layout.now.order ≡ Order.Amounts → layout.now.basis ≡ Changes
        → AllByRecursion RowFits (map row_seen rows) }
    ensures { IfOk result (λ made. map row_seen made
        ≡ ordered layout.now.order layout.now.basis (map row_seen rows)) }
{
    match layout.order {
        Order::Accounts => Ok(rows),
        Order::Amounts => sorted_rows(alloc, rows, layout.basis),
        Order::Tree => Ok(rows),
    }
}

/// The rows of a budget in their order, that of what counts for none, if it is shown, and the totals.
#[derive(Drop)]
pub(crate) struct Rows {
    pub rows: List<CellRow>,
    pub rest: List<CellRow>,
    pub totals: List<Mixed>,
}

/// The rows of a budget, from those of all accounts and the places of those with goals.
pub(crate) fn budget_rows(
    alloc: Global,
    page: &Page,
    places: &Places,
    goals: &[CellRow],
    rows: List<CellRow>,
    totals: List<Mixed>,
) -> Result<Rows, Memory>
    requires places { (name : List ℕ)
        → place_in places.now name ≡ place_from 0 (names_of goals.now) name }
    requires fits { RowsFit (layout_on page.now) (map row_seen rows) }
    ensures rows { IfOk result (λ made. map row_seen made.rows
        ≡ ordered (layout_on page.now).order (layout_on page.now).basis
        (goal_rows page.now.columns (map row_seen goals.now) (map row_seen rows))) }
    ensures rest { IfOk result (λ made. map row_seen made.rest
        ≡ rest_rows page.now.columns (map row_seen goals.now) (map row_seen rows)) }
    ensures totals { IfOk result (λ made. made.totals ≡ totals) }
{
    let groups = grouped(alloc, places, goals.len(), rows)?;
    let made = goal_rows(alloc, goals, places, groups.groups.as_slice(), page.columns)?;
    let rest = rest_rows(alloc, groups.rest.rows(), page.columns)?;
    let rows = in_order(alloc, made, page.layout)?;
    Ok(Rows { rows, rest, totals })
}
