//! The rows of the accounts that are named.
ghost use Rattle.std.specs.Prelude.{◌≡◌, ◌*◌, ◌^◌, ◌<◌, length, IfOk};
ghost use Rattle.index_cells.specs.Asks.{AsksFor, nodes_of_cell, nodes_shown};
ghost use Rattle.index_cells.specs.Held.{HoldsSums, most_of, summed_in};
ghost use Rattle.index_cells.specs.Planned.{HoldsCellsOf, HoldsRowsOf};
ghost use Rattle.index_cells.specs.Tells.{IsReady};

use crate::cell::cell_of;
use crate::counted::counted;
use crate::kept::Kept;
use book::Mixed;
use hl_base::{List, Memory, Steps, Text};
use hl_time::Span;
use report_cells::{CellRow, Reach};
use std::alloc::Global;
use std::sync::ledger::Ledger;

/// What rows are made by: the columns, which days each counts, and the days that count at all.
#[derive(Clone, Copy)]
pub(crate) struct Plan<'a> {
    pub(crate) columns: &'a [Span],
    pub(crate) reach: Reach,
    pub(crate) days: Span,
}

/// A row for each account that is named, also where its sums are all zero.
pub(crate) fn named_rows<L: Ledger>(
    alloc: Global,
    kept: &Kept,
    plan: &Plan,
    steps: &mut Steps<L>,
) -> Result<List<CellRow>, Memory>
    requires ready { IsReady kept.now }
    requires early { plan.now.days.end < 2 ^ 22 }
    ensures rows { IfOk result (HoldsRowsOf kept.now plan.now) }
    ensures asked { AsksFor (nodes_shown kept.now plan.now.columns.now) steps.old steps.new }
{
    let mut rows = Vec::new(alloc);
    for account in kept.accounts.as_slice() {
        let row = row_of(alloc, kept, plan, account, steps)?;
        rows.push(row)?;
    }
    Ok(List::from_vec(rows))
}

/// The row of an account.
fn row_of<L: Ledger>(
    alloc: Global,
    kept: &Kept,
    plan: &Plan,
    account: &Text,
    steps: &mut Steps<L>,
) -> Result<CellRow, Memory>
    requires ready { IsReady kept.now }
    requires early { plan.now.days.end < 2 ^ 22 }
    ensures account { IfOk result (λ row. row.account ≡ account.now) }
    ensures cells { IfOk result (λ row.
        HoldsCellsOf kept.now plan.now account.now row.cells plan.now.columns.now) }
    ensures asked { AsksFor (nodes_of_cell kept.now * length plan.now.columns.now)
        steps.old steps.new }
{
    let cells = cells_of(alloc, kept, plan, account, plan.columns, steps)?;
    let account = Text::copied(alloc, account.as_str())?;
    Ok(CellRow { account, cells })
}

/// The cells of an account, one for each of some columns.
fn cells_of<L: Ledger>(
    alloc: Global,
    kept: &Kept,
    plan: &Plan,
    account: &Text,
    columns: &[Span],
    steps: &mut Steps<L>,
) -> Result<List<Mixed>, Memory>
    requires ready { IsReady kept.now }
    requires early { plan.now.days.end < 2 ^ 22 }
    ensures cells { IfOk result (λ cells.
        HoldsCellsOf kept.now plan.now account.now cells columns.now) }
    ensures asked { AsksFor (nodes_of_cell kept.now * length columns.now) steps.old steps.new }
{
    let mut cells = Vec::new(alloc);
    for column in columns {
        let cell = column_cell(alloc, kept, plan, account, column, steps)?;
        cells.push(cell)?;
    }
    Ok(List::from_vec(cells))
}

/// The cell of an account in a column.
fn column_cell<L: Ledger>(
    alloc: Global,
    kept: &Kept,
    plan: &Plan,
    account: &Text,
    column: &Span,
    steps: &mut Steps<L>,
) -> Result<Mixed, Memory>
    requires ready { IsReady kept.now }
    requires early { plan.now.days.end < 2 ^ 22 }
    ensures sums { IfOk result (λ cell. HoldsSums cell
        (summed_in kept.now plan.now.reach plan.now.days account.now column.now)
        (most_of kept.now)) }
    ensures asked { AsksFor (nodes_of_cell kept.now) steps.old steps.new }
{
    let days = counted(plan.reach, plan.days, *column);
    cell_of(alloc, kept, account, days, steps)
}
