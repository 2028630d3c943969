//! The cells of a plain balance.
ghost use Rattle.std.specs.Prelude.{◌^◌, ◌<◌, List, IfOk};
ghost use Rattle.report_cells.specs.Taken.{Taken};
ghost use Rattle.index_cells.specs.Asks.{AsksFor, nodes_shown};
ghost use Rattle.index_cells.specs.Shown.{ShowSumsOf};
ghost use Rattle.index_cells.specs.Tells.{Tells, taken_on};

use crate::kept::Kept;
use crate::rows::{Plan, named_rows};
use hl_base::{List, Memory, Steps};
use hl_time::Span;
use report_cells::{Cells, Reach, totals_of};
use std::alloc::Global;
use std::sync::ledger::Ledger;

/// The sums by account and column of the takings on some days, as `make_cells` of `report_cells` answers them, from what
/// is kept of all takings: none is walked over. Accounts without takings may stand beside them, with sums of zero. It asks
/// at most 44 nodes for each account, symbol and column. No sum is out of range.
pub(crate) fn shown_cells<L: Ledger>(
    alloc: Global,
    kept: &Kept,
    columns: List<Span>,
    reach: Reach,
    days: Span,
    steps: &mut Steps<L>,
) -> Result<Cells, Memory>
    requires told { (ts : List Taken) × Tells ts kept.now }
    requires early { days.end < 2 ^ 22 }
    ensures made { IfOk result (λ cells. (ts : List Taken) → Tells ts kept.now
        → ShowSumsOf columns reach (taken_on days ts) cells) }
    ensures asked { AsksFor (nodes_shown kept.now columns) steps.old steps.new }
{
    let plan = Plan {
        columns: columns.as_slice(),
        reach,
        days,
    };
    let rows = named_rows(alloc, kept, &plan, steps)?;
    let totals = totals_of(alloc, rows.as_slice(), columns.len())?;
    Ok(Cells {
        columns,
        rows,
        totals,
    })
}
