//! The sums of an account over some days.
ghost use Rattle.std.specs.Prelude.{◌^◌, ◌<◌, IfOk};
ghost use Rattle.index_cells.specs.Asks.{AsksFor, nodes_of_cell};
ghost use Rattle.index_cells.specs.Held.{HoldsSums, most_of, summed};
ghost use Rattle.index_cells.specs.Tells.{IsReady};

use crate::kept::Kept;
use crate::over::sum_over;
use book::Mixed;
use hl_base::{Memory, Steps, Text};
use hl_time::Span;
use report_cells::{Share, add_share};
use std::alloc::Global;
use std::sync::ledger::Ledger;

/// The sums of an account over some days, in each symbol.
pub(crate) fn cell_of<L: Ledger>(
    alloc: Global,
    kept: &Kept,
    account: &Text,
    days: Span,
    steps: &mut Steps<L>,
) -> Result<Mixed, Memory>
    requires ready { IsReady kept.now }
    requires early { days.end < 2 ^ 22 }
    ensures sums { IfOk result (λ cell.
        HoldsSums cell (summed kept.now account.now days) (most_of kept.now)) }
    ensures asked { AsksFor (nodes_of_cell kept.now) steps.old steps.new }
{
    let mut sums = Mixed::new(alloc);
    for symbol in kept.symbols.as_slice() {
        let value = sum_over(&kept.sums, account, symbol, days, steps);
        add_share(alloc, &mut sums, &Some(Share { symbol, value }))?;
    }
    Ok(sums)
}
