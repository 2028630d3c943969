//! The sums of a plain report.
ghost use Rattle.std.specs.Prelude.{◌≡◌, ◌↔◌, IsTrue};
ghost use Rattle.report_takings.specs.Asking.{question_of};
ghost use Rattle.report_takings.specs.Takings.{is_historical, names_earlier, takings_of};
ghost use Rattle.index_cells.specs.Asks.{AsksFor, nodes_shown};
ghost use Rattle.index_cells.specs.Books.{KeepsBook};
ghost use Rattle.index_cells.specs.Posted.{IsPlain, days_in};
ghost use Rattle.index_cells.specs.Shown.{Shows};

use crate::balance::shown_cells;
use crate::kept::Kept;
use hl_base::{List, Steps};
use hl_time::{DAY_END, Span};
use report_cells::{Cells, Reach, ReportFault};
use report_options::Start;
use report_takings::{Scope, is_at_cost, shown_in};
use std::alloc::Global;
use std::sync::ledger::Ledger;

/// The sums by account and column of what a plain report takes, as `gather` of `report_takings` answers them, from what
/// is kept of its book; accounts without takings may stand beside them, with sums of zero. `Range` never comes.
pub fn plain_cells<L: Ledger>(
    alloc: Global,
    scope: &Scope,
    kept: &Kept,
    columns: List<Span>,
    reach: Reach,
    steps: &mut Steps<L>,
) -> Result<Cells, ReportFault>
    requires plain { IsPlain scope.now (question_of scope.now) }
    requires keeps { KeepsBook scope.now.book.now.txns kept.now }
    ensures made { Shows columns reach (takings_of (question_of scope.now) columns) result }
    ensures asked { AsksFor (nodes_shown kept.now columns) steps.old steps.new }
{
    let days = days_in(scope.options.start, columns.as_slice());
    let cells = shown_cells(alloc, kept, columns, reach, days, steps)?;
    Ok(cells)
}

/// Whether a report is plain: its query has no terms, its amounts are taken as they are written, and it names no account
/// for earlier postings alone.
pub fn is_plain(scope: &Scope) -> bool
    ensures { IsTrue result ↔ IsPlain scope.now (question_of scope.now) }
{
    let empty = scope.query.is_empty();
    if !empty {
        return false;
    }
    let costs = is_at_cost(scope.options);
    if costs {
        return false;
    }
    let earlier = names_earlier(scope);
    !earlier
}

/// Whether the accounts of earlier postings are named too.
fn names_earlier(scope: &Scope) -> bool
    ensures { result ≡ names_earlier (question_of scope.now) }
{
    scope.options.empty && !is_historical(scope.options.start)
}

/// The days that count in a report with these columns.
fn days_in(start: Start, columns: &[Span]) -> Span
    ensures { result ≡ days_in start columns.now }
{
    let shown = shown_in(columns);
    Span {
        from: if is_historical(start) { 0 } else { shown.from },
        end: shown.end.min(DAY_END),
    }
}

/// Whether sums begin before all days.
fn is_historical(start: Start) -> bool
    ensures { result ≡ is_historical start }
{
    matches!(start, Start::Historical)
}
