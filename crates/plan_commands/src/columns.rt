//! The columns of a report, however many, and the days that they show.
ghost use Rattle.std.specs.Prelude.{◌≡◌, ◌<◌, ◌≤◌, ◌∷◌, ◌^◌, [], None, length, IfOk, IfSome};
ghost use Rattle.hl_base.specs.Gives.{Gives};
ghost use Rattle.hl_time.specs.Calendar.{day_end};
ghost use Rattle.report_cells.specs.Follows.{Follow};
ghost use Rattle.report_sums.specs.Celled.{cause};
ghost use Rattle.report_takings.specs.Asking.{question_of};
ghost use Rattle.report_takings.specs.Columns.{columns_of};
ghost use Rattle.report_takings.specs.Spans.{span_of};
ghost use Rattle.report_commands.specs.Answered as answers;
ghost use Rattle.plan_commands.specs.Columns as spec;

use crate::bounds::with_bounds;
use hl_base::{List, Memory};
use hl_time::{DAY_END, Period, Span};
use report_cells::ReportFault;
use report_takings::columns::cut;
use report_takings::{COLUMN_LIMIT, Scope, columns_of, shown_in};
use std::alloc::Global;

/// The span of a report without an interval: its only column.
fn only_span(alloc: Global, scope: &Scope) -> Result<Span, Memory>
    requires { scope.now.options.now.bounds.interval ≡ None }
    ensures { IfOk result (λ span. span ≡ span_of (question_of scope.now)) }
{
    match columns_of(alloc, scope) {
        Ok(columns) => Ok(shown_in(columns.as_slice())),
        Err(_) => Err(Memory),
    }
}

/// The span of a report, whatever its interval.
fn whole_span(alloc: Global, scope: &Scope) -> Result<Span, Memory>
    ensures { IfOk result (λ span. span ≡ span_of (question_of scope.now)) }
{
    let bounds = Period {
        from: scope.options.bounds.from,
        end: scope.options.bounds.end,
        interval: None,
    };
    let options = with_bounds(alloc, scope.options, bounds)?;
    let whole = Scope {
        book: scope.book,
        query: scope.query,
        types: scope.types,
        options: &options,
        day: scope.day,
    };
    only_span(alloc, &whole)
}

/// The columns of a report, however many.
pub(crate) fn all_columns(alloc: Global, scope: &Scope) -> Result<List<Span>, Memory>
    requires { IfSome scope.now.options.now.bounds.interval (λ interval. 1 ≤ interval.n) }
    ensures columns { IfOk result (λ columns. columns ≡ columns_of (question_of scope.now)) }
    ensures follow { IfOk result Follow }
{
    let span = whole_span(alloc, scope)?;
    cut(alloc, span, scope.options.bounds.interval)
}

/// The days of the goals of a budget with these columns.
pub(crate) fn goal_span(columns: &[Span]) -> Span
    ensures span { result ≡ spec.goal_span columns.now }
    ensures first { 1 ≤ result.from }
    ensures last { result.end ≤ day_end }
{
    let shown = shown_in(columns);
    Span {
        from: shown.from.max(1),
        end: shown.end.min(DAY_END),
    }
}

/// Columns, unless they are too many.
pub(crate) fn few(columns: List<Span>) -> Result<List<Span>, ReportFault>
    requires { Follow columns }
    ensures told { Gives (λ columns. columns) cause result (answers.few columns) }
    ensures follow { IfOk result Follow }
    ensures few { IfOk result (λ columns. length columns < 2 ^ 32) }
{
    let count = columns.len() as u64;
    if COLUMN_LIMIT < count {
        Err(ReportFault::TooWide {
            columns: count,
            limit: COLUMN_LIMIT,
        })
    } else {
        Ok(columns)
    }
}

/// A copy of some columns.
pub(crate) fn copied(alloc: Global, columns: &[Span]) -> Result<List<Span>, Memory>
    ensures { IfOk result (λ copy. copy ≡ columns.now) }
{
    let mut copy = Vec::new(alloc);
    copy.extend_from_slice(columns)?;
    Ok(List::from_vec(copy))
}
