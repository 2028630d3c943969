//! The columns of a report.
ghost use Rattle.std.specs.Prelude.{◌≡◌, ◌<◌, ◌≤◌, ◌∷◌, [], length, IfOk, IfErr, IfSome};
ghost use Rattle.hl_time.specs.Periods.{is_within};
ghost use Rattle.report_cells.specs.Follows.{Follow};
ghost use Rattle.report_takings.specs.Asking.{question_of};
ghost use Rattle.report_takings.specs.Columns as spec;

use crate::scope::Scope;
use crate::spans::span_of;
use hl_base::{List, Memory};
use hl_time::{DAY_END, Interval, Span, split};
use report_cells::ReportFault;
use std::alloc::Global;

/// The most columns that a report may have.
pub const COLUMN_LIMIT: u64 = 1_200;

/// The columns of a report: its span, cut into whole intervals where it has a day and the options have an interval.
/// `TooWide` comes exactly where there are more than `COLUMN_LIMIT`. An interval has at least one unit.
pub fn columns_of(alloc: Global, scope: &Scope) -> Result<List<Span>, ReportFault>
    requires { IfSome scope.now.options.now.bounds.interval (λ interval. 1 ≤ interval.n) }
    ensures columns { IfOk result (λ columns. columns ≡ spec.columns_of (question_of scope.now)) }
    ensures few { IfOk result (λ columns. length columns ≤ spec.column_limit) }
    ensures follow { IfOk result Follow }
    ensures fault { IfErr result (spec.IsTooWide (spec.columns_of (question_of scope.now))) }
{
    let span = span_of(alloc, scope)?;
    let columns = cut(alloc, span, scope.options.bounds.interval)?;
    if COLUMN_LIMIT < columns.len() as u64 {
        return Err(ReportFault::TooWide {
            columns: columns.len() as u64,
            limit: COLUMN_LIMIT,
        });
    }
    Ok(columns)
}

/// Whether a span has a day, and its days are days of the calendar.
fn is_within(span: Span) -> bool
    ensures { result ≡ is_within span }
{
    1 <= span.from && span.from < span.end && span.end <= DAY_END
}

/// The span alone.
fn alone(alloc: Global, span: Span) -> Result<List<Span>, Memory>
    ensures { IfOk result (λ columns. columns ≡ span ∷ []) }
{
    let mut columns = Vec::new(alloc);
    columns.push(span)?;
    Ok(List::from_vec(columns))
}

/// The parts of a span: whole intervals where it has a day and its days are days of the calendar, else the span alone. An
/// interval has at least one unit.
#[tactic(auto, using(crate::proofs::Following::split_follows, crate::proofs::Following::alone_follows, crate::proofs::Intervals::split_is, crate::proofs::Intervals::cut_whole, crate::proofs::Intervals::cut_alone))]
pub fn cut(alloc: Global, span: Span, interval: Option<Interval>) -> Result<List<Span>, Memory>
    requires { IfSome interval (λ some. 1 ≤ some.n) }
    ensures parts { IfOk result (λ parts. parts ≡ spec.cut_into interval span) }
    ensures follow { IfOk result Follow }
{
    match interval {
        None => alone(alloc, span),
        Some(interval) => {
            if is_within(span) {
                split(alloc, span, interval)
            } else {
                alone(alloc, span)
            }
        }
    }
}
