//! The span of a report.
ghost use Rattle.std.specs.Prelude.{◌≡◌, IfOk, unwrap_or};
ghost use Rattle.std.specs.Option.{option_map, option_or};
ghost use Rattle.report_takings.specs.Asking.{question_of};
ghost use Rattle.report_takings.specs.Days.{day_after};
ghost use Rattle.report_takings.specs.Spans as spec;

use crate::ends::{Ends, ends_of};
use crate::scope::Scope;
use hl_base::Memory;
use hl_time::{DAY_END, Span};
use query::{earlier, later};
use std::alloc::Global;

/// The day after a day, which is no later than the end of all days.
fn day_after(day: u32) -> u32
    ensures { result ≡ day_after day }
{
    if day < DAY_END { day + 1 } else { DAY_END }
}

/// The day after, if there is a day.
fn end_after(day: Option<u32>) -> Option<u32>
    ensures { result ≡ option_map day_after day }
{
    match day {
        Some(day) => Some(day_after(day)),
        None => None,
    }
}

/// The span of a report. Where both bounds are given no posting is looked at.
pub(crate) fn span_of(alloc: Global, scope: &Scope) -> Result<Span, Memory>
    ensures { IfOk result (λ span. span ≡ spec.span_of (question_of scope.now)) }
{
    let dates = scope.query.dates();
    let from = later(scope.options.bounds.from, dates.from);
    let end = earlier(scope.options.bounds.end, dates.end);
    match (from, end) {
        (Some(from), Some(end)) => Ok(Span { from, end }),
        _ => {
            let ends = ends_of(alloc, scope)?;
            Ok(with_ends(from, end, ends, scope.day.0))
        }
    }
}

/// The bounds that are given, in place of a missing one the ends of the postings' days, and with none of these a day.
fn with_ends(from: Option<u32>, end: Option<u32>, ends: Ends, day: u32) -> Span
    ensures { result ≡ record {
      from = unwrap_or (option_or from ends.first) day;
      end = unwrap_or (option_or end (option_map day_after ends.last)) day;
    } }
{
    Span {
        from: from.or(ends.first).unwrap_or(day),
        end: end.or(end_after(ends.last)).unwrap_or(day),
    }
}
