//! By what the amounts of a report are valued, and on which days.
ghost use Rattle.std.specs.Prelude.{◌≡◌, is_some};
ghost use Rattle.report_takings.specs.Asking.{question_of};
ghost use Rattle.report_takings.specs.Spans.{given_end};
ghost use Rattle.report_values.specs.Days.{dated_of};
ghost use Rattle.report_values.specs.Worth.{priced_of};
ghost use Rattle.report_sums.specs.Matters as spec;
ghost use Rattle.report_sums.specs.Matters.{matter_of};

use crate::job::Job;
use crate::way::target_in;
use report_takings::Scope;
use report_values::{Asked, Market};

/// By what the amounts of a report are valued.
pub(crate) fn market_of<'a>(job: &Job<'a>) -> Market<'a>
    ensures { priced_of result ≡ spec.market_in (matter_of job.now) }
{
    Market {
        prices: job.prices,
        styles: job.styles,
        target: target_in(&job.scope.options.value),
    }
}

/// Whether a report has an end that is given, by an option or by a term of days.
#[tactic(auto, using(crate::proofs::Bounded::some_least))]
fn has_end(scope: &Scope) -> bool
    ensures { result ≡ is_some (given_end (question_of scope.now)) }
{
    scope.options.bounds.end.is_some() || scope.query.dates().end.is_some()
}

/// Whether a report has an interval, or an end that is given.
fn is_bounded(scope: &Scope) -> bool
    ensures { result ≡ spec.is_bounded (question_of scope.now) }
{
    scope.options.bounds.interval.is_some() || has_end(scope)
}

/// What decides on which days a report is valued.
pub(crate) fn asked_of<'a>(job: &Job<'a>) -> Asked<'a>
    ensures { dated_of result ≡ spec.dated_in (matter_of job.now) }
{
    Asked {
        is_bounded: is_bounded(&job.scope),
        txns: job.scope.book.txns.as_slice(),
        prices: job.prices,
        day: job.scope.day,
    }
}
