//! What the takings of a report without columns are worth.
ghost use Rattle.hl_base.specs.Gives.{Gives};
ghost use Rattle.report_sums.specs.Celled.{cause};
ghost use Rattle.report_sums.specs.Matters.{market_in, matter_of};
ghost use Rattle.report_sums.specs.Worths as spec;

use crate::job::Job;
use crate::market::{asked_of, market_of};
use crate::way::{Way, way_of};
use hl_time::Span;
use report_cells::{ReportFault, Taking};
use report_values::{Dates, day_of, value_takings};
use std::alloc::Global;

/// What takings are worth, each by itself: as they are; with `--value=then` on its own day; and with any other value
/// on the one day of the report, whose span is handed in (the section on values of `docs/DECISIONS.md`). `Range` names
/// the least symbol that is out of range.
pub fn valued_takings<'a>(
    alloc: Global,
    job: &Job<'a>,
    takings: Vec<Taking<'a>>,
    span: Span,
) -> Result<Vec<Taking<'a>>, ReportFault>
    ensures { Gives (λ values. values.items) cause result
        (spec.worths_of (matter_of job.now) span takings.entry.items) }
{
    match way_of(&job.scope.options.value) {
        Way::Plain => Ok(takings),
        Way::Each => worth_on(alloc, job, &takings, &Dates::Own),
        Way::Columns(when) => {
            let day = day_of(&asked_of(job), when, span);
            worth_on(alloc, job, &takings, &Dates::On(day))
        }
    }
}

/// What takings are worth on some days.
fn worth_on<'a>(
    alloc: Global,
    job: &Job<'a>,
    takings: &[Taking<'a>],
    days: &Dates,
) -> Result<Vec<Taking<'a>>, ReportFault>
    ensures { Gives (λ values. values.items) cause result
        (spec.worth_on (market_in (matter_of job.now)) days.now takings.now) }
{
    value_takings(alloc, takings, days, &market_of(job))
}
