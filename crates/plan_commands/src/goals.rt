//! The sums of a budget's goals.
ghost use Rattle.std.specs.Prelude.{◌≡◌, ◌<◌, ◌^◌, length, IfOk};
ghost use Rattle.hl_base.specs.Gives.{Gives};
ghost use Rattle.report_cells.specs.Follows.{Follow};
ghost use Rattle.report_sums.specs.Celled.{cause, cells_of, celled_of};
ghost use Rattle.report_sums.specs.Matters.{matter_of};
ghost use Rattle.report_sums.specs.Summed.{Summed};
ghost use Rattle.plan_commands.specs.Bounds.{with_bounds};
ghost use Rattle.plan_commands.specs.Goals as spec;

use crate::bounds::with_bounds;
use crate::columns::goal_span;
use book::Book;
use hl_base::{List, Memory};
use hl_time::{Period, Span};
use report_cells::{Cells, ReportFault};
use report_options::Options;
use report_sums::{Job, sums};
use report_takings::Scope;
use std::alloc::Global;

/// The same options with the days of a span as their bounds, and their own interval.
fn options_over(alloc: Global, options: &Options, span: Span) -> Result<Options, Memory>
    ensures { IfOk result (λ made.
        made ≡ with_bounds options.now (spec.bounds_of options.now span)) }
{
    let bounds = Period {
        from: Some(span.from),
        end: Some(span.end),
        interval: options.bounds.interval,
    };
    with_bounds(alloc, options, bounds)
}

/// The sums of the goals of a book by the columns of a report: of those that its query means, valued as its sums are, with the
/// days of the columns as bounds.
pub(crate) fn goal_cells(
    alloc: Global,
    job: &Job,
    columns: List<Span>,
    goals: &Book,
) -> Result<Cells, ReportFault>
    requires follow { Follow columns }
    requires few { length columns < 2 ^ 32 }
    ensures told { Gives celled_of cause result
        (spec.goal_cells (matter_of job.now) columns goals.now.txns) }
    ensures fits { IfOk result (λ c.
        Summed job.now.scope.options.now.start (length columns) (celled_of c)) }
{
    let span = goal_span(columns.as_slice());
    let options = options_over(alloc, job.scope.options, span)?;
    let scope = Scope {
        book: goals,
        query: job.scope.query,
        types: job.scope.types,
        options: &options,
        day: job.scope.day,
    };
    let job = Job {
        scope,
        prices: job.prices,
        styles: job.styles,
    };
    sums_by(alloc, &job, columns)
}

/// The sums of a report by these columns.
fn sums_by(alloc: Global, job: &Job, columns: List<Span>) -> Result<Cells, ReportFault>
    requires follow { Follow columns }
    requires few { length columns < 2 ^ 32 }
    ensures told { Gives celled_of cause result (cells_of (matter_of job.now) columns) }
    ensures fits { IfOk result (λ c.
        Summed job.now.scope.options.now.start (length columns) (celled_of c)) }
{
    sums(alloc, job, columns)
}
