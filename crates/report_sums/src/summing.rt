//! The sums of a report by account and column.
ghost use Rattle.std.specs.Prelude.{◌≡◌, ◌<◌, ◌^◌, false, length, IfOk};
ghost use Rattle.hl_base.specs.Gives.{Gives};
ghost use Rattle.report_cells.specs.Follows.{Follow};
ghost use Rattle.report_takings.specs.Costs.{is_at_cost};
ghost use Rattle.report_takings.specs.Takings.{takings_of};
ghost use Rattle.report_values.specs.Cells.{planned_of};
ghost use Rattle.report_values.specs.Worth.{priced_of};
ghost use Rattle.report_sums.specs.Celled as spec;
ghost use Rattle.report_sums.specs.Celled.{cause, cells_of, celled_of};
ghost use Rattle.report_sums.specs.Matters.{matter_of};
ghost use Rattle.report_sums.specs.Summed.{Summed};
ghost use Rattle.report_sums.specs.Ways as ways;

use crate::job::Job;
use crate::market::{asked_of, market_of};
use crate::way::{Way, way_of};
use hl_base::List;
use hl_time::{Day, Span};
use report_cells::{Cells, Reach, ReportFault, Taking, make_cells};
use report_options::{Options, Start, When};
use report_takings::{gather, is_at_cost, take};
use report_values::{Market, Plan, cells_on, cells_then, days_of};
use std::alloc::Global;

/// Which days a column counts.
pub fn reach_of(start: Start) -> Reach
    ensures { result ≡ spec.reach_of start }
{
    match start {
        Start::Change => Reach::Within,
        Start::Cumulative | Start::Historical => Reach::UpTo,
    }
}

/// The sums of a report by these columns: of each account that it shows, and of all accounts. Amounts are summed as
/// they are; with `--value=then` each is valued on its own day before that; and with any other value the sums are, each
/// on the day of its column (the section on values of `docs/DECISIONS.md`). `Range` names the least symbol that is out
/// of range. However they are valued, the sums are those of some takings, so they can be summed again.
pub fn sums<'a>(alloc: Global, job: &Job<'a>, columns: List<Span>) -> Result<Cells, ReportFault>
    requires follow { Follow columns }
    requires few { length columns < 2 ^ 32 }
    ensures columns { IfOk result (λ c. c.columns ≡ columns) }
    ensures told { Gives celled_of cause result (cells_of (matter_of job.now) columns) }
    ensures fits { IfOk result (λ c.
        Summed job.now.scope.options.now.start (length columns) (celled_of c)) }
{
    let way = way_of(&job.scope.options.value);
    let written = is_written(way, job.scope.options);
    if written {
        return written_cells(alloc, job, columns);
    }
    taken_cells(alloc, job, way, columns)
}

/// Whether amounts are summed as they are written: neither valued nor taken at cost.
fn is_written(way: Way, options: &Options) -> bool
    ensures { result ≡ spec.is_written way options.now }
{
    match way {
        Way::Plain => !is_at_cost(options),
        Way::Each | Way::Columns(_) => false,
    }
}

/// The sums of amounts as they are written, gathered in one walk over the book.
fn written_cells<'a>(
    alloc: Global,
    job: &Job<'a>,
    columns: List<Span>,
) -> Result<Cells, ReportFault>
    requires follow { Follow columns }
    requires written { is_at_cost job.now.scope.options.now ≡ false }
    ensures columns { IfOk result (λ c. c.columns ≡ columns) }
    ensures told { Gives celled_of cause result
        (spec.plain_cells (spec.reach_of job.now.scope.options.now.start) columns
        (takings_of (matter_of job.now).asked columns)) }
{
    let reach = reach_of(job.scope.options.start);
    gather(alloc, &job.scope, columns, reach)
}

/// The sums of what is taken, from a list of it.
fn taken_cells<'a>(
    alloc: Global,
    job: &Job<'a>,
    way: Way,
    columns: List<Span>,
) -> Result<Cells, ReportFault>
    requires follow { Follow columns }
    requires few { length columns < 2 ^ 32 }
    requires way { way ≡ ways.way_of job.now.scope.options.now.value }
    ensures columns { IfOk result (λ c. c.columns ≡ columns) }
    ensures told { Gives celled_of cause result (cells_of (matter_of job.now) columns) }
{
    let takings = take(alloc, &job.scope, columns.as_slice())?;
    cells_by(alloc, job, way, &takings, columns)
}

/// The sums of takings, valued in one of the ways.
fn cells_by<'a>(
    alloc: Global,
    job: &Job<'a>,
    way: Way,
    takings: &[Taking<'a>],
    columns: List<Span>,
) -> Result<Cells, ReportFault>
    requires follow { Follow columns }
    requires few { length columns < 2 ^ 32 }
    ensures columns { IfOk result (λ c. c.columns ≡ columns) }
    ensures told { Gives celled_of cause result
        (spec.cells_by way (matter_of job.now) columns takings.now) }
{
    let reach = reach_of(job.scope.options.start);
    match way {
        Way::Plain => plain_cells(alloc, takings, columns, reach),
        Way::Each => each_cells(alloc, &market_of(job), takings, columns, reach),
        Way::Columns(when) => column_cells(alloc, job, when, takings, columns.as_slice()),
    }
}

/// The sums of takings as they are.
fn plain_cells(
    alloc: Global,
    takings: &[Taking],
    columns: List<Span>,
    reach: Reach,
) -> Result<Cells, ReportFault>
    requires { Follow columns }
    ensures columns { IfOk result (λ c. c.columns ≡ columns) }
    ensures told { Gives celled_of cause result (spec.plain_cells reach columns takings.now) }
{
    make_cells(alloc, takings, columns, reach)
}

/// The sums of the values that takings have on their own days.
fn each_cells<'a>(
    alloc: Global,
    market: &Market<'a>,
    takings: &[Taking<'a>],
    columns: List<Span>,
    reach: Reach,
) -> Result<Cells, ReportFault>
    requires { Follow columns }
    ensures columns { IfOk result (λ c. c.columns ≡ columns) }
    ensures told { Gives celled_of cause result
        (spec.each_cells (priced_of market.now) reach columns takings.now) }
{
    cells_then(alloc, takings, columns, reach, market)
}

/// The sums of takings, each valued on the day of its column.
fn column_cells<'a>(
    alloc: Global,
    job: &Job<'a>,
    when: When,
    takings: &[Taking<'a>],
    columns: &[Span],
) -> Result<Cells, ReportFault>
    requires follow { Follow columns.now }
    requires few { length columns.now < 2 ^ 32 }
    ensures columns { IfOk result (λ c. c.columns ≡ columns.now) }
    ensures told { Gives celled_of cause result
        (spec.column_cells (spec.planned (matter_of job.now) when columns.now) takings.now) }
{
    let days = days_of(alloc, &asked_of(job), when, columns)?;
    let market = market_of(job);
    let plan = Plan {
        columns,
        reach: reach_of(job.scope.options.start),
        days: &days,
        market: &market,
    };
    planned_cells(alloc, takings, &plan)
}

/// The sums of takings, valued by a plan.
fn planned_cells(alloc: Global, takings: &[Taking], plan: &Plan) -> Result<Cells, ReportFault>
    requires follow { Follow plan.now.columns.now }
    requires few { length plan.now.columns.now < 2 ^ 32 }
    ensures columns { IfOk result (λ c. c.columns ≡ plan.now.columns.now) }
    ensures told { Gives celled_of cause result
        (spec.column_cells (planned_of plan.now) takings.now) }
{
    cells_on(alloc, takings, plan)
}
