//! The budget of a report.
ghost use Rattle.std.specs.Prelude.{◌≡◌, ◌≤◌, ◌<◌, ◌^◌, length, IfSome};
ghost use Rattle.hl_base.specs.Gives.{Gives};
ghost use Rattle.report_cells.specs.Follows.{Follow};
ghost use Rattle.report_sums.specs.Celled.{cause, celled_of};
ghost use Rattle.report_sums.specs.Matters.{matter_of};
ghost use Rattle.report_sums.specs.Summed.{Summed};
ghost use Rattle.plan_commands.specs.Faults.{plan_cause};
ghost use Rattle.plan_commands.specs.Goals as spec;
ghost use Rattle.plan_commands.specs.Reports as reports;

use crate::columns::{all_columns, copied, few, goal_span};
use crate::fault::PlanFault;
use crate::goals::goal_cells;
use book::{Book, Items};
use budget_layout::budget_text;
use generated::goals;
use hl_base::{Bytes, List, Memory};
use hl_time::Span;
use report_cells::{Cells, ReportFault};
use report_commands::layout_of;
use report_sums::{Job, sums};
use std::alloc::Global;

/// The budget of a report: its sums, each beside the goals that the periodic rules among some items make within the days of
/// its columns.
pub(crate) fn budget(alloc: Global, items: &Items, job: &Job) -> Result<Bytes, PlanFault>
    requires { IfSome job.now.scope.options.now.bounds.interval (λ interval. 1 ≤ interval.n) }
    ensures { Gives (λ text.
        text) plan_cause result (reports.budget_in items.now (matter_of job.now)) }
{
    match all_columns(alloc, &job.scope) {
        Ok(columns) => budget_by(alloc, items, job, columns),
        Err(Memory) => Err(PlanFault::Memory),
    }
}

/// The same by its columns.
fn budget_by(
    alloc: Global,
    items: &Items,
    job: &Job,
    columns: List<Span>,
) -> Result<Bytes, PlanFault>
    requires { Follow columns }
    ensures { Gives (λ text.
        text) plan_cause result (reports.budget_by items.now (matter_of job.now) columns) }
{
    let span = goal_span(columns.as_slice());
    match goals(alloc, items, span) {
        Ok(goals) => beside(alloc, job, columns, &goals),
        Err(fault) => Err(PlanFault::from(fault)),
    }
}

/// The same beside goals.
fn beside(alloc: Global, job: &Job, columns: List<Span>, goals: &Book) -> Result<Bytes, PlanFault>
    requires { Follow columns }
    ensures { Gives (λ text. text) plan_cause result
        (reports.as_report (spec.budget_of (matter_of job.now) columns goals.now.txns)) }
{
    match laid(alloc, job, columns, goals) {
        Ok(text) => Ok(text),
        Err(fault) => Err(PlanFault::from(fault)),
    }
}

/// The text of a budget beside goals. `TooWide` comes before `Range`.
fn laid(alloc: Global, job: &Job, columns: List<Span>, goals: &Book) -> Result<Bytes, ReportFault>
    requires { Follow columns }
    ensures { Gives (λ text. text) cause result
        (spec.budget_of (matter_of job.now) columns goals.now.txns) }
{
    let columns = few(columns)?;
    summed(alloc, job, columns, goals)
}

/// The same by columns that aren't too many.
fn summed(alloc: Global, job: &Job, columns: List<Span>, goals: &Book) -> Result<Bytes, ReportFault>
    requires follow { Follow columns }
    requires few { length columns < 2 ^ 32 }
    ensures { Gives (λ text. text) cause result
        (spec.summed_budget (matter_of job.now) goals.now.txns columns) }
{
    let copy = copied(alloc, columns.as_slice())?;
    let actual = sums(alloc, job, columns)?;
    with_goals(alloc, job, copy, goals, actual)
}

/// The same by what is summed.
fn with_goals(
    alloc: Global,
    job: &Job,
    columns: List<Span>,
    goals: &Book,
    actual: Cells,
) -> Result<Bytes, ReportFault>
    requires follow { Follow columns }
    requires few { length columns < 2 ^ 32 }
    requires columns { actual.columns ≡ columns }
    requires fits { Summed job.now.scope.options.now.start (length columns) (celled_of actual) }
    ensures { Gives (λ text. text) cause result
        (spec.beside_goals (matter_of job.now) columns goals.now.txns (celled_of actual)) }
{
    let goals = goal_cells(alloc, job, columns, goals)?;
    let layout = layout_of(job.scope.options);
    budget_text(alloc, actual, goals, &layout, job.styles)
}
