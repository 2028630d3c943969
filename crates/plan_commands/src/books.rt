//! The report over the book that rules make.
ghost use Rattle.std.specs.Prelude.{◌≤◌, ◌≡◌, List, Some, true};
ghost use Rattle.book.specs.declared.item.Placed.{Placed};
ghost use Rattle.hl_base.specs.Gives.{Gives};
ghost use Rattle.hl_time.specs.Calendar.{IsDay, day_end};
ghost use Rattle.hl_time.specs.Periods.{IsPeriod};
ghost use Rattle.generated.specs.Windows.{window_of};
ghost use Rattle.report_commands.specs.Jobs.{IsMadeFor, IsMaterialOf};
ghost use Rattle.report_commands.specs.Reports.{answer_over};
ghost use Rattle.report_options.specs.Options.{IsValid};
ghost use Rattle.plan_commands.specs.Faults.{plan_cause, widened};
ghost use Rattle.plan_commands.specs.Plans.{IsPlan, given_in, terms_in};
ghost use Rattle.plan_commands.specs.Reports as reports;
ghost use Rattle.plan_commands.specs.Telling as spec;

use crate::bounds::given_bounds;
use crate::budget::budget;
use crate::fault::PlanFault;
use crate::plan::Plan;
use book::{Book, Items};
use generated::{forecast, forecast_window, with_auto};
use hl_base::Bytes;
use hl_time::{Period, Span};
use query::Maker;
use report_commands::{Asked, Material, report_of};
use report_sums::Job;
use report_takings::Scope;
use std::alloc::Global;

/// The budget over the items of a text by what its sums are made of.
fn budget_of(alloc: Global, asked: &Asked, items: &Items, job: &Job) -> Result<Bytes, PlanFault>
    requires valid { IsPeriod asked.now.options.bounds }
    requires made { IsMadeFor asked.now items.now job.now }
    ensures { Gives (λ text. text) plan_cause result
        (reports.budget_over asked.now.options job.now.scope.day.0 items.now
        job.now.scope.query.now.terms.items
        job.now.scope.book.now) }
{
    budget(alloc, items, job)
}

/// The budget over a book.
fn budget_over(alloc: Global, plan: &Plan, book: &Book) -> Result<Bytes, PlanFault>
    requires { IsPlan plan.now }
    ensures { Gives (λ text. text) plan_cause result
        (reports.budget_over plan.now.asked.now.options plan.now.day.0 plan.now.items.now
        (terms_in plan.now) book.now) }
{
    let scope = Scope {
        book,
        query: plan.query,
        types: plan.types,
        options: &plan.asked.options,
        day: plan.day,
    };
    let job = Job {
        scope,
        prices: plan.prices,
        styles: plan.styles,
    };
    budget_of(alloc, plan.asked, plan.items, &job)
}

/// What is asked over any items of which the material is, without rules and budgets.
pub(crate) fn without_rules<M: Maker>(
    alloc: Global,
    asked: &Asked,
    material: &Material,
    maker: &mut M,
) -> Result<Bytes, PlanFault>
    requires day { IsDay material.now.day.0 }
    requires valid { IsValid asked.now.options }
    ensures { (items : List Placed) → IsMaterialOf items material.now
        → spec.Tells material.now.day.0 asked.now.words (M.refusals maker.old)
        (M.refusals maker.new)
        (M.last_refused maker.old) (M.last_refused maker.new)
        (widened (answer_over asked.now material.now.day.0 items material.now.book.now)) spec.Never
        result }
{
    match report_of(alloc, asked, material, maker) {
        Ok(text) => Ok(text),
        Err(fault) => Err(PlanFault::from(fault)),
    }
}

/// What the command answers over a book without a budget.
fn plain_over<M: Maker>(
    alloc: Global,
    plan: &Plan,
    book: &Book,
    maker: &mut M,
) -> Result<Bytes, PlanFault>
    requires { IsPlan plan.now }
    ensures { spec.Tells plan.now.day.0 plan.now.asked.now.words
        (M.refusals maker.old) (M.refusals maker.new) (M.last_refused maker.old)
        (M.last_refused maker.new)
        (reports.plain_over plan.now.asked.now.options plan.now.day.0 plan.now.items.now
        (terms_in plan.now) book.now)
        spec.Never result }
{
    let material = Material {
        book,
        styles: plan.styles,
        types: plan.types,
        prices: plan.prices,
        day: plan.day,
    };
    without_rules(alloc, plan.asked, &material, maker)
}

/// The report over a book.
fn report_over<M: Maker>(
    alloc: Global,
    plan: &Plan,
    book: &Book,
    maker: &mut M,
) -> Result<Bytes, PlanFault>
    requires { IsPlan plan.now }
    ensures { spec.Tells plan.now.day.0 plan.now.asked.now.words
        (M.refusals maker.old) (M.refusals maker.new) (M.last_refused maker.old)
        (M.last_refused maker.new)
        (reports.report_on plan.now.asked.now.options.budget plan.now.asked.now.options
        plan.now.day.0
        plan.now.items.now (terms_in plan.now) book.now)
        spec.Never result }
{
    if plan.asked.options.budget {
        budget_over(alloc, plan, book)
    } else {
        plain_over(alloc, plan, book, maker)
    }
}

/// The report over a book with what automated rules add to it.
fn with_rules<M: Maker>(
    alloc: Global,
    plan: &Plan,
    book: &Book,
    maker: &mut M,
) -> Result<Bytes, PlanFault>
    requires { IsPlan plan.now }
    ensures { spec.TellsRuled plan.now true book.now
        (M.refusals maker.old) (M.refusals maker.new) (M.last_refused maker.old)
        (M.last_refused maker.new) result }
{
    match with_auto(alloc, plan.items, book, plan.day, maker) {
        Ok(made) => report_over(alloc, plan, &made, maker),
        Err(fault) => Err(PlanFault::from(fault)),
    }
}

/// The same, where these are asked for.
fn after_forecast<M: Maker>(
    alloc: Global,
    plan: &Plan,
    book: &Book,
    maker: &mut M,
) -> Result<Bytes, PlanFault>
    requires { IsPlan plan.now }
    ensures { spec.TellsRuled plan.now plan.now.asked.now.options.auto book.now
        (M.refusals maker.old) (M.refusals maker.new) (M.last_refused maker.old)
        (M.last_refused maker.new) result }
{
    if plan.asked.options.auto {
        with_rules(alloc, plan, book, maker)
    } else {
        report_over(alloc, plan, book, maker)
    }
}

/// The window of a forecast that is asked for.
fn window_in(plan: &Plan, asked: Period, book: &Book) -> Span
    requires plan { IsPlan plan.now }
    requires asked { IsPeriod asked }
    ensures window { result ≡ window_of asked (given_in plan.now) book.now.txns plan.now.day.0 }
    ensures first { 1 ≤ result.from }
    ensures last { result.end ≤ day_end }
{
    forecast_window(
        asked,
        given_bounds(&plan.asked.options, plan.query),
        book,
        plan.day,
    )
}

/// The report over a book with a forecast, and with what automated rules add to both.
fn with_forecast<M: Maker>(
    alloc: Global,
    plan: &Plan,
    asked: Period,
    book: &Book,
    maker: &mut M,
) -> Result<Bytes, PlanFault>
    requires plan { IsPlan plan.now }
    requires asked { IsPeriod asked }
    ensures { spec.TellsPlanned plan.now (Some asked) book.now
        (M.refusals maker.old) (M.refusals maker.new) (M.last_refused maker.old)
        (M.last_refused maker.new) result }
{
    let window = window_in(plan, asked, book);
    match forecast(alloc, plan.items, book, window) {
        Ok(made) => after_forecast(alloc, plan, &made, maker),
        Err(fault) => Err(PlanFault::from(fault)),
    }
}

/// The report over the book that rules make of a text's: with a forecast, where one is asked for, and then with what automated
/// rules add, where they are.
pub(crate) fn planned<M: Maker>(
    alloc: Global,
    plan: &Plan,
    book: &Book,
    maker: &mut M,
) -> Result<Bytes, PlanFault>
    requires { IsPlan plan.now }
    ensures { spec.TellsPlanned plan.now plan.now.asked.now.options.forecast book.now
        (M.refusals maker.old) (M.refusals maker.new) (M.last_refused maker.old)
        (M.last_refused maker.new) result }
{
    match plan.asked.options.forecast {
        Some(asked) => with_forecast(alloc, plan, asked, book, maker),
        None => after_forecast(alloc, plan, book, maker),
    }
}
