//! The bounds of a report.
ghost use Rattle.std.specs.Prelude.{◌≡◌, IfOk};
ghost use Rattle.hl_time.specs.Periods.{IsPeriod};
ghost use Rattle.query.specs.Matching.{dates_in};
ghost use Rattle.plan_commands.specs.Bounds as spec;

use hl_base::{Memory, Text};
use hl_time::Period;
use query::{Query, earlier, later};
use report_options::{Options, Valuation};
use std::alloc::Global;

/// Bounds, narrowed by the days of a query.
#[tactic(auto, using(crate::proofs::Narrowing::later_within, crate::proofs::Narrowing::least_within))]
fn narrowed(bounds: Period, dates: Period) -> Period
    requires bounds { IsPeriod bounds }
    requires dates { IsPeriod dates }
    ensures given { result ≡ spec.narrowed bounds dates }
    ensures period { IsPeriod result }
{
    Period {
        from: later(bounds.from, dates.from),
        end: earlier(bounds.end, dates.end),
        interval: None,
    }
}

/// The bounds that a report is given: by its options, and by the terms of days of its query outside `not:`.
pub(crate) fn given_bounds(options: &Options, query: &Query) -> Period
    requires options { IsPeriod options.now.bounds }
    requires query { IsPeriod (dates_in query.now.terms.items) }
    ensures given { result ≡ spec.given_bounds options.now (dates_in query.now.terms.items) }
    ensures period { IsPeriod result }
{
    narrowed(options.bounds, query.dates())
}

/// The same symbol, if there is one.
fn copied_target(alloc: Global, target: &Option<Text>) -> Result<Option<Text>, Memory>
    ensures { IfOk result (λ copy. copy ≡ target.now) }
{
    match target {
        Some(target) => Ok(Some(Text::copied(alloc, target.as_str())?)),
        None => Ok(None),
    }
}

/// The same way to value amounts, if there is one.
fn copied_value(alloc: Global, value: &Option<Valuation>) -> Result<Option<Valuation>, Memory>
    ensures { IfOk result (λ copy. copy ≡ value.now) }
{
    match value {
        Some(worth) => {
            let target = copied_target(alloc, &worth.target)?;
            Ok(Some(Valuation {
                when: worth.when,
                target,
            }))
        }
        None => Ok(None),
    }
}

/// The same options with other bounds.
pub(crate) fn with_bounds(
    alloc: Global,
    options: &Options,
    bounds: Period,
) -> Result<Options, Memory>
    ensures { IfOk result (λ made. made ≡ spec.with_bounds options.now bounds) }
{
    let value = copied_value(alloc, &options.value)?;
    Ok(Options {
        command: options.command,
        bounds,
        unmarked: options.unmarked,
        pending: options.pending,
        cleared: options.cleared,
        real_only: options.real_only,
        empty: options.empty,
        depth: options.depth,
        cost: options.cost,
        value,
        auto: options.auto,
        forecast: options.forecast,
        start: options.start,
        tree: options.tree,
        average: options.average,
        row_total: options.row_total,
        no_total: options.no_total,
        sort_amount: options.sort_amount,
        budget: options.budget,
        explicit: options.explicit,
    })
}
