//! The days on which the columns of a report are valued.
ghost use Rattle.std.specs.Prelude.{◌≡◌, IfOk, map};
ghost use Rattle.std.specs.Option.{option_map};
ghost use Rattle.report_values.specs.Days as spec;

use book::Txn;
use hl_base::Memory;
use hl_time::{Day, Span};
use prices::Prices;
use report_options::When;
use std::alloc::Global;

/// What decides on which days a report is valued: whether it has an interval or an end that is given, by an option or
/// by a term of its query; the transactions of its book, the prices of its text, and the day that is handed in.
#[derive(Clone, Copy)]
pub struct Asked<'a> {
    pub is_bounded: bool,
    pub txns: &'a [Txn],
    pub prices: &'a Prices,
    pub day: Day,
}

/// The later of two days, or the one that is there.
fn later(a: Option<u32>, b: Option<u32>) -> Option<u32>
    ensures { result ≡ spec.later a b }
{
    match a {
        None => b,
        Some(day) => match b {
            None => Some(day),
            Some(other) => Some(day.max(other)),
        },
    }
}

/// The greatest day of some transactions.
fn greatest_txn(txns: &[Txn]) -> Option<u32>
    ensures { result ≡ spec.greatest_txn txns.now }
{
    let mut greatest = None;
    for txn in txns {
        greatest = later(greatest, Some(txn.day.0));
    }
    greatest
}

/// The greatest day of some prices.
fn greatest_price(prices: &Prices) -> Option<u32>
    ensures { result ≡ spec.greatest_price prices.now }
{
    match prices.last_day() {
        Some(day) => Some(day.0),
        None => None,
    }
}

/// The greatest day of the transactions and the prices.
fn greatest_day(asked: &Asked) -> u32
    ensures { result ≡ spec.greatest_day (spec.dated_of asked.now) }
{
    later(greatest_txn(asked.txns), greatest_price(asked.prices)).unwrap_or(asked.day.0)
}

/// The last day of a span, and of one without days its first.
fn last_day(span: Span) -> u32
    ensures { result ≡ spec.last_day span }
{
    if span.from < span.end {
        span.end - 1
    } else {
        span.from
    }
}

/// The day on which a column is valued, where the greatest day of all is known.
fn day_with(asked: &Asked, when: When, greatest: u32, column: Span) -> Day
    requires { greatest ≡ spec.greatest_day (spec.dated_of asked.now) }
    ensures { result ≡ spec.day_of (spec.dated_of asked.now) when column }
{
    match when {
        When::Now => asked.day,
        When::On(day) => day,
        When::Cost | When::Then | When::End => Day(end_day(asked, greatest, column)),
    }
}

/// The day of a column's end, where the greatest day of all is known.
fn end_day(asked: &Asked, greatest: u32, column: Span) -> u32
    requires { greatest ≡ spec.greatest_day (spec.dated_of asked.now) }
    ensures { result ≡ spec.end_day (spec.dated_of asked.now) column }
{
    if asked.is_bounded {
        last_day(column)
    } else {
        greatest
    }
}

/// The day on which a column is valued, as `days_of` says.
pub fn day_of(asked: &Asked, when: When, column: Span) -> Day
    ensures { result ≡ spec.day_of (spec.dated_of asked.now) when column }
{
    day_with(asked, when, greatest_day(asked), column)
}

/// The days on which columns are valued. `now` is the day that is handed in, a date is that day, and all others mean
/// the last day of the column, or the greatest day of all where the report isn't bounded.
pub fn days_of(
    alloc: Global,
    asked: &Asked,
    when: When,
    columns: &[Span],
) -> Result<Vec<Day>, Memory>
    ensures { IfOk result (λ days.
        days.items ≡ map (spec.day_of (spec.dated_of asked.now) when) columns.now) }
{
    let greatest = greatest_day(asked);
    let mut days = Vec::with_capacity(alloc, columns.len())?;
    for column in columns {
        days.push(day_with(asked, when, greatest, *column))?;
    }
    Ok(days)
}
