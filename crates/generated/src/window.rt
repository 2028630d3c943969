//! The window of a forecast.
ghost use Rattle.std.specs.Prelude.{◌≡◌, ◌+◌, ◌≤◌, min, unwrap_or};
ghost use Rattle.std.specs.Option.{option_map};
ghost use Rattle.hl_time.specs.Calendar.{IsDay, day_end};
ghost use Rattle.hl_time.specs.Periods.{IsPeriod};
ghost use Rattle.generated.specs.Windows as spec;

use book::{Book, Txn};
use hl_time::{DAY_END, Day, Period, Span};

/// How many days a forecast goes on after today where nothing else ends it.
const DAYS_AHEAD: u32 = 180;

/// The later of two days, where there are two.
fn later_of(one: Option<u32>, other: Option<u32>) -> Option<u32>
    ensures { result ≡ spec.later_of one other }
{
    match one {
        None => other,
        Some(day) => match other {
            None => Some(day),
            Some(other) => Some(day.max(other)),
        },
    }
}

/// The greatest day of some transactions.
fn last_day(txns: &[Txn]) -> Option<u32>
    ensures { result ≡ spec.last_day_of txns.now }
{
    let mut last = None;
    for txn in txns {
        last = later_of(last, Some(txn.day.0));
    }
    last
}

/// The day after the last transaction, if there is one, or the end of all days.
fn after_last(txns: &[Txn]) -> Option<u32>
    ensures { result ≡ option_map spec.day_after (spec.last_day_of txns.now) }
{
    match last_day(txns) {
        Some(day) => Some(day.min(DAY_END - 1) + 1),
        None => None,
    }
}

/// Where a forecast begins that isn't asked to begin on a day.
fn first_else(given: Period, txns: &[Txn], today: Day) -> u32
    ensures { result
        ≡ unwrap_or (spec.later_of given.from
        (option_map spec.day_after (spec.last_day_of txns.now)))
        today.0 }
{
    later_of(given.from, after_last(txns)).unwrap_or(today.0)
}

/// Where a forecast begins.
fn first_day(asked: Period, given: Period, txns: &[Txn], today: Day) -> u32
    ensures { result ≡ spec.first_day asked given txns.now today.0 }
{
    asked.from.unwrap_or(first_else(given, txns, today))
}

/// Where a forecast ends that isn't asked to end on a day.
fn end_else(given: Period, today: Day) -> u32
    requires { IsDay today.0 }
    ensures { result ≡ unwrap_or given.end (min day_end (today.0 + 180)) }
{
    given.end.unwrap_or(DAY_END.min(today.0 + DAYS_AHEAD))
}

/// Where a forecast ends.
fn end_day(asked: Period, given: Period, today: Day) -> u32
    requires { IsDay today.0 }
    ensures { result ≡ spec.end_day asked given today.0 }
{
    asked.end.unwrap_or(end_else(given, today))
}

/// The window within which a forecast makes transactions, by the period that is asked for, the bounds that a report is given
/// and the day of today. It begins where it is asked to; else at the later of the report's beginning and the day after the
/// book's last transaction, or at the one of these that there is; else today. It ends where it is asked to, else at the
/// report's end, else 180 days after today or with the calendar.
pub fn forecast_window(asked: Period, given: Period, book: &Book, today: Day) -> Span
    requires asked { IsPeriod asked }
    requires given { IsPeriod given }
    requires today { IsDay today.0 }
    ensures window { result ≡ spec.window_of asked given book.now.txns today.0 }
    ensures first { 1 ≤ result.from }
    ensures last { result.end ≤ day_end }
{
    Span {
        from: first_day(asked, given, book.txns.as_slice(), today),
        end: end_day(asked, given, today),
    }
}
