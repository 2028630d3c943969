//! The days on which what has a start and an interval occurs.
ghost use Rattle.std.specs.Prelude.{◌≡◌, ◌+◌, ◌<◌, ◌^◌};
ghost use Rattle.hl_time.specs.Calendar as calendar;
ghost use Rattle.hl_time.specs.Calendar.{IsDay};
ghost use Rattle.hl_time.specs.Units as spec;

use crate::day::{Day, civil_of, day_of};
use crate::spans::{Interval, Unit};
use crate::units::{ALL_MONTHS, DAY_END, month_index};

fn is_leap_year(year: u16) -> bool
    ensures { result ≡ calendar.is_leap_year year }
{
    year % 4 == 0 && (year % 100 != 0 || year % 400 == 0)
}

fn month_length(year: u16, month: u8) -> u8
    ensures { result ≡ calendar.month_length year month }
{
    if month == 2 {
        return if is_leap_year(year) { 29 } else { 28 };
    }
    if month == 4 || month == 6 || month == 9 || month == 11 {
        30
    } else {
        31
    }
}

#[tactic(auto, unfolding(crate::specs::Units::day_within))]
fn days_on(day: Day, days: u64) -> Option<Day>
    requires first { IsDay day.0 }
    requires small { days < 2 ^ 60 }
    ensures { result ≡ spec.day_within (day.0 + days) }
{
    let found = u64::from(day.0) + days;
    if found < u64::from(DAY_END) {
        Some(Day(found as u32))
    } else {
        None
    }
}

#[tactic(auto, unfolding(crate::specs::Units::day_within, crate::specs::Units::months_on))]
fn months_on(day: Day, months: u64) -> Option<Day>
    requires first { IsDay day.0 }
    requires small { months < 2 ^ 60 }
    ensures { result ≡ spec.day_within (spec.months_on day.0 months) }
{
    let date = civil_of(day);
    let index = u64::from(month_index(day)) + months;
    if index >= u64::from(ALL_MONTHS) {
        return None;
    }
    let year = (index / 12 + 1) as u16;
    let month = (index % 12 + 1) as u8;
    day_of(year, month, date.day.min(month_length(year, month)))
}

/// The day so many intervals on from a start, in a month that hasn't its day the month's last; none past 9999-12-31.
#[tactic(auto, unfolding(crate::specs::Units::occurrence))]
pub fn occurrence(start: Day, interval: Interval, count: u32) -> Option<Day>
    requires { IsDay start.0 }
    ensures { result ≡ spec.day_within (spec.occurrence start.0 interval count) }
{
    let steps = u64::from(interval.n) * u64::from(count);
    match interval.unit {
        Unit::Day => days_on(start, steps),
        Unit::Week => days_on(start, 7 * steps),
        Unit::Month => months_on(start, steps),
        Unit::Quarter => months_on(start, 3 * steps),
        Unit::Year => months_on(start, 12 * steps),
    }
}
