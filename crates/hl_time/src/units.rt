//! Units of the calendar, each kind numbered from the one that begins on 0001-01-01, which is unit 0.
ghost use Rattle.std.specs.Prelude.{◌≡◌, ◌<◌, ◌^◌, nat_le, if◌then◌else◌};
ghost use Rattle.hl_time.specs.Calendar.{IsDay, day_end};
ghost use Rattle.hl_time.specs.Split as split;
ghost use Rattle.hl_time.specs.Units as spec;

use crate::day::{Day, civil_of, day_of};
use crate::spans::Unit;

/// The end of all days, exclusive: the day after 9999-12-31.
pub const DAY_END: u32 = 3_652_060;

/// The months of all years.
pub(crate) const ALL_MONTHS: u32 = 119_988;

#[tactic(auto, unfolding(crate::specs::Units::month_index))]
pub(crate) fn month_index(day: Day) -> u32
    requires { IsDay day.0 }
    ensures index { result ≡ spec.month_index day.0 }
    ensures within { result < 119988 }
{
    let date = civil_of(day);
    12 * (u32::from(date.year) - 1) + (u32::from(date.month) - 1)
}

/// The unit that holds a day.
#[tactic(auto, unfolding(crate::specs::Units::unit_of))]
pub fn unit_of(unit: Unit, day: Day) -> u32
    requires { IsDay day.0 }
    ensures index { result ≡ spec.unit_of unit day.0 }
    ensures within { result < day_end }
{
    match unit {
        Unit::Day => day.0 - 1,
        Unit::Week => (day.0 - 1) / 7,
        Unit::Month => month_index(day),
        Unit::Quarter => month_index(day) / 3,
        Unit::Year => month_index(day) / 12,
    }
}

/// The first day of a month, if it begins by the end of all days.
#[tactic(auto, unfolding(crate::specs::Units::month_start))]
fn month_start(months: u32) -> Option<u32>
    ensures { result ≡ (if nat_le (spec.month_start months) day_end then Some
        (spec.month_start months) else None) }
{
    if months > ALL_MONTHS {
        return None;
    }
    if months == ALL_MONTHS {
        return Some(DAY_END);
    }
    let day = day_of((months / 12 + 1) as u16, (months % 12 + 1) as u8, 1).unwrap();
    Some(day.0)
}

fn up_to_end(day: u32) -> Option<u32>
    ensures { result ≡ (if nat_le day day_end then Some day else None) }
{
    if day <= DAY_END { Some(day) } else { None }
}

/// The first day of a unit, if it begins by the end of all days.
#[tactic(auto, unfolding(crate::specs::Units::start_within, crate::specs::Units::unit_start))]
pub fn start_within(unit: Unit, index: u32) -> Option<u32>
    requires { index < 2 ^ 24 }
    ensures { result ≡ spec.start_within unit index }
{
    match unit {
        Unit::Day => up_to_end(index + 1),
        Unit::Week => up_to_end(7 * index + 1),
        Unit::Month => month_start(index),
        Unit::Quarter => month_start(3 * index),
        Unit::Year => month_start(12 * index),
    }
}

/// The first day of a unit, and the end of all days for a unit that begins past them.
#[tactic(auto, unfolding(crate::specs::Units::start_within, crate::specs::Split::begins))]
pub fn begins(unit: Unit, index: u32) -> u32
    requires { index < 2 ^ 24 }
    ensures { result ≡ split.begins unit index }
{
    match start_within(unit, index) {
        Some(start) => start,
        None => DAY_END,
    }
}
