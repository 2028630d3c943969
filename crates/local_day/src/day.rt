//! The day that a clock of a zone shows at an instant.
ghost use Rattle.std.specs.Prelude.{◌≡◌, ◌≤ℤ◌, pos, neg_ℤ};
ghost use Rattle.hl_time.specs.Calendar.{IsDay};
ghost use Rattle.jiff_core.specs.Timestamp.{nanos_of_seconds};
ghost use Rattle.local_day.specs.LocalDay as spec;

use crate::zone::Zone;
use hl_time::Day;
use jiff_core::{Offset, Timestamp};

/// The first second since 1970 that has a local time in every zone.
const FIRST_SECOND: i64 = -377_705_023_201;

/// The last one.
const LAST_SECOND: i64 = 253_402_207_200;

/// The seconds from the beginning of 0001-01-01 to that of 1970-01-01.
const BEFORE_1970: i128 = 62_135_596_800;

/// The day number of 9999-12-31.
const LAST_DAY: u128 = 3_652_059;

/// A second within the bounds, or the nearer bound.
fn bounded(seconds: i64) -> i64
    ensures value { result ≡ spec.bounded seconds }
    ensures first { neg_ℤ (pos 377705023201) ≤ℤ result }
    ensures last { result ≤ℤ pos 253402207200 }
{
    if seconds < FIRST_SECOND {
        FIRST_SECOND
    } else if LAST_SECOND < seconds {
        LAST_SECOND
    } else {
        seconds
    }
}

/// The instant of a second, or of the nearer bound.
fn instant_of(seconds: i64) -> Timestamp
    ensures { result.nanosecond ≡ nanos_of_seconds (spec.bounded seconds) }
{
    Timestamp {
        nanosecond: i128::from(bounded(seconds)) * 1_000_000_000,
    }
}

/// The day that a clock shows which is that many seconds past the beginning of 1970.
fn day_shown(clock: i128) -> Day
    requires first { neg_ℤ (pos 9223372036854869407) ≤ℤ clock }
    requires last { clock ≤ℤ pos 9223372036854869406 }
    ensures day { result.0 ≡ spec.day_shown clock }
    ensures range { IsDay result.0 }
{
    let since = clock + BEFORE_1970;
    if since < 0 {
        return Day(1);
    }
    let day = since as u128 / 86_400 + 1;
    Day(day.min(LAST_DAY) as u32)
}

/// How far a zone's clock is ahead of UTC at a second.
fn offset_of(zone: &Zone, seconds: i64) -> Offset
    ensures { result.seconds ≡ spec.offset_at zone.now (nanos_of_seconds (spec.bounded seconds)) }
{
    zone.offset_at(instant_of(seconds))
}

/// What a clock of a zone shows, in seconds past the beginning of 1970.
fn clock_at(zone: &Zone, seconds: i64) -> i128
    ensures value { result ≡ spec.clock_at zone.now seconds }
    ensures first { neg_ℤ (pos 9223372036854869407) ≤ℤ result }
    ensures last { result ≤ℤ pos 9223372036854869406 }
{
    i128::from(seconds) + i128::from(offset_of(zone, seconds).seconds)
}

/// The day in a zone, that many seconds after the beginning of 1970 in UTC: day 1 before 0001-01-01, and the last day after
/// 9999-12-31.
pub fn day_in(zone: &Zone, seconds: i64) -> Day
    ensures day { result.0 ≡ spec.day_in zone.now seconds }
    ensures range { IsDay result.0 }
{
    day_shown(clock_at(zone, seconds))
}
