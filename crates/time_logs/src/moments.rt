//! Moments: a day with a time of day.
ghost use Rattle.std.specs.Prelude.{◌≡◌, ◌<◌, IfSome};
ghost use Rattle.hl_time.specs.Calendar.{IsDay};
ghost use Rattle.time_logs.specs.Bounds.{IsMoment};
ghost use Rattle.time_logs.specs.Moments as spec;

use hl_base::is_digit;
use hl_time::{Day, read_date};
use std::marker::Model;

/// A moment on a day of the calendar. Contracts see the seconds from 0001-01-01 00:00 on.
#[derive(Clone, Copy)]
pub struct Moment {
    second: u64,
}

impl Model for Moment {
    ghost use Rattle.std.specs.Prelude.{ℕ};
    ghost use Rattle.time_logs.specs.Bounds.{IsMoment};

    ghost Value = { ℕ };

    ghost view = { λ m. m.second };

    ghost invariant = { λ m. IsMoment m.second };

    ghost inverse = { λ v. record { second = v } };
}

impl Moment {
    /// The moment at a second of a day.
    pub fn new(day: Day, seconds: u32) -> Moment
        requires day { IsDay day.0 }
        requires seconds { seconds < 86400 }
        ensures { result ≡ spec.moment_at day seconds }
    {
        Moment {
            second: 86_400 * u64::from(day.0 - 1) + u64::from(seconds),
        }
    }

    /// The seconds before it.
    pub fn second(self) -> u64
        ensures value { result ≡ self }
        ensures bound { IsMoment result }
    {
        self.second
    }
}

/// The number of two digits.
#[tactic(auto, unfolding(crate::specs::Moments::pair_of))]
fn pair_of(tens: u8, ones: u8) -> Option<u32>
    ensures { result ≡ spec.pair_of tens ones }
{
    if is_digit(tens) && is_digit(ones) {
        Some(10 * u32::from(tens - b'0') + u32::from(ones - b'0'))
    } else {
        None
    }
}

/// The seconds of a day before a time below 24:00.
#[tactic(auto, unfolding(crate::specs::Moments::seconds_of))]
fn seconds_of(hour: u32, minute: u32, second: u32) -> Option<u32>
    ensures value { result ≡ spec.seconds_of hour minute second }
    ensures bound { IfSome result (λ seconds. seconds < 86400) }
{
    if hour < 24 && minute < 60 && second < 60 {
        Some(3600 * hour + 60 * minute + second)
    } else {
        None
    }
}

/// The seconds before the time that these digits write.
#[tactic(auto, unfolding(crate::specs::Moments::clock))]
fn clock(hour: (u8, u8), minute: (u8, u8), second: (u8, u8)) -> Option<u32>
    ensures value { result ≡ spec.clock hour minute second }
    ensures bound { IfSome result (λ seconds. seconds < 86400) }
{
    let hour = pair_of(hour.0, hour.1)?;
    let minute = pair_of(minute.0, minute.1)?;
    let second = pair_of(second.0, second.1)?;
    seconds_of(hour, minute, second)
}

/// The seconds of a day before the time `H:M` or `H:M:S` that a text is, with two digits each.
#[tactic(auto, unfolding(crate::specs::Moments::time_of))]
fn time_of(text: &[u8]) -> Option<u32>
    ensures value { result ≡ spec.time_of text.now }
    ensures bound { IfSome result (λ seconds. seconds < 86400) }
{
    match text {
        [a, b, first, c, d] => {
            if *first == b':' {
                clock((*a, *b), (*c, *d), (b'0', b'0'))
            } else {
                None
            }
        }
        [a, b, first, c, d, second, e, f] => {
            if *first == b':' && *second == b':' {
                clock((*a, *b), (*c, *d), (*e, *f))
            } else {
                None
            }
        }
        _ => None,
    }
}

/// The day that a text is, with its year.
#[tactic(auto, unfolding(crate::specs::Moments::day_of))]
pub fn day_of(text: &[u8]) -> Option<Day>
    ensures day { result ≡ spec.day_of text.now }
    ensures range { IfSome result (λ day. IsDay day.0) }
{
    match read_date(text, None) {
        Ok(day) => Some(day),
        Err(_) => None,
    }
}

/// The moment that a day and a time write.
#[tactic(auto, unfolding(crate::specs::Moments::moment_of))]
pub fn moment_of(day: &[u8], time: &[u8]) -> Option<Moment>
    ensures { result ≡ spec.moment_of day.now time.now }
{
    let day = day_of(day)?;
    let seconds = time_of(time)?;
    Some(Moment::new(day, seconds))
}
