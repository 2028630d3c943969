//! The day of the system's clock, where the user is.
ghost use Rattle.std.specs.Prelude.{◌≡◌, ◌≤◌};

use hl_time::Day;
use local_day::{Zone, day_in};
use std::rt::Clock;
use std::time::{SystemTime, UNIX_EPOCH};

/// Today in a zone by the system's clock, and the first day where the clock can't be read.
pub(crate) fn today(clock: &impl Clock, zone: &Zone) -> Day
    ensures { (1 ≤ result.0) × (result.0 ≤ 3652059) }
{
    match SystemTime::now(clock) {
        Ok(now) => match now.duration_since(UNIX_EPOCH) {
            Ok(since) => day_in(zone, since.as_secs().min(i64::MAX as u64) as i64),
            Err(_) => Day(1),
        },
        Err(_) => Day(1),
    }
}

/// The system's clock as a worker's, in a zone. It tells no day beforehand.
#[derive(Drop)]
pub struct SystemClock<'a, R> {
    clock: &'a R,
    zone: &'a Zone,
}

impl<'a, R> SystemClock<'a, R> {
    /// The system's clock in a zone.
    pub fn new(clock: &'a R, zone: &'a Zone) -> SystemClock<'a, R> {
        SystemClock { clock, zone }
    }
}

impl<R: Clock> hl_base::Clock for SystemClock<'_, R> {
    ghost use Rattle.std.specs.Prelude.{None};

    ghost always = { λ _. None };

    fn day(&mut self) -> u32 {
        let Day(day) = today(self.clock, self.zone);
        day
    }
}
