//! What day it is.
ghost use Rattle.std.specs.Prelude.{◌≡◌, ◌≤◌, ℕ, Option, Some, IfSome};

/// Says what day it is, counted from 1 January of the year 1, which is day 1, to 31 December 9999.
pub trait Clock {
    /// The one day that it always answers, if it has one.
    ghost always: { Self → Option ℕ };

    /// Today, a day from 1 to 3,652,059.
    fn day(&mut self) -> u32
        ensures first { 1 ≤ result }
        ensures last { result ≤ 3652059 }
        ensures told { IfSome (always self.old) (λ day. result ≡ day) }
        ensures always { always self.new ≡ always self.old };
}

/// A clock that stands still.
#[derive(Clone, Copy, Debug)]
pub struct MemClock {
    day: u32,
    ghost first: { 1 ≤ day },
    ghost last: { day ≤ 3652059 },
}

impl MemClock {
    /// A clock that always answers this day.
    pub fn new(day: u32) -> MemClock
        requires first { 1 ≤ day }
        requires last { day ≤ 3652059 }
        ensures { ⟦<MemClock as Clock>⟧.always result ≡ Some day }
    {
        MemClock { day }
    }
}

impl Clock for MemClock {
    ghost use Rattle.std.specs.Prelude.{Some};

    ghost always = { λ c. Some c.day };

    fn day(&mut self) -> u32 {
        self.day
    }
}
