//! The days on which a rule occurs within a window.
ghost use Rattle.std.specs.Prelude.{◌≡◌, ◌+◌, ◌-◌, ◌<◌, ◌≤◌, ◌^◌, nat_le, nat_lt, [], ◌∷◌, filter};
ghost use Rattle.std.specs.Option.{option_to_list};
ghost use Rattle.hl_time.specs.Calendar.{IsDay, day_end};
ghost use Rattle.hl_time.specs.Units as units;
ghost use Rattle.rule_entries.specs.Occurring as spec;
ghost use Rattle.rule_entries.specs.Occurring.{AreDays, Halved, IsCountAt};

use hl_time::{DAY_END, Day, Interval, Period, Span, Unit, begins, occurrence, unit_of};

/// The last day of the calendar.
const LAST_DAY: u32 = 3_652_059;

/// Days that an interval leads to, told by their counts: so many from a first one on.
#[derive(Clone, Copy, Debug)]
pub struct Occasions {
    start: Day,
    interval: Interval,
    first: u32,
    count: u32,
}

impl Occasions {
    /// How many days there are.
    pub fn count(self) -> u32
        ensures { result ≡ self.count }
    {
        self.count
    }

    /// The day at a place.
    #[tactic(auto, unfolding(hl_time::specs::Units::day_within))]
    pub(crate) fn day_at(self, at: u32) -> Day
        requires start { IsDay self.start.0 }
        requires small { self.first + at < 2 ^ 32 }
        requires day { IsDay (units.occurrence self.start.0 self.interval (self.first + at)) }
        ensures { result.0 ≡ units.occurrence self.start.0 self.interval (self.first + at) }
    {
        match occurrence(self.start, self.interval, self.first + at) {
            Some(day) => day,
            None => unreachable!(),
        }
    }
}

/// No days.
fn never() -> Occasions
    ensures seen { spec.days_seen result ≡ [] }
    ensures days { AreDays result }
{
    Occasions {
        start: Day(1),
        interval: Interval {
            unit: Unit::Day,
            n: 1,
        },
        first: 0,
        count: 0,
    }
}

/// One day.
fn once(day: Day) -> Occasions
    requires { IsDay day.0 }
    ensures seen { spec.days_seen result ≡ day.0 ∷ [] }
    ensures days { AreDays result }
{
    Occasions {
        start: day,
        interval: Interval {
            unit: Unit::Day,
            n: 1,
        },
        first: 0,
        count: 1,
    }
}

/// The later of a day and another, if there is one.
fn later(day: u32, other: Option<u32>) -> u32
    ensures day { result ≡ spec.later day other }
    ensures least { day ≤ result }
{
    match other {
        Some(other) => day.max(other),
        None => day,
    }
}

/// The earlier of a day and another, if there is one.
fn earlier(day: u32, other: Option<u32>) -> u32
    ensures day { result ≡ spec.earlier day other }
    ensures most { result ≤ day }
{
    match other {
        Some(other) => day.min(other),
        None => day,
    }
}

/// A window, narrowed by the bounds of a period.
fn narrowed(period: Period, window: Span) -> Span
    ensures span { result ≡ spec.narrowed period window }
    ensures first { window.from ≤ result.from }
    ensures last { result.end ≤ window.end }
{
    Span {
        from: later(window.from, period.from),
        end: earlier(window.end, period.end),
    }
}

/// The first beginning of a unit that isn't before a day, or the end of all days.
#[tactic(auto, unfolding(crate::specs::Occurring::first_beginning))]
fn first_beginning(unit: Unit, day: Day) -> u32
    requires { IsDay day.0 }
    ensures { result ≡ spec.first_beginning unit day.0 }
{
    let index = unit_of(unit, day);
    let start = begins(unit, index);
    if start == day.0 {
        return start;
    }
    begins(unit, index + 1)
}

/// Whether the day that comes so many intervals after a start is before another.
#[tactic(auto, unfolding(hl_time::specs::Units::day_within))]
fn is_before(start: Day, interval: Interval, count: u32, day: u32) -> bool
    requires start { IsDay start.0 }
    requires day { day ≤ day_end }
    ensures { result ≡ nat_lt (units.occurrence start.0 interval count) day }
{
    match occurrence(start, interval, count) {
        Some(found) => found.0 < day,
        None => false,
    }
}

/// The half of some counts in which the first day comes that isn't before another.
fn half(start: Day, interval: Interval, day: u32, low: u32, high: u32) -> (u32, u32)
    requires start { IsDay start.0 }
    requires day { day ≤ day_end }
    requires halved { Halved start.0 interval day low high }
    requires some { low < high }
    ensures halved { Halved start.0 interval day result.0 result.1 }
    ensures lesser { result.1 - result.0 < high - low }
{
    let middle = low + (high - low) / 2;
    if is_before(start, interval, middle, day) {
        (middle + 1, high)
    } else {
        (low, middle)
    }
}

/// How many intervals after a start the first day comes that isn't before another.
fn count_to(start: Day, interval: Interval, day: u32) -> u32
    requires start { IsDay start.0 }
    requires day { day ≤ day_end }
    ensures { IsCountAt start.0 interval day result }
{
    let mut low = 0;
    let mut high = DAY_END;
    while low < high {
        let halved = half(start, interval, day, low, high);
        low = halved.0;
        high = halved.1;
    }
    low
}

/// Whether a number is that of a day of the calendar.
fn is_day(day: u32) -> bool
    ensures { result ≡ spec.is_day day }
{
    1 <= day && day <= LAST_DAY
}

/// The days in a span that come so many intervals after a day.
fn between(start: Day, interval: Interval, span: Span) -> Occasions
    requires start { IsDay start.0 }
    requires first { 1 ≤ span.from }
    requires some { span.from < span.end }
    requires last { span.end ≤ day_end }
    ensures seen { spec.days_seen result
        ≡ filter (spec.lies_in span) (spec.recurring interval start.0) }
    ensures days { AreDays result }
{
    let first = count_to(start, interval, span.from);
    let after = count_to(start, interval, span.end);
    let count = after - first;
    Occasions {
        start,
        interval,
        first,
        count,
    }
}

/// The days in a span that come so many intervals after a start.
fn recurring(start: u32, interval: Interval, span: Span) -> Occasions
    requires first { 1 ≤ span.from }
    requires some { span.from < span.end }
    requires last { span.end ≤ day_end }
    ensures seen { spec.days_seen result
        ≡ filter (spec.lies_in span) (spec.recurring interval start) }
    ensures days { AreDays result }
{
    if !is_day(start) {
        return never();
    }
    between(Day(start), interval, span)
}

/// The day that a rule counts from.
fn counted_from(period: Period, unit: Unit, span: Span) -> u32
    requires { IsDay span.from }
    ensures { result ≡ spec.counted_from period unit span }
{
    match period.from {
        Some(day) => day,
        None => first_beginning(unit, Day(span.from)),
    }
}

/// Whether a day lies in a span.
fn lies_in(span: Span, day: u32) -> bool
    ensures { result ≡ spec.lies_in span day }
{
    span.from <= day && day < span.end
}

/// A day, if it lies in a span.
fn once_in(day: u32, span: Span) -> Occasions
    requires first { 1 ≤ span.from }
    requires last { span.end ≤ day_end }
    ensures seen { spec.days_seen result ≡ filter (spec.lies_in span) (day ∷ []) }
    ensures days { AreDays result }
{
    if lies_in(span, day) {
        return once(Day(day));
    }
    never()
}

/// The days of a rule without an interval in a span: its start, if that lies in it.
fn alone(start: Option<u32>, span: Span) -> Occasions
    requires first { 1 ≤ span.from }
    requires last { span.end ≤ day_end }
    ensures seen { spec.days_seen result ≡ filter (spec.lies_in span) (option_to_list start) }
    ensures days { AreDays result }
{
    match start {
        Some(day) => once_in(day, span),
        None => never(),
    }
}

/// Whether a span has no day.
fn has_no_day(span: Span) -> bool
    ensures { result ≡ nat_le span.end span.from }
{
    span.end <= span.from
}

/// The days on which a rule of a period occurs within a window: in the window and in the period, its start alone, or with
/// an interval the start and what comes so many intervals after it, in a month that hasn't its day on the month's last. A
/// rule without a start counts from the first beginning of its unit there, and has no days without an interval either.
pub fn occasions_in(period: Period, window: Span) -> Occasions
    requires first { 1 ≤ window.from }
    requires last { window.end ≤ day_end }
    ensures seen { spec.days_seen result ≡ spec.days_of period window }
    ensures days { AreDays result }
{
    let span = narrowed(period, window);
    if has_no_day(span) {
        return never();
    }
    match period.interval {
        Some(interval) => recurring(counted_from(period, interval.unit, span), interval, span),
        None => alone(period.from, span),
    }
}
