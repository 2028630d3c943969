//! Spans of days, units of the calendar, intervals and periods.

/// The days from `from` up to `end`, which is exclusive, by their numbers.
#[derive(Clone, Copy, Debug, PartialEq, Eq)]
pub struct Span {
    pub from: u32,
    pub end: u32,
}

/// A unit of the calendar. Weeks begin on Monday.
#[derive(Clone, Copy, Debug, PartialEq, Eq)]
pub enum Unit {
    Day,
    Week,
    Month,
    Quarter,
    Year,
}

/// So many units, at least one.
#[derive(Clone, Copy, Debug, PartialEq, Eq)]
pub struct Interval {
    pub unit: Unit,
    pub n: u16,
}

/// The bounds that a period gives, the end exclusive, and its interval.
#[derive(Clone, Copy, Debug, PartialEq, Eq)]
pub struct Period {
    pub from: Option<u32>,
    pub end: Option<u32>,
    pub interval: Option<Interval>,
}
