//! What the options of a report say.
use crate::command::Command;
use hl_base::Text;
use hl_time::{Day, Period};

/// The day by whose prices amounts are valued.
#[derive(Clone, Copy, Debug, PartialEq, Eq)]
pub enum When {
    /// At cost.
    Cost,
    /// On the day of each posting.
    Then,
    /// On the last day of each column.
    End,
    /// On the day of the report.
    Now,
    On(Day),
}

/// How amounts are valued: by the prices of a day, in a symbol or in the one that is usual.
#[derive(Debug, Drop)]
pub struct Valuation {
    pub when: When,
    pub target: Option<Text>,
}

/// Where sums begin: with each column, with the first one, or before all.
#[derive(Clone, Copy, Debug, PartialEq, Eq)]
pub enum Start {
    Change,
    Cumulative,
    Historical,
}

/// What the options of a report say.
#[derive(Debug, Drop)]
pub struct Options {
    pub command: Command,
    /// The bounds of the report, and the interval of its columns.
    pub bounds: Period,
    pub unmarked: bool,
    pub pending: bool,
    pub cleared: bool,
    pub real_only: bool,
    pub empty: bool,
    pub depth: Option<u64>,
    pub cost: bool,
    pub value: Option<Valuation>,
    pub auto: bool,
    /// Without a period, one that gives nothing.
    pub forecast: Option<Period>,
    pub start: Start,
    pub tree: bool,
    pub average: bool,
    pub row_total: bool,
    pub no_total: bool,
    pub sort_amount: bool,
    pub budget: bool,
    pub explicit: bool,
}
