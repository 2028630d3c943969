//! Transactions under days.

use hl_time::Day;

/// A day, and the number of a transaction that has a posting on it. Numbers count from 0, in the
/// order of the text.
#[derive(Clone, Copy, Debug, PartialEq, Eq)]
pub struct OnDay {
    pub day: Day,
    pub number: usize,
}
