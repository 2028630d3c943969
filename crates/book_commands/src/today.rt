//! The day of a run.

use hl_time::Day;

/// The day that is handed in, and the year of the dates of a text that have none; without one such dates don't read.
#[derive(Clone, Copy)]
pub struct Today {
    pub day: Day,
    pub year: Option<u16>,
}
