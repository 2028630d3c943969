//! What the requests of a connection may do, and when they come.

use desk::Allow;
use hl_time::Day;

/// What the requests of a connection may do, and the day on which they come.
#[derive(Clone, Copy)]
pub struct Terms {
    pub allow: Allow,
    pub day: Day,
}
