//! Time logs: timeclock and timedot texts become transactions of hours.
#![tactic(auto)]

mod amounts;
mod clock_line;
mod days;
mod dot_line;
mod faults;
mod law;
mod moments;
mod quantities;
mod said;
mod sessions;
mod timeclock;
mod timedot;

pub use faults::LogFault;
pub use law::seconds_sum;
pub use timeclock::read_timeclock;
pub use timedot::read_timedot;
