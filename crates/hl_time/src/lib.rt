//! Civil days, written dates, periods, and the cutting of spans into intervals.
#![tactic(auto)]

pub mod cutting;
pub mod day;
pub mod fault;
pub mod occurrences;
pub mod periods;
pub mod shown;
pub mod spans;
pub mod units;
pub mod words;
pub mod written_date;

pub use cutting::split;
pub use day::{Civil, Day, civil_of, day_of};
pub use fault::TimeFault;
pub use occurrences::occurrence;
pub use periods::read_period;
pub use shown::{column_name, print_day, push_calendar_day};
pub use spans::{Interval, Period, Span, Unit};
pub use units::{DAY_END, begins, start_within, unit_of};
pub use written_date::read_date;
