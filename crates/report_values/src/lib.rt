//! What amounts are worth: the sums and the amounts of a report, valued by the prices of a day.
#![tactic(auto)]

pub mod cells;
pub mod dates;
mod day_key;
pub mod days;
mod exchange;
mod fitting;
mod known;
pub mod market;
mod numbers;
mod refusals;
mod spread;
pub mod values;

pub use cells::{Plan, cells_on, cells_then, value_cells};
pub use dates::Dates;
pub use days::{Asked, day_of, days_of};
pub use market::Market;
pub use values::value_takings;
