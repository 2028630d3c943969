//! What is known of whatever is read: its days are days of the calendar, and its numbers have few decimals.
#![tactic(auto)]

mod laws;

pub use laws::{days_of_a_text, decimals_of_a_text, reach_of_a_text};
