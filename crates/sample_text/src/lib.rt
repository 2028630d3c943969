//! A sample journal of any size, which shows what commands over large journals cost.
#![tactic(auto)]

mod line;
mod sample;

pub use line::sample_line;
pub use sample::{SAMPLE_LIMIT, sample_text};
