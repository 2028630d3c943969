//! The sums of a report by account and column, and the amounts of one without columns, valued as its options say.
#![tactic(auto)]

pub mod job;
mod market;
pub mod summing;
pub mod valuing;
pub mod way;

pub use job::Job;
pub use summing::{reach_of, sums};
pub use valuing::valued_takings;
pub use way::Way;
