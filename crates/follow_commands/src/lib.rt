//! What `feed` and `follow` do.
#![tactic(auto)]

mod following;
mod tally;

pub use following::{Stop, follow_source};
pub use tally::Tally;
