//! What a book moves in each symbol with each number of decimals, kept exact while transactions come and go.
#![tactic(auto)]

mod laws;
mod part;
mod places;
mod postings;
#[cfg(test)]
mod tests;
pub mod turnover;

pub use laws::turnover_is_whole;
pub use turnover::{Turnover, are_told};
