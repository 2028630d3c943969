//! What is wrong in a record of a bank's file, or in a line of its rules, and how it is mended.
#![tactic(auto)]

mod explaining;
mod files;
mod parts;
mod places;
mod sentences;
mod spots;
#[cfg(test)]
mod tests;

pub use explaining::{explain, explain_rules};
pub use files::{Explanation, explain_file};
