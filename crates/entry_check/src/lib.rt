//! Checks one transaction by the sums of the accounts before it, whoever tells them.
#![tactic(auto)]

mod asked_once;
mod check;
mod failure;
mod held;
mod make;

pub use check::check_one;
