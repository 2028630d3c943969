//! The budget report: amounts by account, each beside its goal.
#![tactic(auto)]

mod amounts;
mod beside;
mod body;
mod budget;
mod cell;
mod goals;
mod groups;
mod least;
mod page;
mod percent;
mod places;
mod rows;

pub use budget::budget_text;
