//! Market prices: what one unit of a symbol is worth in another on a day, by the prices of a journal.
#![tactic(auto)]

mod fractions;
mod index;
pub mod prices;
mod quote;
pub mod rate;
mod search;
mod steps;
mod symbol_key;
pub mod table;
pub mod valuing;

pub use prices::Prices;
pub use rate::{Rate, RateRange};
pub use table::Table;
pub use valuing::value;
