//! The days on which a book asks for balances.
#![tactic(auto)]

mod asked;
mod assigned;
mod counts;

pub use asked::AskedDays;
