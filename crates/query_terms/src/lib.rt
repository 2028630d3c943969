//! Terms of queries: words read as terms, the patterns in them, who builds these, and what they find in texts.
#![tactic(auto)]

mod building;
pub mod cutting;
mod faults;
mod finding;
mod folding;
mod kinds;
mod makers;
mod making;
mod patterns;
mod reading;

pub use building::build_pattern;
pub use faults::MakeFault;
pub use finding::Finder;
pub use kinds::{AmountTest, Field, Kind, Order, Pattern, Term};
pub use makers::{ListMaker, RegexMaker};
pub use making::Maker;
pub use patterns::{read_pattern, read_symbol};
pub use reading::{read_term, status_of, upper};
