//! Transactions as they are printed: that their text reads again as they are.
#![tactic(auto)]

mod laws;

pub use laws::{entry_reads, printed_reads, styles_show};
