//! Balance assertions: what accounts hold that assertions ask for, and whether an assertion holds.
#![tactic(auto)]

pub mod balances;
pub mod claims;
pub mod kept;
pub mod totals;

pub use balances::{Balances, add_posting, asked, asked_by};
pub use claims::{asked_for, claim, failed, is_same};
pub use totals::{Totals, total_in};
