//! Balances transactions: finds missing amounts and costs, and makes the book of a text.
#![tactic(auto)]

pub mod assign;
mod claims;
pub mod fault;
mod form;
pub mod groups;
mod judge;
mod laws;
mod moves;
mod walk;
mod written;

pub use assign::{difference, with_amount};
pub use entry_balance::{BalanceFault, balance_txn};
pub use fault::CheckFault;
pub use groups::{Part, has_assigned, is_in};
pub use laws::{faults, solves, sums_at_places};
pub use walk::check;
