//! Balances one transaction: finds its missing amounts and costs, and what it moves.
#![tactic(auto)]

pub mod entry;
pub mod fault;
pub mod fill;
mod pair;
mod plan;
pub mod rules;
mod sums;
pub mod tally;
pub mod value;

pub use entry::{Settled, balance_txn, settle};
pub use fault::BalanceFault;
pub use fill::plain_amount;
pub use rules::is_assignable;
pub use tally::{Sum, TallyFault, checked_sum, sum_with};
pub use value::{absolute, cost_of, costs_fit};
