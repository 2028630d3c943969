//! What rules make: the days of a periodic rule with its transactions, and the postings that an automated rule adds.
#![tactic(auto)]

pub mod accounts;
pub mod amounts;
pub mod counting;
pub mod days;
pub mod making;
pub mod postings;

pub use accounts::account_for;
pub use amounts::{Worth, worth_of};
pub use counting::{Excess, POSTING_LIMIT, TXN_LIMIT, excess_in, posting_excess};
pub use days::{Occasions, occasions_in};
pub use making::made_txns;
pub use postings::made_posting;
