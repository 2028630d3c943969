//! The check of one transaction answers what the journal has there: the transaction of the book that solves the journal, or
//! the fault of its group, for every journal and however many decimals amounts and sums have.
#![tactic(auto)]

mod laws;

pub use laws::checks_answer_by_value;
