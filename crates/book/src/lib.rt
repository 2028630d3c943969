//! The types of a journal: amounts, postings, transactions, items and the faults that a text may have; sums of
//! several symbols; and the styles in which amounts are printed.
#![tactic(auto)]

pub mod account;
pub mod amount;
pub mod boxed;
pub mod by_day;
pub mod copies;
pub mod directive;
pub mod fault;
mod fault_line;
pub mod item;
mod marks;
pub mod mixed;
mod noting;
mod place;
pub mod printed;
pub mod rules;
pub mod style;
pub mod sums;
mod table;
pub mod transaction;

pub use account::{compare_accounts, lies_below};
pub use amount::{Amount, Assertion, Cost, Written};
pub use boxed::Boxed;
pub use by_day::sort_by_day;
pub use copies::{
    copied_amount, copied_amounts, copied_cost, copied_costs, copied_head, copied_posting,
    copied_postings, copied_tags, copied_txn, copied_txns,
};
pub use directive::{Directive, Price};
pub use fault::{Cause, Fault};
pub use fault_line::print_fault;
pub use item::{Book, Item, Items, Placed, count_txns};
pub use mixed::{Mixed, MixedFault};
pub use printed::{print_amount, print_plain, with_symbol};
pub use rules::{AutoRule, Factor, PeriodicRule, RulePosting};
pub use style::{Style, Styles};
pub use sums::{DaySums, Sums};
pub use transaction::{Mark, Posting, Side, Tag, Txn};
