//! Work on a value under a lock, by several threads: each piece of work stands in the one history with what it did.
#![tactic(auto)]

mod count;
mod sum;
mod work;

pub use count::{Added, Count};
pub use sum::{Sum, Trouble, add_by_four, add_by_two};
pub use work::{Work, under};

#[cfg(test)]
mod tests;
