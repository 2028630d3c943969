//! One lock that hands a value from one holder to the next, and keeps in the proofs, at no cost at run time, the
//! history of all that was entered under it. Whoever closes the lock gets the history, and it is legal.
#![tactic(auto)]

mod held;
mod kept;
mod known;
mod pass;
mod rule;
mod steps;
mod turn;

pub use held::Held;
pub use kept::Kept;
pub use known::{Entered, Hold, Member};
pub use pass::Pass;
pub use turn::{Spent, Turn};

#[cfg(test)]
mod tests;
