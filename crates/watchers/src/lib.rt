//! The assertions and assignments of a book by their accounts: which of them a change of a balance reaches.
#![tactic(auto)]

mod first;
mod laws;
mod noting;
mod watch;
mod watchers;

pub use laws::watches_of_a_book;
pub use watch::{Place, Watch};
pub use watchers::Watchers;
