//! The transactions that an edit of a journal reaches, one after another in the order in which they are checked.
#![tactic(auto)]

mod change;
mod dated;
mod fault;
mod laws;
mod place;
mod run;
mod walking;

pub use dated::is_dated;
pub use fault::ReachFault;
pub use laws::{solved_as_written, watches_of_a_book, watches_of_a_text, watches_of_an_edit};
pub use place::Spot;
pub use run::reached_from;
pub use walking::Reach;
