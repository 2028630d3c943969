//! A journal that is kept open: its text with what is made of it, and the edits by which it changes.
#![tactic(auto)]

mod adding;
mod applied;
mod changing;
mod edit;
mod editing;
mod entries;
mod fault;
mod judge;
mod live;
mod loading;
mod plan;
mod told;

pub use edit::Edit;
pub use fault::{EditFault, OpenFault};
pub use live::Live;
pub use loading::{load_book, load_book_by};
pub use plan::Plan;
