//! What is asked of a store among the files of a shelf: it is opened, asked once, and closed.
#![tactic(auto)]

mod asking;
mod edit;
mod lines;
mod notices;
mod preview;

pub use asking::of_opening;
pub use edit::{Replacement, StoreEdit, edit_store, replace_store};
pub use lines::reply_status;
pub use notices::import_notices;
pub use preview::{Preview, preview_edit};
