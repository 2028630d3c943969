//! How a store of a text is made among the files of a shelf: the text is loaded first. And why a store of a journal isn't made
//! or opened.
#![tactic(auto)]

mod init;
mod lines;
mod making;
mod refusal;

pub use init::init_store;
pub use lines::{journal_line, journal_status};
pub use refusal::{JournalRefusal, of_store, of_text};
