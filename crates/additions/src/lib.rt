//! Entries that are put behind the text of a journal, whatever it ends with, at the cost of the entries: what they add to what is
//! made of the text where all else stays as it is; the fault of the whole, where it is theirs; else what was read, for whoever
//! balances other transactions anew.
#![tactic(auto)]

mod asking;
mod book_end;
mod fault;
mod firsts;
mod laws;
mod quiet;
mod settling;
mod turning;

pub use book_end::{Added, BookEnd, Plain};
pub use fault::AddFault;
pub use laws::{added_goes_behind, additions_add, books_are_told, quiet_entries_are_told};
