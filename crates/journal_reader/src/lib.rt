//! Reads the items of a journal's text.
#![tactic(auto)]

mod item;
mod journal;

pub use entry_reader::{Context, ReadFault, read_account, read_amount};
pub use item::{read_item, read_uncounted};
pub use journal::{read_items, read_journal};
