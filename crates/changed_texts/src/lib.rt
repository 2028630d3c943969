//! Entries of a text in whose place other bytes stand: what becomes of its pieces and items, at the cost of these bytes.
#![tactic(auto)]

mod beside;
mod change;
mod entries;
mod entry;
mod laws;
mod met;
mod parts;
mod putting;

pub use beside::put_met;
pub use change::{Change, Site, offset_of, read_change};
pub use entries::read_entries;
pub use entry::{are_entries, has_one_entry, is_entry};
pub use laws::{
    a_changed_book_can_move, an_entry_is_changed, an_entry_is_met, an_entry_is_taken_out,
    gaps_that_meet_are_one, other_items_stay, transactions_of_a_change, what_is_behind_can_move,
};
pub use met::{Met, begins_gap, ends_gap, more_items, read_met};
pub use putting::{put_change, put_piece};
