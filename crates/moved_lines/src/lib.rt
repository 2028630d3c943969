//! Lines of what stands behind a change of a text. They move by what the change removes and adds, in place, and nothing
//! that is known of a book looks at them.
#![tactic(auto)]

mod items;
mod laws;
mod pieces;
pub mod shift;
mod txns;

pub use items::move_items;
pub use laws::{
    a_book_has_any_lines, a_solved_book_can_move, moved_there_and_back, parts_of_moved_items,
};
pub use pieces::move_pieces;
pub use shift::{Offset, Shift};
pub use txns::move_lines;
