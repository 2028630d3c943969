//! What is kept of a text, its items and its book, so that an edit costs what it touches.
#![tactic(auto)]

mod around;
mod edited;
mod kept;
mod laws;

pub use edited::Edited;
pub use kept::{EndMove, KeptText};
pub use laws::{a_changed_end_can_move, no_line_is_looked_at};
