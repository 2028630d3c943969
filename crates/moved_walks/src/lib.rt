//! What a walk tells of a text whose later lines then move: all of it holds of the text as it stands.
#![tactic(auto)]

mod laws;

pub use laws::{answers_of_moved_lines, ends_of_moved_lines, walks_of_moved_lines};
