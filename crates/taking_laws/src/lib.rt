//! What a plain report takes of a book doesn't look at lines, nor does what is kept of its sums.
#![tactic(auto)]

mod laws;

pub use laws::takings_of_any_lines;
