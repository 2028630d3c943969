//! What is true of any book, whoever makes it: which symbols it moves, how many decimals its amounts have, and that nothing
//! that is kept or asked of it looks at lines.
#![tactic(auto)]

mod decimals;
mod lines;
mod reach;
mod symbols;

pub use decimals::decimals_of_a_book;
pub use lines::{kept_of_any_lines, rows_of_any_lines, watches_of_any_lines};
pub use reach::{forms_of_any_lines, reach_of_any_lines, reach_of_moved_lines};
pub use symbols::{symbols_of_a_book, symbols_of_any_lines};
