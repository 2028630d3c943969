//! The layout of a table: a title, heads, sections of rows with their totals, and a last line.
#![tactic(auto)]

mod layout;
mod lines;
mod table;
mod texts;
mod widths;

pub use layout::{push_repeated, table_text, titled_lines};
pub use lines::{THICK, THIN, TableLine, head_line};
pub use table::{Section, Table2};
pub use texts::{Printed, push_cell_text};
