//! The layouts of a balance report: a list, flat or as a tree, and a table.
#![tactic(auto)]

mod averaging;
mod balance;
mod dividing;
mod least;
mod lines;
mod list;
mod printed;
mod shown;
mod table;
mod titles;
mod totals;

pub use averaging::averages;
pub use balance::balance_text;
pub use least::{check_averages, keep_lesser};
pub use list::list_text;
pub use table::{table_rows, table_text, table_totals};
pub use titles::{heads, span_name, title};
pub use totals::with_total;
