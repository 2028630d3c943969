//! Transactions as they are printed: the lines of one, and those of a whole journal.
#![tactic(auto)]

mod amount;
mod comment;
pub mod detail;
mod entry;
mod fields;
mod head;
mod layout;
mod measured;
mod order;
mod print;
pub mod shapes;
mod shown;
mod widths;

pub use detail::Detail;
pub use entry::print_entry;
pub use print::{print_book, print_chosen, print_txn};
pub use shapes::Shapes;
