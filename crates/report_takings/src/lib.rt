//! What a report takes from a book: its span and its columns, and what of each posting.
#![tactic(auto)]

pub mod columns;
pub mod costs;
mod cuts;
mod ends;
pub mod entries;
pub mod gathering;
pub mod scope;
mod spans;
pub mod takings;

pub use columns::{COLUMN_LIMIT, columns_of};
pub use costs::is_at_cost;
pub use entries::{Entry, chosen_entries};
pub use gathering::gather;
pub use scope::Scope;
pub use takings::{shown_in, take, take_entries};
