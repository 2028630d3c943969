//! The cells of a plain balance from sums that are kept, under edits too.
#![tactic(auto)]

mod amounts;
mod balance;
mod building;
mod cell;
pub mod changes;
mod counted;
pub mod dated;
pub mod kept;
mod names;
mod over;
pub mod plain;
pub mod posted;
mod rows;
mod staying;
#[cfg(test)]
mod tests;

pub use changes::ChangedKept;
pub use dated::are_dated;
pub use kept::Kept;
pub use plain::{is_plain, plain_cells};
pub use posted::keep_book;
