//! The reports of a journal whose sums are kept: a plain balance comes from these, and all else from a walk over the book.
#![tactic(auto)]

mod balance;
mod cells;
mod plain;
pub mod reporting;

pub use plain::is_from_kept;
pub use reporting::report;
