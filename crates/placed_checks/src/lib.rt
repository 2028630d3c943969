//! The check of one transaction at its place in the middle of a book: when what it answers is the transaction as the
//! book that solves the text has it. Nothing stands on this crate yet.
#![tactic(auto)]

mod alone;
pub mod judge;
mod laws;

pub use alone::{are_unmarked, is_unmixed};
pub use judge::{Judged, check_placed};
pub use laws::a_placed_check;
