//! What is kept of the book of a journal, so that an edit of its text is checked at the cost of what it reaches, and a plain
//! report is answered from sums; and what such an edit makes of it.
#![tactic(auto)]

mod beginning;
mod behind;
mod exchanging;
mod gathering;
mod keeping;
pub mod kept;
pub mod rewriting;
mod spots;
mod sums;
mod symbol_key;
mod symbols;
pub mod walk;
pub mod walks;
mod watching;
mod written;

pub use kept::KeptBook;
pub use rewriting::Rewriting;
pub use sums::sums_walked;
pub use walk::{Walk, walk_rewritten};
pub use walks::Walks;
