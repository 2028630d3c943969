//! Items in order, each once, in a balanced tree of which a changed copy shares all but the items on the way to the
//! change.
#![tactic(auto)]

mod order;
mod set;
mod tree;

pub use order::{Ranked, Seek};
pub use set::SharedSet;
