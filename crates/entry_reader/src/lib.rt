//! Reads the parts of an entry: amounts, accounts, comments, tags, heads and postings, in the context of the items before
//! it.
#![tactic(auto)]

pub mod account;
pub mod amount;
pub mod comment;
pub mod context;
pub mod entry;
pub mod fault;
pub mod head;
mod naming;
pub mod posting;
pub mod quantity;
pub mod scan;
pub mod symbol;
pub mod tag;

pub use account::read_account;
pub use amount::read_amount;
pub use context::{Context, context_behind};
pub use fault::ReadFault;
