//! One connection that asks a journal in memory, or a store among the files of a shelf, up to its end.
#![tactic(auto)]

mod in_memory;
mod in_store;
mod machine;
mod terms;

pub use in_memory::{judge_text, talk_from};
pub use in_store::{StoreTalk, talk_store};
pub use terms::Terms;
