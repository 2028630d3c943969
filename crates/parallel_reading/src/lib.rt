//! Reads the items of a journal's text by several threads at once, where no piece says how another is read.
#![tactic(auto)]

mod head;
mod run;
mod threads;

pub use threads::read_items;
