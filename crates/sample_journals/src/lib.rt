//! Samples as journals: that the text of each loads, and that its line says what is so of its book.
#![tactic(auto)]

mod laws;

pub use laws::{samples_load, samples_tell};
