//! `serve`: its words, the store that they name served at the doors of a house, and what is written when all workers have ended.
//! Every other run of the program is that of `command_line`.
#![tactic(auto)]

mod ends;
mod laws;
mod matched;
mod numbers;
mod program;
mod values;
mod words;

pub use laws::histories_are_answered;
pub use program::{Site, run_program};
pub use words::{NoReading, read_serve};
