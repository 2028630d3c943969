//! What the program does with its words: the commands, their answers and their exit statuses.
#![tactic(auto)]

mod answering;
mod bank_faults;
mod files;
mod frames;
mod help;
mod outside;
mod previews;
mod program;
mod sample;
mod source;
mod store_tasks;
mod stored;
mod streams;
mod talk;

pub use outside::Outside;
pub use program::{Status, asks_talk, refuse, run, run_waiting, say};
pub use streams::Streams;
