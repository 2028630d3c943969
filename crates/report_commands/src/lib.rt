//! What the report commands answer over a book, without entries of rules and budgets: one definition and one function.
#![tactic(auto)]

pub mod asked;
mod commands;
pub mod fault;
mod law;
mod layouts;
mod register;
pub mod reporting;
mod tables;

pub use asked::Asked;
pub use fault::WordsFault;
pub use law::{text_faults, text_solves};
pub use layouts::layout_of;
pub use reporting::{Loaded, Material, report_of};
