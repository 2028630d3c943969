//! Why a command gives no output, and the lines that say so.
#![tactic(auto)]

mod lines;
mod refusal;
mod refusing;

pub use lines::{rules_line, words_line};
pub use refusal::{PatternOf, Refusal};
pub use refusing::{refuse_fault, refuse_plan, refuse_report, status_for};
