//! The income statement and the balance sheet.
#![tactic(auto)]

mod choosing;
mod sections;
mod statement;
mod turning;
mod writing;

pub use writing::{income_text, sheet_text};
