//! The rules by which bank files become entries, and which of their entries an import adds.
#![tactic(auto)]

mod building;
mod columns;
mod drafts;
mod fault_line;
mod faults;
mod formats;
mod forms;
pub mod importing;
mod kinds;
mod lines;
mod reading;
mod references;
pub mod words;

pub use fault_line::rules_line;
pub use faults::RulesFault;
pub use importing::{import_laws, new_ones};
pub use kinds::{
    Action, Assignment, Block, Condition, DatePart, EntryField, Settings, Sheet, Value,
};
pub use lines::pattern_text;
pub use reading::Rules;
pub use references::{Reference, unknown_columns};
