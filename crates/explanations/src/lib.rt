//! What is wrong in a line of a journal and how it is mended, by the cause of the fault and by what the line says.
#![tactic(auto)]

mod explaining;
pub mod lines;
mod sentences;

pub use explaining::explain;
pub use sentences::sentence_of;
