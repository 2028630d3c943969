//! The register: each posting that a report means, with the sums of all up to it.
#![tactic(auto)]

mod fields;
pub mod head;
mod lines;
mod printed;
pub mod register;
pub mod selection;

pub use head::Head;
pub use register::register_text;
pub use selection::{Register, register_takings};
