//! Bank files become entries by rules.
#![tactic(auto)]

pub mod amounts;
pub mod blocks;
mod conversion;
pub mod dates;
mod fault_line;
mod faults;
pub mod fields;
pub mod judging;
mod ordering;
pub mod records;
pub mod skipping;
mod spaces;
mod values;

pub use conversion::convert;
pub use fault_line::convert_line;
pub use faults::ConvertFault;
