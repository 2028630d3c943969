//! Exact decimals, the numbers that people write, and their printing.
#![tactic(auto)]

pub mod arithmetic;
pub mod decimal;
pub mod printing;
pub mod reading;
mod rounding;

pub use arithmetic::{DivRange, div_round};
pub use decimal::{Dec, Range};
pub use printing::{Shape, print_number};
pub use reading::{BadNumber, Number, begins_number, digits_number, read_number};
