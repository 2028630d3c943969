//! What keeps a book in order: checks of what its text declares, and the entries that close its accounts and open them
//! again.
#![tactic(auto)]

mod close;
mod context_end;
mod declarations;
mod entries;
mod faults;
mod judged;
mod late;
mod lines;
mod moved;
mod named;
mod names;
mod reading_back;
mod strict_checks;
mod uses;

pub use close::{Closing, close_entries};
pub use declarations::Declarations;
pub use faults::{Check, CloseFault, StrictFault};
pub use strict_checks::{strict, strict_by};
