//! Books with what rules make: the transactions of periodic rules, the postings of automated ones, and goals.
#![tactic(auto)]

mod adding;
mod asking;
pub mod auto;
pub mod fault;
mod judging;
mod laws;
pub mod periodic;
mod remembering;
mod rules;
pub mod window;

pub use auto::with_auto;
pub use fault::GenFault;
pub use laws::assignments_stay;
pub use periodic::{forecast, goals};
pub use window::forecast_window;
