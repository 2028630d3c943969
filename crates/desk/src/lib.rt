//! The machine behind a shared journal: what is asked of it and what it replies.
#![tactic(auto)]

pub mod csv_fault;
pub mod deed;
mod desk;
mod dry_runs;
mod editing;
mod fault;
mod importing;
mod judging;
mod keep;
mod laws;
mod opening;
mod planning;
mod putting;
pub mod reply;
mod report;
pub mod request;
mod room;
mod serving;
mod sizes;
mod states;

pub use csv_fault::CsvFault;
pub use deed::Deed;
pub use desk::Desk;
pub use dry_runs::past_line_ends;
pub use fault::DeskFault;
pub use laws::import_again;
pub use reply::Reply;
pub use report::report_text;
pub use request::{Allow, Request};
