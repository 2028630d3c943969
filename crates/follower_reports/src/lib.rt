//! The reports of a store that follows another one.
#![tactic(auto)]

mod report;

pub use report::{Reported, ShowFault, report_follower};
