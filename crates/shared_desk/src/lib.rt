//! A journal that several workers serve at the same time: its machine stands under a lock, each worker answers the
//! connections of its own door, and what its pass grew by are the entries that these asked for.
#![tactic(auto)]

mod connection;
mod kit;
mod laws;
mod locked;
mod serving;
mod shared;

pub use connection::serve_connection;
pub use kit::Kit;
pub use laws::{
    counts_are_kept, disks_show_the_last, done_is_a_change, each_is_answered, faults_are_counted,
    refusals_are_counted, reports_are_fresh,
};
pub use locked::Locked;
pub use serving::{DoorEnd, serve_door};
pub use shared::{Answered, Noted, Shared};
