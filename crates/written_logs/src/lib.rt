//! Logs that are written as journals: that what is written of them loads.
#![tactic(auto)]

mod laws;

pub use laws::{
    command_loads, hours_load, hours_own, plain_loads, plain_reads, timeclock_plain, timedot_plain,
};
