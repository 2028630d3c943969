//! Replicas of a store whose records go on: whatever it fed, and when, a replica has the text after some of its accepted edits.
#![tactic(auto)]

mod laws;
mod stores;

pub use laws::{
    crashes_leave_either, fed_sources_lead_on, feeds_are_genuine, replicas_begin, replicas_go_on,
};
pub use stores::{
    append_change, crashes_at_rest, feed_records, open_records, repair_records, write_anew,
};
