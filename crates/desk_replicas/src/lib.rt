//! Replicas of a journal service: a replica has the text of a place of the service's history.
#![tactic(auto)]

mod laws;

pub use laws::{history_has_edits, replicas_show_a_place};
