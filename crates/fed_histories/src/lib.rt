//! What a store feeds, as frames of one history, and what a replica that follows them has.
#![tactic(auto)]

mod laws;

pub use laws::{fed_frames_are_genuine, fed_stores_are_followed};
