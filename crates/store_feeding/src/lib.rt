//! What a store among the files of a shelf feeds: its two disks are taken and given back, and its records are told as frames.
#![tactic(auto)]

mod feeding;

pub use feeding::{feed_disks, feed_store};
