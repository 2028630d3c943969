//! A replica among the files of a shelf that follows a source of frames, and what is said of it.
#![tactic(auto)]

mod following;
mod lengths;
mod lines;
mod refusal;
mod replicas;

pub use following::follow_store;
pub use lines::{follow_line, follow_status, followed_line};
pub use refusal::{FollowRefusal, Followed};
pub use replicas::follow_disks;
