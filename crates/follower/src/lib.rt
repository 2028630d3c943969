//! A store that follows another one by its frames.
#![tactic(auto)]

mod fault;
mod filling;
mod follower;
mod frame;
mod heads;
mod histories;
mod keep;
mod preparing;
mod puts;
mod splicing;
mod standing;

pub use fault::{Accepted, FollowFault, FrameFault};
pub use follower::Follower;
pub use frame::{Frame, next_frame};
pub use histories::{crashes_show_one_image, genuine_frames_lead_on, genuine_snapshots_begin};
