//! The HTTP messages of a stream of bytes: how it is cut into heads and bodies, where a head leads, and what its fields
//! and its parameters say.
#![tactic(auto)]

pub mod broken;
mod fields;
pub mod form;
pub mod head;
pub mod incoming;
mod origin;
pub mod page;
pub mod paths;
mod reading;
pub mod receive;
pub mod refusal;
pub mod resource;
pub mod route;
pub mod target;

pub use broken::Broken;
pub use reading::{each_stream_reads, one_reading};
