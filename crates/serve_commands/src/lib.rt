//! A store that several people use at the same time: it is opened among the files of a shelf, served at the doors of a house
//! until all workers have ended, and closed.
#![tactic(auto)]

mod answer;
mod disks;
mod hosting;
mod lines;
mod outcome;
mod store;

pub use answer::{Ended, Serving, serve};
pub use lines::{tally_line, unserved_line, unserved_status};
pub use outcome::{Tally, Unserved};
pub use store::{Post, serve_store};
