//! A store among the files of a shelf: its two disks are taken and given back, and its text is read without a load.
#![tactic(auto)]

mod lending;
mod lines;
mod reading;
mod refusal;

pub use lending::{give_back_disks, second_name, take_disks};
pub use lines::{refusal_line, refusal_status};
pub use reading::{read_disks, read_store};
pub use refusal::{StoreRefusal, unopened};
