//! Workers that serve one journal at the same time, each at the door of its own kit, the houses that hand out the kits,
//! and the one legal history of all that was asked.
#![tactic(auto)]

mod hosting;
mod house;
mod mem_house;
mod team;
mod worker;

pub use hosting::{Address, Crew, Hosted, HouseFault, serve_house};
pub use house::House;
pub use mem_house::MemHouse;
pub use team::{Closed, serve_all};
