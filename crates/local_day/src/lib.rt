//! The day where the user is: the zone that the environment variable TZ and a zone's file name, and its day at an instant.
#![tactic(auto)]

mod day;
mod naming;
#[cfg(test)]
mod tests;
mod zone;

pub use day::day_in;
pub use naming::path_of;
pub use zone::{Zone, zone_of};
