//! What a stop or a fault at each call of a disk leaves of a store, and its size as it grows.
#![tactic(auto)]

#[cfg(test)]
mod faults;
#[cfg(test)]
mod files;
#[cfg(test)]
mod rows;
#[cfg(test)]
mod stops;
