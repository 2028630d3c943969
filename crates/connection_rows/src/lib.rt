//! Connections to a machine over memory: how they end, what is sent, and which calls may fail; and what an open journal tells
//! beside its text.
#![tactic(auto)]

#[cfg(test)]
mod cells;
#[cfg(test)]
mod disks;
#[cfg(test)]
mod ends;
#[cfg(test)]
mod messages;
#[cfg(test)]
mod pages;
#[cfg(test)]
mod served;
