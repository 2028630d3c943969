//! The connections of a server. By default they wait in one room, on sockets that don't block, and a worker has one only while it
//! answers a message; where there is no room, a worker serves a connection to its end.
//!
//! What is proved is that the crate is safe, and that each count of bytes lies within its slice. No clause says which bytes come,
//! how long a call takes or which worker it wakes: a test serves two messages over the loopback interface, and `tools/crowd` runs
//! the built server beside many slow, idle and silent clients.
#![tactic(auto)]

mod accepting;
mod alone;
mod blocking;
mod caller;
mod closing;
mod connection;
mod deadlines;
mod entrance;
mod fronts;
mod inside;
mod limits;
mod poller;
mod room;
mod unsent;
mod visitor;

pub use caller::Caller;
pub use entrance::Entrance;

#[cfg(test)]
mod tests;
