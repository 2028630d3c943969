//! The wait for the sockets.
use mio::{Events, Poll};
use std::alloc::Global;
use std::io;
use std::net::Net;
use std::time::Duration;

/// How many events one wait for the sockets reports.
const EVENTS: usize = 1024;

/// The wait for the sockets. One worker at a time has it.
#[derive(Drop)]
pub(crate) struct Poller {
    pub poll: Poll,
    pub events: Events,
}

impl Poller {
    /// A wait for no socket yet.
    pub(crate) fn new<R: Net>(net: &R, alloc: Global) -> io::Result<Poller> {
        Ok(Poller {
            poll: Poll::new(net)?,
            events: Events::with_capacity(alloc, EVENTS)?,
        })
    }

    /// Waits until a socket is ready, or for so long.
    pub(crate) fn wait(&mut self, pause: Duration) {
        let _ = self.poll.poll(&mut self.events, Some(pause));
    }
}
