//! The room in which connections wait for their next message, for a worker, or for their peer to take a reply.
//!
//! One lock guards the connections. A worker that finds none with a whole message waits for the sockets, outside the lock; the
//! others sleep until it comes back or there is something for them to do.
use crate::connection::Connection;
use crate::deadlines::{Moment, now};
use crate::inside::{Inside, LISTENER, Lent, Step};
use crate::limits::most_connections;
use crate::poller::Poller;
use mio::unix::SourceFd;
use mio::{Interest, Registry, Token};
use std::alloc::Global;
use std::collections::{BTreeMap, VecDeque};
use std::io;
use std::net::{Net, TcpListener};
use std::os::fd::{AsRawFd, RawFd};
use std::rt::Clock;
use std::sync::{Condvar, Mutex, Wait};
use web_messages::paths::Paths;

/// The room, which all workers share.
#[derive(Drop)]
pub(crate) struct Room {
    inside: Mutex<Inside>,
    changed: Condvar,
}

/// Has a wait for the sockets include the listener, and returns a handle to add others by.
fn watch(poller: &Poller, listener: &TcpListener) -> io::Result<Registry> {
    let registry = poller.poll.registry().try_clone()?;
    let descriptor: RawFd = listener.as_raw_fd();
    registry.register(
        &mut SourceFd(&descriptor),
        Token(LISTENER),
        Interest::READABLE,
    )?;
    Ok(registry)
}

/// The paths that lead somewhere, for the reader of messages.
fn paths(alloc: Global) -> io::Result<Paths> {
    match Paths::new(alloc) {
        Ok(paths) => Ok(paths),
        Err(_) => Err(io::Error::from(io::ErrorKind::OutOfMemory)),
    }
}

/// No connections yet.
fn empty(
    alloc: Global,
    paths: Paths,
    listener: TcpListener,
    registry: Registry,
    poller: Poller,
) -> Inside {
    Inside {
        alloc,
        paths,
        listener,
        registry,
        poller: Some(poller),
        waiting: BTreeMap::new(alloc),
        ready: VecDeque::new(alloc),
        again: VecDeque::new(alloc),
        stalled: VecDeque::new(alloc),
        last_token: LISTENER,
        most: most_connections(),
        bytes: 0,
        lent: 0,
        workers: 0,
        direct: 0,
        accepts_at: Some(Moment::start()),
        closes_at: Moment::start(),
        is_gone: false,
    }
}

impl Room {
    /// An empty room for the connections of a listener.
    pub(crate) fn open<R: Net>(net: &R, alloc: Global, listener: TcpListener) -> io::Result<Room> {
        listener.set_nonblocking(true)?;
        let poller = Poller::new(net, alloc)?;
        let registry = watch(&poller, &listener)?;
        let paths = paths(alloc)?;
        Ok(Room {
            inside: Mutex::new(empty(alloc, paths, listener, registry, poller)),
            changed: Condvar::new(),
        })
    }

    /// Counts one more worker.
    pub(crate) fn count_worker<R: Wait>(&self, rt: &R) {
        let mut inside = self.inside.lock(rt);
        inside.workers = inside.workers.saturating_add(1);
    }

    /// Waits for the next connection that a worker can take, unless the listener is gone.
    pub(crate) fn next<R: Wait + Clock>(&self, rt: &R) -> Option<Connection> {
        for _ in rt.forever() {
            let mut inside = self.inside.lock(rt);
            match inside.step(now(rt)) {
                Step::Serve(connection) => {
                    if inside.has_work() {
                        self.changed.notify_one();
                    }
                    return Some(connection);
                }
                Step::Poll(poller, pause) => {
                    drop(inside);
                    let mut poller = poller;
                    poller.wait(pause);
                    self.inside.lock(rt).take_poller(poller, now(rt));
                }
                Step::Sleep => drop(self.changed.wait(rt, inside)),
                Step::End => {
                    self.changed.notify_all();
                    return None;
                }
            }
        }
        unreachable!()
    }

    /// Takes a connection back from a worker, which served it to its end or didn't.
    pub(crate) fn take_back<R: Wait + Clock>(
        &self,
        rt: &R,
        connection: Connection,
        lent: &Lent,
        served: bool,
    ) {
        let mut inside = self.inside.lock(rt);
        inside.take_back(connection, lent, served, now(rt));
        if inside.has_work() {
            self.changed.notify_one();
        }
    }

    /// Counts a connection as closed by its worker.
    pub(crate) fn forget<R: Wait>(&self, rt: &R, lent: &Lent) {
        let mut inside = self.inside.lock(rt);
        inside.forget(lent);
    }

    /// Whether so many more bytes of a reply may wait in the room, which are counted then.
    pub(crate) fn reserve<R: Wait>(&self, rt: &R, count: usize) -> bool {
        self.inside.lock(rt).reserve(count)
    }

    /// Whether one more worker may write a reply by itself, which is counted then.
    pub(crate) fn begin_direct<R: Wait>(&self, rt: &R) -> bool {
        self.inside.lock(rt).begin_direct()
    }
}
