//! Where the workers' connections come from.
use crate::accepting::accept_patiently;
use crate::alone::Alone;
use crate::caller::Caller;
use crate::room::Room;
use crate::visitor::Visitor;
use std::io::{self, ErrorKind};
use std::net::{Net, TcpListener, TcpStream};
use std::rt::Clock;
use std::sync::{Arc, Wait};

/// Where the connections come from.
#[derive(Drop)]
enum Origin {
    /// A listener, each of whose connections one worker serves to its end.
    Listener(TcpListener),
    /// The room, which all workers share.
    Room(Arc<Room>),
}

/// Where one worker's connections come from.
#[derive(Drop)]
pub struct Entrance {
    origin: Origin,
}

/// Waits for the next connection of a listener, unless that is gone.
fn next_socket<R: Wait + Clock>(rt: &R, listener: &TcpListener) -> Option<Caller> {
    for _ in rt.forever() {
        let stream = accept_patiently(rt, listener)?;
        if let Ok(alone) = Alone::new(stream) {
            return Some(Caller::alone(alone));
        }
    }
    unreachable!()
}

/// Waits for the next connection that the room has for a worker, unless its listener is gone.
fn next_visitor<R: Wait + Clock>(rt: &R, room: &Arc<Room>) -> Option<Caller> {
    let another = Arc::try_clone(room).ok()?;
    let connection = room.next(rt)?;
    Some(Caller::visitor(Visitor::new(rt, another, connection)))
}

impl Entrance {
    /// An entrance at an address of this machine. With a room, connections wait there, and a worker has one for one message at a
    /// time; without one, a worker has it to its end.
    pub fn open<R: Net<Listener = TcpListener, Stream = TcpStream> + AllocGlobal>(
        rt: &R,
        host: &str,
        port: u16,
        has_room: bool,
    ) -> io::Result<Entrance> {
        let listener = TcpListener::bind(rt, (host, port))?;
        Entrance::over(rt, listener, has_room)
    }

    /// An entrance over a listener.
    pub(crate) fn over<R: Net + AllocGlobal>(
        rt: &R,
        listener: TcpListener,
        has_room: bool,
    ) -> io::Result<Entrance> {
        if !has_room {
            return Ok(Entrance {
                origin: Origin::Listener(listener),
            });
        }
        let room = Room::open(rt, rt.alloc(), listener)?;
        match Arc::new(rt.alloc(), room) {
            Ok(room) => Ok(Entrance {
                origin: Origin::Room(room),
            }),
            Err(_) => Err(io::Error::from(ErrorKind::OutOfMemory)),
        }
    }

    /// The entrance of one more worker, which counts in the room.
    pub fn for_one_more<R: Wait>(&self, rt: &R) -> Option<Entrance> {
        match &self.origin {
            Origin::Listener(listener) => match listener.try_clone() {
                Ok(listener) => Some(Entrance {
                    origin: Origin::Listener(listener),
                }),
                Err(_) => None,
            },
            Origin::Room(room) => match Arc::try_clone(room) {
                Ok(room) => {
                    room.count_worker(rt);
                    Some(Entrance {
                        origin: Origin::Room(room),
                    })
                }
                Err(_) => None,
            },
        }
    }

    /// Waits for the next connection that the worker can serve, unless the listener is gone.
    pub fn next<R: Wait + Clock>(&self, rt: &R) -> Option<Caller> {
        match &self.origin {
            Origin::Listener(listener) => next_socket(rt, listener),
            Origin::Room(room) => next_visitor(rt, room),
        }
    }
}

/// Compiles only for a value that may go to another thread.
fn assert_send<T: Send>(_value: &T) {}

/// An entrance and a connection may go to another thread.
fn are_sendable(entrance: &Entrance, caller: &Caller) {
    assert_send(entrance);
    assert_send(caller);
}
