//! Whether a whole message has come, as the reader of messages decides it.
ghost use Rattle.std.specs.Prelude.{◌≤◌, length};

use hl_base::{Failed, Link};
use std::alloc::Global;
use web_messages::Broken;
use web_messages::head::{Judged, judge};
use web_messages::incoming::Incoming;
use web_messages::paths::Paths;
use web_messages::receive::{self, Next, Stop, next_message};

/// What the bytes that were received begin with.
#[derive(Clone, Copy, Debug, PartialEq, Eq)]
pub(crate) enum Front {
    /// A whole message of so many bytes.
    Message(usize),
    /// No message, whatever comes after.
    Broken,
    /// Nothing, and nothing comes after.
    Over,
    /// A part of a head, or nothing yet.
    Head,
    /// A head whose message has so many bytes, which haven't all come.
    Body(usize),
    /// It can't be said, since memory ran out.
    NoMemory,
}

/// Copies as many bytes as fit to the front of the room, and returns how many.
pub(crate) fn copy_front(bytes: &[u8], room: &mut [u8]) -> usize
    ensures within { result ≤ length room.old }
    ensures there { result ≤ length bytes.now }
{
    let count = bytes.len().min(room.len());
    let (front, _) = bytes.split_at(count);
    let (space, _) = room.split_at_mut(count);
    space.copy_from_slice(front);
    count
}

/// Bytes that were received, as a connection to read from. Past them is the end where the peer's end was read; else a read fails.
#[derive(Drop)]
struct Received<'a> {
    rest: &'a [u8],
    ended: bool,
    faults: u64,
}

impl<'a> Link for Received<'a> {
    ghost use Rattle.std.specs.Prelude.{◌-◌, ◌^◌, None};

    ghost coming = { λ _. None };

    ghost sent = { λ _. None };

    ghost read_faults = { λ l. l.faults };

    ghost write_faults = { λ _. 2 ^ 64 - 1 };

    ghost HasRoom = { λ _ _. ⊥ };

    fn read(&mut self, room: &mut [u8]) -> Result<usize, Failed> {
        if self.rest.is_empty() && !self.ended {
            self.faults = self.faults.saturating_add(1);
            return Err(Failed);
        }
        let count = copy_front(self.rest, room);
        let (_, rest) = self.rest.split_at(count);
        self.rest = rest;
        Ok(count)
    }

    fn write(&mut self, _piece: &[u8]) -> Result<usize, Failed> {
        Err(Failed)
    }
}

/// What is missing from bytes that begin no whole message yet.
fn missing(alloc: Global, paths: &Paths, bytes: &[u8]) -> Front {
    match judge(alloc, paths, receive::front_of(bytes)) {
        Ok(Judged::Whole(head)) => match head.said {
            Some(said) => Front::Body(head.length.saturating_add(said as usize)),
            None => Front::Head,
        },
        Ok(_) => Front::Head,
        Err(_) => Front::NoMemory,
    }
}

/// What the bytes that were received begin with. Past them is the end where the peer's end was read.
pub(crate) fn front_of(alloc: Global, paths: &Paths, bytes: &[u8], ended: bool) -> Front {
    if bytes.is_empty() && !ended {
        return Front::Head;
    }
    let Ok(mut incoming) = Incoming::new(alloc) else {
        return Front::NoMemory;
    };
    let mut received = Received {
        rest: bytes,
        ended,
        faults: 0,
    };
    match next_message(alloc, paths, &mut incoming, &mut received) {
        Ok(Next::Message { total, .. }) => Front::Message(total),
        Ok(Next::Stopped(Stop::Over)) => Front::Over,
        Ok(Next::Stopped(_)) => Front::Broken,
        Err(Broken::Link) => missing(alloc, paths, bytes),
        Err(Broken::Memory) => Front::NoMemory,
    }
}
