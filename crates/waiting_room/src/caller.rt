//! A connection that a worker serves.
ghost use Rattle.std.specs.Prelude.{◌≤◌, IfOk, length};

use crate::alone::Alone;
use crate::visitor::Visitor;
use hl_base::Failed;
use std::rt::Clock;
use std::sync::Wait;

/// Where the bytes of a connection come from.
#[derive(Drop)]
enum Way {
    /// Its socket, which one worker serves to its end.
    Socket(Alone),
    /// The room.
    Room(Visitor),
}

/// A connection that a worker serves.
#[derive(Drop)]
pub struct Caller {
    way: Way,
}

/// Reads some bytes of a connection.
fn read_from<R: Clock>(rt: &R, way: &mut Way, room: &mut [u8]) -> Result<usize, Failed>
    ensures { IfOk result (λ count. count ≤ length room.old) }
{
    match way {
        Way::Socket(alone) => match alone.read(rt, room) {
            Ok(count) => Ok(count),
            Err(_) => Err(Failed),
        },
        Way::Room(visitor) => visitor.read(rt, room),
    }
}

/// Sends some bytes over a connection.
fn write_to<R: Wait + Clock>(rt: &R, way: &mut Way, piece: &[u8]) -> Result<usize, Failed>
    ensures { IfOk result (λ count. count ≤ length piece.now) }
{
    match way {
        Way::Socket(alone) => match alone.write(rt, piece) {
            Ok(()) => Ok(piece.len()),
            Err(_) => Err(Failed),
        },
        Way::Room(visitor) => visitor.write(rt, piece),
    }
}

impl Caller {
    /// A connection that one worker serves to its end.
    pub(crate) fn alone(alone: Alone) -> Caller {
        Caller {
            way: Way::Socket(alone),
        }
    }

    /// A connection from the room.
    pub(crate) fn visitor(visitor: Visitor) -> Caller {
        Caller {
            way: Way::Room(visitor),
        }
    }

    /// Reads some bytes. None into a buffer that isn't empty is the end: the peer's, or that of the message for which the
    /// connection came from the room.
    pub fn read<R: Clock>(&mut self, rt: &R, room: &mut [u8]) -> Result<usize, Failed>
        ensures { IfOk result (λ count. count ≤ length room.old) }
    {
        read_from(rt, &mut self.way, room)
    }

    /// Sends some bytes, or has them wait in the room for the peer.
    pub fn write<R: Wait + Clock>(&mut self, rt: &R, piece: &[u8]) -> Result<usize, Failed>
        ensures { IfOk result (λ count. count ≤ length piece.now) }
    {
        write_to(rt, &mut self.way, piece)
    }

    /// Ends the worker's part, in which so many reads and writes failed. A connection from the room goes back there, and goes on
    /// with its next message if it was one whole message, whose end was read, and no call failed; else it is closed once its peer
    /// has received the reply. A connection without a room is closed.
    pub fn leave<R: Wait + Clock>(self, rt: &R, read_faults: u64, write_faults: u64) {
        let Caller { way } = self;
        match way {
            Way::Socket(alone) => alone.part(),
            Way::Room(visitor) => visitor.leave(rt, read_faults, write_faults),
        }
    }
}
