//! A connection that came from the room, with one message or with what is none.
ghost use Rattle.std.specs.Prelude.{◌≤◌, IfOk, length};

use crate::blocking::{read_until, write_until};
use crate::connection::Connection;
use crate::deadlines::{Moment, now};
use crate::inside::Lent;
use crate::room::Room;
use crate::unsent::Written;
use hl_base::Failed;
use std::io;
use std::rt::Clock;
use std::sync::{Arc, Wait};

/// A connection that came from the room, with one message or with what is none.
#[derive(Drop)]
pub(crate) struct Visitor {
    room: Arc<Room>,
    connection: Connection,
    /// How many bytes of the message were read.
    at: usize,
    /// Whether its end was read.
    is_read: bool,
    lent: Lent,
    /// When the worker gives up reading and writing by itself, where it does.
    until: Option<Moment>,
}

impl Visitor {
    /// A connection that just came from the room.
    pub(crate) fn new<R: Clock>(rt: &R, room: Arc<Room>, connection: Connection) -> Visitor {
        let is_direct = connection.is_unread();
        let bytes = connection.size();
        Visitor {
            room,
            connection,
            at: 0,
            is_read: false,
            lent: Lent { bytes, is_direct },
            until: if is_direct {
                Some(now(rt).end_of_message())
            } else {
                None
            },
        }
    }

    /// Reads bytes of the message, and nothing past them.
    pub(crate) fn read<R: Clock>(&mut self, rt: &R, room: &mut [u8]) -> Result<usize, Failed>
        ensures { IfOk result (λ count. count ≤ length room.old) }
    {
        let count = self.connection.copy_message(self.at, room);
        if count > 0 || room.is_empty() {
            self.at = self.at.saturating_add(count);
            return Ok(count);
        }
        let left = self.connection.left_after(self.at);
        if left == 0 {
            self.is_read = true;
            return Ok(0);
        }
        self.read_by_itself(rt, room, left)
    }

    /// Reads bytes of the message, at most so many, which the room didn't receive.
    fn read_by_itself<R: Clock>(
        &mut self,
        rt: &R,
        room: &mut [u8],
        left: usize,
    ) -> Result<usize, Failed>
        ensures { IfOk result (λ count. count ≤ length room.old) }
    {
        let Some(until) = self.until else {
            return Err(Failed);
        };
        let (space, _) = room.split_at_mut(left.min(room.len()));
        match read_until(rt, &mut self.connection.stream, space, until) {
            Ok(count) => {
                self.at = self.at.saturating_add(count);
                Ok(count)
            }
            Err(_) => Err(Failed),
        }
    }

    /// Sends some bytes of a piece, or has them wait in the room.
    pub(crate) fn write<R: Wait + Clock>(&mut self, rt: &R, piece: &[u8]) -> Result<usize, Failed>
        ensures { IfOk result (λ count. count ≤ length piece.now) }
    {
        if piece.is_empty() {
            return Ok(0);
        }
        if let Some(until) = self.until {
            return self.write_by_itself(rt, piece, until);
        }
        match self.connection.write(piece) {
            Written::Some(count) if count > 0 => Ok(count.min(piece.len())),
            Written::Some(_) | Written::Later => self.write_later(rt, piece),
            Written::Never => Err(Failed),
        }
    }

    /// Has a piece wait in the room, or sends it by itself where too many bytes wait there.
    fn write_later<R: Wait + Clock>(&mut self, rt: &R, piece: &[u8]) -> Result<usize, Failed>
        ensures { IfOk result (λ count. count ≤ length piece.now) }
    {
        if self.room.reserve(rt, piece.len()) {
            self.lent.bytes = self.lent.bytes.saturating_add(piece.len());
            return match self.connection.unsent.push(piece) {
                Ok(()) => Ok(piece.len()),
                Err(_) => Err(Failed),
            };
        }
        if !self.room.begin_direct(rt) {
            return Err(Failed);
        }
        self.lent.is_direct = true;
        let until = now(rt).end_of_message();
        self.until = Some(until);
        self.write_by_itself(rt, piece, until)
    }

    /// Sends what was to wait in the room.
    fn send_unsent<R: Clock>(&mut self, rt: &R, until: Moment) -> io::Result<()> {
        let stream = &mut self.connection.stream;
        write_until(rt, stream, self.connection.unsent.rest(), until)?;
        self.connection.unsent.finish();
        Ok(())
    }

    /// Sends what was to wait in the room, and then a piece.
    fn write_by_itself<R: Clock>(
        &mut self,
        rt: &R,
        piece: &[u8],
        until: Moment,
    ) -> Result<usize, Failed>
        ensures { IfOk result (λ count. count ≤ length piece.now) }
    {
        if self.send_unsent(rt, until).is_err() {
            return Err(Failed);
        }
        match write_until(rt, &mut self.connection.stream, piece, until) {
            Ok(()) => Ok(piece.len()),
            Err(_) => Err(Failed),
        }
    }

    /// Goes back into the room, unless a write failed.
    pub(crate) fn leave<R: Wait + Clock>(self, rt: &R, read_faults: u64, write_faults: u64) {
        let Visitor {
            room,
            connection,
            is_read,
            lent,
            ..
        } = self;
        let stops = connection.stop_waiting().is_ok();
        if write_faults == 0 && stops {
            room.take_back(rt, connection, &lent, is_read && read_faults == 0);
        } else {
            drop(connection);
            room.forget(rt, &lent);
        }
    }
}
