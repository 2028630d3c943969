//! A connection that one worker serves to its end.
ghost use Rattle.std.specs.Prelude.{◌≤◌, IfOk, length};

use crate::blocking::{read_some, read_until, write_until};
use crate::deadlines::{Moment, now};
use std::io;
use std::net::{Shutdown, TcpStream};
use std::rt::Clock;
use std::time::Duration;

/// How long a read waits for the first byte of a message, in milliseconds.
const FIRST_BYTE: u64 = 30_000;

/// How long a read waits for what a peer still sends to a connection that is closed, in seconds.
const PARTING: u64 = 1;

/// How often such a read is made before the connection is dropped.
const PARTING_READS: u64 = 64;

/// A connection that one worker serves to its end.
#[derive(Drop)]
pub(crate) struct Alone {
    stream: TcpStream,
    /// Whether bytes were read since the last write.
    has_read: bool,
    /// Whether bytes were written since the last read.
    has_written: bool,
    /// When what is under way, a message or a reply, has taken too long.
    until: Moment,
}

impl Alone {
    /// A connection that was just accepted, which sends each reply at once.
    pub(crate) fn new(stream: TcpStream) -> io::Result<Alone> {
        stream.set_nodelay(true)?;
        Ok(Alone {
            stream,
            has_read: false,
            has_written: false,
            until: Moment::start(),
        })
    }

    /// Reads some bytes. A message has a time for its first byte, and one for the rest in all.
    pub(crate) fn read<R: Clock>(&mut self, rt: &R, room: &mut [u8]) -> io::Result<usize>
        ensures { IfOk result (λ count. count ≤ length room.old) }
    {
        self.has_written = false;
        if self.has_read {
            return read_until(rt, &mut self.stream, room, self.until);
        }
        let count = read_until(rt, &mut self.stream, room, now(rt).plus(FIRST_BYTE))?;
        self.has_read = true;
        self.until = now(rt).end_of_message();
        Ok(count)
    }

    /// Sends a piece. A reply has a time in all.
    pub(crate) fn write<R: Clock>(&mut self, rt: &R, piece: &[u8]) -> io::Result<()> {
        self.has_read = false;
        if !self.has_written {
            self.has_written = true;
            self.until = now(rt).end_of_message();
        }
        write_until(rt, &mut self.stream, piece, self.until)
    }

    /// Ends the connection in order: says that no more is sent, and takes for a moment what the peer still sends, so that what
    /// was sent reaches it.
    pub(crate) fn part(self) {
        let Alone { stream, .. } = self;
        let mut stream = stream;
        let patience = Some(Duration::from_secs(PARTING));
        if stream.shutdown(Shutdown::Write).is_err() || stream.set_read_timeout(patience).is_err() {
            return;
        }
        let mut room = [0u8; 16384];
        for _read in 0..PARTING_READS {
            match read_some(&mut stream, &mut room) {
                Ok(count) if count > 0 => {}
                _ => return,
            }
        }
    }
}
