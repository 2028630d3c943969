//! Bytes of replies that a peer hasn't received yet.
use std::alloc::{AllocError, Global};
use std::io::{ErrorKind, Write};
use std::net::TcpStream;

/// How many writes one turn of a connection makes.
const WRITES: u64 = 64;

/// What one write to a socket that doesn't wait gave.
#[derive(Clone, Copy, Debug, PartialEq, Eq)]
pub(crate) enum Written {
    /// So many bytes were sent.
    Some(usize),
    /// The peer takes no more for now.
    Later,
    /// The connection is broken.
    Never,
}

/// Sends what the peer takes at once of a piece that isn't empty.
pub(crate) fn write_at_once(stream: &mut TcpStream, piece: &[u8]) -> Written {
    match stream.write(piece) {
        Ok(0) => Written::Never,
        Ok(count) => Written::Some(count),
        Err(error) => match error.kind() {
            ErrorKind::WouldBlock => Written::Later,
            ErrorKind::Interrupted => Written::Some(0),
            _ => Written::Never,
        },
    }
}

/// How far a turn of sending came.
#[derive(Clone, Copy, Debug, PartialEq, Eq)]
pub(crate) enum Sending {
    /// All is sent.
    Done,
    /// The peer takes no more for now.
    Waits,
    /// The peer may take more.
    Again,
    /// The connection is broken.
    Broken,
}

/// Bytes that are still to be sent, in order.
#[derive(Drop)]
pub(crate) struct Unsent {
    bytes: Vec<u8>,
    sent: usize,
}

impl Unsent {
    /// No bytes.
    pub(crate) fn new(alloc: Global) -> Unsent {
        Unsent {
            bytes: Vec::new(alloc),
            sent: 0,
        }
    }

    /// Whether nothing is left to be sent.
    pub(crate) fn is_empty(&self) -> bool {
        self.sent >= self.bytes.len()
    }

    /// How many bytes it keeps in memory.
    pub(crate) fn size(&self) -> usize {
        self.bytes.len()
    }

    /// Adds a piece at the end.
    pub(crate) fn push(&mut self, piece: &[u8]) -> Result<(), AllocError> {
        self.bytes.extend_from_slice(piece)
    }

    /// The bytes that are left to be sent.
    pub(crate) fn rest(&self) -> &[u8] {
        let (_, rest) = self
            .bytes
            .as_slice()
            .split_at(self.sent.min(self.bytes.len()));
        rest
    }

    /// Goes past so many bytes that were sent.
    pub(crate) fn advance(&mut self, count: usize) {
        self.sent = self.sent.saturating_add(count);
    }

    /// Notes that all was sent.
    pub(crate) fn finish(&mut self) {
        self.sent = self.bytes.len();
    }

    /// Sends what the peer takes at once.
    pub(crate) fn send(&mut self, stream: &mut TcpStream) -> Sending {
        for _write in 0..WRITES {
            if self.is_empty() {
                return Sending::Done;
            }
            match write_at_once(stream, self.rest()) {
                Written::Some(count) => self.advance(count),
                Written::Later => return Sending::Waits,
                Written::Never => return Sending::Broken,
            }
        }
        Sending::Again
    }
}
