//! Reads and writes that wait for a peer, up to a moment at most.
ghost use Rattle.std.specs.Prelude.{◌≤◌, IfOk, length};

use crate::deadlines::{Moment, now};
use std::io::{self, ErrorKind, Read, Write};
use std::net::TcpStream;
use std::rt::Clock;

/// How often a read or a write that a signal breaks off is made again.
const AGAIN: u64 = 64;

/// Whether a signal broke the call off, as one that stops the process and has it go on.
fn is_interrupted(told: &io::Result<usize>) -> bool {
    match told {
        Ok(_) => false,
        Err(error) => matches!(error.kind(), ErrorKind::Interrupted),
    }
}

/// Reads some bytes, and again where a signal breaks the call off.
pub(crate) fn read_some(stream: &mut TcpStream, room: &mut [u8]) -> io::Result<usize>
    ensures { IfOk result (λ count. count ≤ length room.old) }
{
    for _broken in 0..AGAIN {
        let told = stream.read(room);
        if !is_interrupted(&told) {
            return told;
        }
    }
    stream.read(room)
}

/// Writes some bytes, and again where a signal breaks the call off.
fn write_some(stream: &mut TcpStream, piece: &[u8]) -> io::Result<usize>
    ensures { IfOk result (λ count. count ≤ length piece.now) }
{
    for _broken in 0..AGAIN {
        let told = stream.write(piece);
        if !is_interrupted(&told) {
            return told;
        }
    }
    stream.write(piece)
}

/// Has a socket wait until a moment, where that is still to come.
fn wait_until<R: Clock>(rt: &R, stream: &TcpStream, moment: Moment) -> io::Result<()> {
    let left = now(rt).until(moment);
    if left.is_zero() {
        return Err(io::Error::from(ErrorKind::TimedOut));
    }
    stream.set_nonblocking(false)?;
    stream.set_read_timeout(Some(left))?;
    stream.set_write_timeout(Some(left))
}

/// Reads some bytes, waiting until a moment at most.
pub(crate) fn read_until<R: Clock>(
    rt: &R,
    stream: &mut TcpStream,
    room: &mut [u8],
    moment: Moment,
) -> io::Result<usize>
    ensures { IfOk result (λ count. count ≤ length room.old) }
{
    wait_until(rt, stream, moment)?;
    read_some(stream, room)
}

/// Sends all of a piece, waiting until a moment at most.
pub(crate) fn write_until<R: Clock>(
    rt: &R,
    stream: &mut TcpStream,
    piece: &[u8],
    moment: Moment,
) -> io::Result<()> {
    let mut rest = piece;
    for _write in 0..piece.len() {
        if rest.is_empty() {
            return Ok(());
        }
        wait_until(rt, stream, moment)?;
        let count = write_some(stream, rest)?;
        if count == 0 {
            return Err(io::Error::from(ErrorKind::WriteZero));
        }
        let (_, left) = rest.split_at(count);
        rest = left;
    }
    Ok(())
}
