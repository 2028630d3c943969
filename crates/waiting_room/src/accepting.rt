//! How a listener hands over its next connection, and which of its faults pass.
use libc::{EBADF, EINVAL, ENOTSOCK};
use std::io::{self, ErrorKind};
use std::net::{TcpListener, TcpStream};
use std::rt::Clock;
use std::sync::Wait;
use std::thread::sleep;
use std::time::Duration;

/// How long a listener is left alone after a fault that passes, in milliseconds.
pub(crate) const PAUSE: u64 = 100;

/// What one call of `accept` gave.
#[derive(Drop)]
pub(crate) enum Accepted {
    Stream(TcpStream),
    /// No connection waits.
    Nothing,
    /// The connection was broken off before it was accepted.
    BrokenOff,
    /// A fault that passes, as where the process has no more handles or the network is down.
    Fault,
    /// The listener is gone.
    Gone,
}

/// Whether an error of `accept` says that there is no listener any more.
fn is_gone(error: &io::Error) -> bool {
    matches!(
        error.raw_os_error(),
        Some(code) if code == EBADF || code == EINVAL || code == ENOTSOCK
    )
}

/// What an error of `accept` says.
fn meaning(error: &io::Error) -> Accepted {
    if is_gone(error) {
        return Accepted::Gone;
    }
    match error.kind() {
        ErrorKind::WouldBlock => Accepted::Nothing,
        ErrorKind::ConnectionAborted | ErrorKind::ConnectionReset | ErrorKind::Interrupted => {
            Accepted::BrokenOff
        }
        _ => Accepted::Fault,
    }
}

/// Asks a listener for its next connection.
pub(crate) fn accept_once(listener: &TcpListener) -> Accepted {
    match listener.accept() {
        Ok((stream, _)) => Accepted::Stream(stream),
        Err(error) => meaning(&error),
    }
}

/// Waits for the next connection, however many faults pass before, unless the listener is gone.
pub(crate) fn accept_patiently<R: Wait + Clock>(
    rt: &R,
    listener: &TcpListener,
) -> Option<TcpStream> {
    for _ in rt.forever() {
        match accept_once(listener) {
            Accepted::Stream(stream) => return Some(stream),
            Accepted::BrokenOff => {}
            Accepted::Nothing | Accepted::Fault => sleep(rt, Duration::from_millis(PAUSE)),
            Accepted::Gone => return None,
        }
    }
    unreachable!()
}
