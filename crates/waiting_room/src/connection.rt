//! A connection that waits: its socket, what was received of its next messages, and what its peer hasn't received yet of replies.
ghost use Rattle.std.specs.Prelude.{◌≤◌, length};

use crate::deadlines::{Moment, Phase, has_passed};
use crate::fronts::{Front, copy_front, front_of};
use crate::unsent::{Sending, Unsent, Written, write_at_once};
use std::alloc::{AllocError, Global};
use std::io::{self, ErrorKind, Read};
use std::net::{Shutdown, TcpStream};
use std::os::fd::{AsRawFd, RawFd};
use web_messages::paths::Paths;

/// How many bytes one read asks for.
const PIECE: usize = 16_384;

/// How many reads one turn of a connection makes.
const READS: u64 = 64;

/// What a turn of a connection led to.
#[derive(Clone, Copy, Debug, PartialEq, Eq)]
pub(crate) enum Turn {
    /// It waits for its peer.
    Waits,
    /// It may go on at once, after the others.
    Again,
    /// A worker can take it.
    Ready,
    /// It is to be closed.
    Over,
}

/// What one read of a socket that doesn't wait gave.
#[derive(Clone, Copy, Debug, PartialEq, Eq)]
enum Reading {
    /// So many bytes were read.
    Some(usize),
    /// The end was read.
    End,
    /// Nothing is there for now.
    Later,
    /// The connection is broken.
    Never,
}

/// A connection that waits.
#[derive(Drop)]
pub(crate) struct Connection {
    pub stream: TcpStream,
    phase: Phase,
    since: Moment,
    deadline: Option<Moment>,
    /// The bytes that were received and belong to no message that was answered.
    received: Vec<u8>,
    /// Whether the peer's end was read.
    ended: bool,
    /// The length of the message whose head has come, and else 0.
    needed: usize,
    /// How many bytes a worker takes.
    offered: usize,
    /// Whether they are a whole message.
    is_whole: bool,
    pub unsent: Unsent,
    /// Whether the connection goes on after the reply.
    goes_on: bool,
    /// Whether it has its turn again without an event of its socket.
    pub is_queued: bool,
}

/// Reads what is there of a socket that doesn't wait.
fn read_at_once(stream: &mut TcpStream, piece: &mut [u8]) -> Reading {
    match stream.read(piece) {
        Ok(0) => Reading::End,
        Ok(count) => Reading::Some(count),
        Err(error) => match error.kind() {
            ErrorKind::WouldBlock => Reading::Later,
            ErrorKind::Interrupted => Reading::Some(0),
            _ => Reading::Never,
        },
    }
}

/// A socket that doesn't wait, and sends each reply at once.
fn prepare(stream: &TcpStream) -> io::Result<()> {
    stream.set_nonblocking(true)?;
    stream.set_nodelay(true)
}

impl Connection {
    /// A connection that was just accepted.
    pub(crate) fn new(alloc: Global, stream: TcpStream, now: Moment) -> io::Result<Connection> {
        prepare(&stream)?;
        Ok(Connection {
            stream,
            phase: Phase::Idle,
            since: now,
            deadline: now.end_of(Phase::Idle),
            received: Vec::new(alloc),
            ended: false,
            needed: 0,
            offered: 0,
            is_whole: false,
            unsent: Unsent::new(alloc),
            goes_on: true,
            is_queued: false,
        })
    }

    /// The socket's descriptor.
    pub(crate) fn descriptor(&self) -> RawFd {
        self.stream.as_raw_fd()
    }

    pub(crate) fn phase(&self) -> Phase {
        self.phase
    }

    /// When its phase began.
    pub(crate) fn since(&self) -> Moment {
        self.since
    }

    /// Whether it waits for its peer to take bytes, and not to send some.
    pub(crate) fn waits_to_send(&self) -> bool {
        matches!(self.phase, Phase::Reply)
    }

    /// How many bytes it keeps in memory.
    pub(crate) fn size(&self) -> usize {
        self.received.len().saturating_add(self.unsent.size())
    }

    /// Whether its peer took too long.
    pub(crate) fn is_overdue(&self, now: Moment) -> bool {
        has_passed(self.deadline, now)
    }

    /// Begins a phase, unless it is in it.
    fn enter(&mut self, phase: Phase, now: Moment) {
        if self.phase != phase {
            self.phase = phase;
            self.since = now;
            self.deadline = now.end_of(phase);
        }
    }

    /// Does what can be done without waiting.
    pub(crate) fn advance(&mut self, alloc: Global, paths: &Paths, now: Moment) -> Turn {
        match self.phase {
            Phase::Idle | Phase::Head | Phase::Body => self.receive(alloc, paths, now),
            Phase::Ready => Turn::Waits,
            Phase::Reply => self.send(alloc, paths, now),
            Phase::Parting => self.pass_over(),
        }
    }

    /// Receives what is there, up to a whole message.
    fn receive(&mut self, alloc: Global, paths: &Paths, now: Moment) -> Turn {
        let begun = self.phase;
        let mut piece = [0u8; PIECE];
        for _read in 0..READS {
            match self.receive_piece(&mut piece) {
                Reading::Some(_) | Reading::End => match self.settle(alloc, paths, now) {
                    Turn::Waits => {
                        if self.begins_body(begun) {
                            return Turn::Again;
                        }
                    }
                    turn => return turn,
                },
                Reading::Later => return Turn::Waits,
                Reading::Never => return Turn::Over,
            }
        }
        Turn::Again
    }

    /// Whether a body follows a head that came in this turn. The rest of it is received in a turn of its own, where bodies may be.
    fn begins_body(&self, begun: Phase) -> bool {
        begun != Phase::Body && self.phase == Phase::Body
    }

    /// Receives one piece.
    fn receive_piece(&mut self, piece: &mut [u8]) -> Reading {
        let reading = read_at_once(&mut self.stream, piece);
        match reading {
            Reading::Some(count) => match self.keep(piece, count) {
                Ok(()) => reading,
                Err(_) => Reading::Never,
            },
            Reading::End => {
                self.ended = true;
                reading
            }
            Reading::Later | Reading::Never => reading,
        }
    }

    /// Keeps so many bytes from the front of a piece.
    fn keep(&mut self, piece: &[u8], count: usize) -> Result<(), AllocError> {
        let (read, _) = piece.split_at(count.min(piece.len()));
        self.received.extend_from_slice(read)
    }

    /// Offers so many bytes to a worker.
    fn offer(&mut self, count: usize, is_whole: bool, now: Moment) -> Turn {
        self.offered = count;
        self.is_whole = is_whole;
        self.enter(Phase::Ready, now);
        Turn::Ready
    }

    /// What the bytes that were received begin with.
    fn front(&self, alloc: Global, paths: &Paths) -> Front {
        front_of(alloc, paths, self.received.as_slice(), self.ended)
    }

    /// Looks whether a worker can take what was received.
    fn settle(&mut self, alloc: Global, paths: &Paths, now: Moment) -> Turn {
        let come = self.received.len();
        let needed = self.needed;
        if needed > 0 && come >= needed {
            return self.offer(needed, true, now);
        }
        if needed > 0 && !self.ended {
            return Turn::Waits;
        }
        match self.front(alloc, paths) {
            Front::Message(total) => self.offer(total, true, now),
            Front::Broken => self.offer(come, false, now),
            Front::Over | Front::NoMemory => Turn::Over,
            Front::Head => {
                if come > 0 {
                    self.enter(Phase::Head, now);
                }
                Turn::Waits
            }
            Front::Body(total) => {
                self.needed = total;
                self.enter(Phase::Body, now);
                Turn::Waits
            }
        }
    }

    /// Offers a message whose body hasn't come to a worker that reads the rest by itself.
    pub(crate) fn offer_unread(&mut self, now: Moment) {
        let needed = self.needed;
        let _ = self.offer(needed, true, now);
    }

    /// Whether a worker has to read a part of what it takes by itself.
    pub(crate) fn is_unread(&self) -> bool {
        self.received.len() < self.offered
    }

    /// Sends what the peer takes of the reply.
    fn send(&mut self, alloc: Global, paths: &Paths, now: Moment) -> Turn {
        match self.unsent.send(&mut self.stream) {
            Sending::Done => {
                self.unsent = Unsent::new(alloc);
                self.go_on(alloc, paths, now)
            }
            Sending::Waits => Turn::Waits,
            Sending::Again => Turn::Again,
            Sending::Broken => Turn::Over,
        }
    }

    /// Goes on after a reply: to the next message, or to the end.
    fn go_on(&mut self, alloc: Global, paths: &Paths, now: Moment) -> Turn {
        if self.goes_on {
            self.enter(Phase::Idle, now);
            return self.settle(alloc, paths, now);
        }
        if self.stream.shutdown(Shutdown::Write).is_err() {
            return Turn::Over;
        }
        self.enter(Phase::Parting, now);
        Turn::Waits
    }

    /// Passes over what the peer still sends.
    fn pass_over(&mut self) -> Turn {
        let mut piece = [0u8; PIECE];
        for _read in 0..READS {
            match read_at_once(&mut self.stream, &mut piece) {
                Reading::Some(_) => {}
                Reading::Later => return Turn::Waits,
                Reading::End | Reading::Never => return Turn::Over,
            }
        }
        Turn::Again
    }

    /// The bytes of a worker's message that were received, from a place on.
    fn message_from(&self, at: usize) -> &[u8] {
        let received = self.received.as_slice();
        let (message, _) = received.split_at(self.offered.min(received.len()));
        let (_, rest) = message.split_at(at.min(message.len()));
        rest
    }

    /// Copies bytes of a worker's message, from a place on, to the front of the room, and returns how many.
    pub(crate) fn copy_message(&self, at: usize, room: &mut [u8]) -> usize
        ensures { result ≤ length room.old }
    {
        copy_front(self.message_from(at), room)
    }

    /// How many bytes of a worker's message follow a place.
    pub(crate) fn left_after(&self, at: usize) -> usize {
        self.offered.saturating_sub(at)
    }

    /// Whether bytes of a reply are left that the peer hasn't taken.
    fn has_unsent(&self) -> bool {
        !self.unsent.is_empty()
    }

    /// Sends what the peer takes at once of a piece, where it took all before.
    pub(crate) fn write(&mut self, piece: &[u8]) -> Written {
        if self.has_unsent() {
            return Written::Later;
        }
        write_at_once(&mut self.stream, piece)
    }

    /// Has the socket wait no more.
    pub(crate) fn stop_waiting(&self) -> io::Result<()> {
        self.stream.set_nonblocking(true)
    }

    /// A copy of what was received, from a place on.
    fn received_from(&self, alloc: Global, at: usize) -> Result<Vec<u8>, AllocError> {
        let received = self.received.as_slice();
        let (_, rest) = received.split_at(at.min(received.len()));
        Vec::from_slice(alloc, rest)
    }

    /// Forgets the message that was answered. Where it was whole, and served to its end with no fault, the connection goes on.
    fn forget_message(&mut self, alloc: Global, served: bool) -> Result<(), AllocError> {
        self.goes_on = served && self.is_whole;
        let used = if self.goes_on {
            self.offered
        } else {
            self.received.len()
        };
        self.received = self.received_from(alloc, used)?;
        self.needed = 0;
        self.offered = 0;
        self.is_whole = false;
        self.is_queued = false;
        Ok(())
    }

    /// Goes on once a worker has answered.
    pub(crate) fn resume(
        &mut self,
        alloc: Global,
        paths: &Paths,
        served: bool,
        now: Moment,
    ) -> Turn {
        if self.forget_message(alloc, served).is_err() {
            return Turn::Over;
        }
        if self.has_unsent() {
            self.enter(Phase::Reply, now);
            return Turn::Waits;
        }
        self.unsent = Unsent::new(alloc);
        self.go_on(alloc, paths, now)
    }
}
