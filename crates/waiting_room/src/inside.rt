//! The connections in the room, and what its lock guards besides.
use crate::accepting::{Accepted, PAUSE, accept_once};
use crate::closing::first_to_close;
use crate::connection::{Connection, Turn};
use crate::deadlines::{Moment, Phase};
use crate::limits::{MOST_BODIES, MOST_HEADS, MOST_REPLIES};
use crate::poller::Poller;
use mio::unix::SourceFd;
use mio::{Interest, Registry, Token};
use std::alloc::Global;
use std::collections::{BTreeMap, VecDeque};
use std::net::{TcpListener, TcpStream};
use std::time::Duration;
use web_messages::paths::Paths;

/// How many connections are accepted before the others have their turn.
const ACCEPTS: u64 = 64;

/// How long a wait for the sockets takes at most, in milliseconds, so that deadlines are seen.
const ROUND: u64 = 1000;

/// The token of the listener. Those of connections are others.
pub(crate) const LISTENER: usize = 0;

/// What a worker does next.
#[derive(Drop)]
pub(crate) enum Step {
    /// It serves a connection.
    Serve(Connection),
    /// It waits for the sockets, for so long at most.
    Poll(Poller, Duration),
    /// It sleeps until another worker comes back.
    Sleep,
    /// It ends, since the listener is gone.
    End,
}

/// What the room counts of a connection that a worker has.
#[derive(Clone, Copy, Debug, PartialEq, Eq)]
pub(crate) struct Lent {
    /// The bytes that it keeps in memory.
    pub bytes: usize,
    /// Whether the worker reads or writes by itself.
    pub is_direct: bool,
}

/// What the room's lock guards.
#[derive(Drop)]
pub(crate) struct Inside {
    pub alloc: Global,
    pub paths: Paths,
    pub listener: TcpListener,
    pub registry: Registry,
    pub poller: Option<Poller>,
    pub waiting: BTreeMap<usize, Connection>,
    /// Those that a worker can take, in order. A connection goes to the end with each of its messages.
    pub ready: VecDeque<usize>,
    /// Those that may go on at once.
    pub again: VecDeque<usize>,
    /// Those whose body isn't received, since too many bytes wait.
    pub stalled: VecDeque<usize>,
    pub last_token: usize,
    /// The most connections.
    pub most: usize,
    /// How many bytes wait, in the room and in the hands of workers.
    pub bytes: usize,
    /// How many connections workers have.
    pub lent: usize,
    pub workers: usize,
    /// How many workers read a body or write a reply by themselves, or are to.
    pub direct: usize,
    /// When connections are accepted again, where any may wait.
    pub accepts_at: Option<Moment>,
    /// When the deadlines are looked at again.
    pub closes_at: Moment,
    /// Whether the listener is gone.
    pub is_gone: bool,
}

/// What a socket is watched for.
fn interest_of(connection: &Connection) -> Interest {
    if connection.waits_to_send() {
        Interest::WRITABLE
    } else {
        Interest::READABLE
    }
}

impl Inside {
    /// Whether a worker that sleeps would find something to do.
    pub(crate) fn has_work(&self) -> bool {
        self.poller.is_some() || !self.ready.is_empty()
    }

    /// What a worker does next.
    pub(crate) fn step(&mut self, now: Moment) -> Step {
        if let Some(connection) = self.take_ready() {
            return Step::Serve(connection);
        }
        if self.is_gone {
            return Step::End;
        }
        let pause = self.pause(now);
        match self.poller.take() {
            Some(poller) => Step::Poll(poller, pause),
            None => Step::Sleep,
        }
    }

    /// How long the sockets may be waited for.
    fn pause(&self, now: Moment) -> Duration {
        if !self.again.is_empty() {
            return Duration::from_millis(0);
        }
        match self.accepts_at {
            Some(moment) if moment.is_before(now.plus(ROUND)) => now.until(moment),
            _ => Duration::from_millis(ROUND),
        }
    }

    /// The first connection that a worker can take, which leaves the room.
    fn take_ready(&mut self) -> Option<Connection> {
        for _ready in 0..self.ready.len() {
            let token = self.ready.pop_front()?;
            if let Some(connection) = self.remove(token) {
                self.lent = self.lent.saturating_add(1);
                self.bytes = self.bytes.saturating_add(connection.size());
                return Some(connection);
            }
        }
        None
    }

    /// Takes a connection out of the room.
    fn remove(&mut self, token: usize) -> Option<Connection> {
        let connection = self.waiting.remove(&token)?;
        self.bytes = self.bytes.saturating_sub(connection.size());
        let descriptor = connection.descriptor();
        let _ = self.registry.deregister(&mut SourceFd(&descriptor));
        Some(connection)
    }

    /// Closes a connection.
    fn close(&mut self, token: usize) {
        if let Some(connection) = self.remove(token) {
            if connection.is_unread() {
                self.end_direct();
            }
        }
    }

    /// Closes the connection whose closing costs least, where one may be closed.
    fn close_one(&mut self) {
        let mut best = None;
        for (token, connection) in &self.waiting {
            best = first_to_close(best, *token, connection);
        }
        if let Some(candidate) = best {
            self.close(candidate.token);
        }
    }

    /// How many connections there are.
    fn count(&self) -> usize {
        self.waiting.len().saturating_add(self.lent)
    }

    /// Puts a connection into the room, and has its socket watched. Without the memory or the handle for it the connection is closed.
    fn insert(&mut self, connection: Connection) -> Option<usize> {
        let token = self.last_token.saturating_add(1);
        let descriptor = connection.descriptor();
        let interest = interest_of(&connection);
        let size = connection.size();
        self.registry
            .register(&mut SourceFd(&descriptor), Token(token), interest)
            .ok()?;
        self.waiting.insert(token, connection).ok()?;
        self.last_token = token;
        self.bytes = self.bytes.saturating_add(size);
        Some(token)
    }

    /// Has a connection's socket watched for what it waits for now.
    fn watch_anew(&mut self, token: usize) {
        let Some(connection) = self.waiting.get(&token) else {
            return;
        };
        let descriptor = connection.descriptor();
        let interest = interest_of(connection);
        let watched = self
            .registry
            .reregister(&mut SourceFd(&descriptor), Token(token), interest);
        if watched.is_err() {
            self.close(token);
        }
    }

    /// Lets a connection have its turn again after the others: at once, or once fewer bytes wait.
    fn enqueue(&mut self, token: usize, at_once: bool) {
        let Some(connection) = self.waiting.get_mut(&token) else {
            return;
        };
        if connection.is_queued {
            return;
        }
        connection.is_queued = true;
        let pushed = if at_once {
            self.again.push_back(token)
        } else {
            self.stalled.push_back(token)
        };
        if pushed.is_err() {
            self.close(token);
        }
    }

    /// Gives a connection that was queued its turn.
    fn dequeue(&mut self, token: usize, now: Moment) {
        if let Some(connection) = self.waiting.get_mut(&token) {
            connection.is_queued = false;
        }
        self.turn(token, now);
    }

    /// Does what a turn of a connection led to.
    fn follow(&mut self, token: usize, turn: Turn) {
        match turn {
            Turn::Waits => {}
            Turn::Again => self.enqueue(token, true),
            Turn::Ready => {
                if self.ready.push_back(token).is_err() {
                    self.close(token);
                }
            }
            Turn::Over => self.close(token),
        }
    }

    /// Whether a connection may receive more bytes into the room.
    fn has_bytes_for(&self, phase: Phase) -> bool {
        match phase {
            Phase::Idle | Phase::Head => self.bytes < MOST_HEADS,
            Phase::Body => self.bytes < MOST_BODIES,
            Phase::Ready | Phase::Reply | Phase::Parting => true,
        }
    }

    /// Gives a connection its turn.
    fn turn(&mut self, token: usize, now: Moment) {
        let Some(connection) = self.waiting.get(&token) else {
            return;
        };
        if self.has_bytes_for(connection.phase()) {
            self.advance(token, now);
        } else {
            self.refuse_bytes(token, now);
        }
    }

    /// Advances a connection as far as it goes without waiting.
    fn advance(&mut self, token: usize, now: Moment) {
        let Some(connection) = self.waiting.get_mut(&token) else {
            return;
        };
        let size = connection.size();
        let sends = connection.waits_to_send();
        let turn = connection.advance(self.alloc, &self.paths, now);
        let new_size = connection.size();
        let changed = sends != connection.waits_to_send();
        self.bytes = self.bytes.saturating_sub(size).saturating_add(new_size);
        if changed {
            self.watch_anew(token);
        }
        self.follow(token, turn);
    }

    /// Doesn't receive from a connection while too many bytes wait: a worker reads a body by itself, or it is received later; a
    /// connection with a part of a head is closed.
    fn refuse_bytes(&mut self, token: usize, now: Moment) {
        let may_be_direct = self.may_be_direct();
        let Some(connection) = self.waiting.get_mut(&token) else {
            return;
        };
        match connection.phase() {
            Phase::Body if may_be_direct => {
                connection.offer_unread(now);
                self.direct = self.direct.saturating_add(1);
                self.follow(token, Turn::Ready);
            }
            Phase::Body => self.enqueue(token, false),
            _ => self.close(token),
        }
    }

    /// Gives those bodies their turn that weren't received, once fewer bytes wait or a worker may read one by itself.
    fn resume_stalled(&mut self, now: Moment) {
        for _stalled in 0..self.stalled.len() {
            if !self.has_bytes_for(Phase::Body) && !self.may_be_direct() {
                return;
            }
            let Some(token) = self.stalled.pop_front() else {
                return;
            };
            self.dequeue(token, now);
        }
    }

    /// Admits a connection that was accepted. Where there are as many as there may be, another is closed for it, or else it is.
    fn admit(&mut self, stream: TcpStream, now: Moment) {
        if self.count() >= self.most {
            self.close_one();
        }
        if self.count() >= self.most {
            return;
        }
        if let Ok(connection) = Connection::new(self.alloc, stream, now) {
            let _ = self.insert(connection);
        }
    }

    /// Accepts the connections that wait at the listener, some at a time. A fault may be for want of a handle, so that the
    /// connection is closed whose closing costs least, and the listener is left alone for a moment.
    fn accept(&mut self, now: Moment) {
        for _accepted in 0..ACCEPTS {
            match accept_once(&self.listener) {
                Accepted::Stream(stream) => self.admit(stream, now),
                Accepted::BrokenOff => {}
                Accepted::Nothing => {
                    self.accepts_at = None;
                    return;
                }
                Accepted::Fault => {
                    self.close_one();
                    self.accepts_at = Some(now.plus(PAUSE));
                    return;
                }
                Accepted::Gone => {
                    self.is_gone = true;
                    return;
                }
            }
        }
        self.accepts_at = Some(now);
    }

    /// Accepts connections where any may wait and the pause after a fault is over.
    fn accept_due(&mut self, now: Moment) {
        match self.accepts_at {
            Some(moment) if !now.is_before(moment) => self.accept(now),
            _ => {}
        }
    }

    /// The connections whose peers took too long, as many as memory allows to list.
    fn overdue(&self, now: Moment) -> Vec<usize> {
        let mut tokens = Vec::new(self.alloc);
        for (token, connection) in &self.waiting {
            if connection.is_overdue(now) && tokens.push(*token).is_err() {
                return tokens;
            }
        }
        tokens
    }

    /// Closes the connections whose peers took too long.
    fn close_overdue(&mut self, now: Moment) {
        if now.is_before(self.closes_at) {
            return;
        }
        self.closes_at = now.plus(ROUND);
        for token in self.overdue(now) {
            self.close(token);
        }
    }

    /// Notes that a socket is ready.
    fn note(&mut self, token: usize, now: Moment) {
        if token != LISTENER {
            self.turn(token, now);
        } else if self.accepts_at.is_none() {
            self.accepts_at = Some(now);
        }
    }

    /// Gives those their turn that may go on at once.
    fn go_on(&mut self, now: Moment) {
        for _turn in 0..self.again.len() {
            if let Some(token) = self.again.pop_front() {
                self.dequeue(token, now);
            }
        }
    }

    /// Takes the poller back, and does what the ready sockets allow.
    pub(crate) fn take_poller(&mut self, poller: Poller, now: Moment) {
        self.go_on(now);
        for event in poller.events.iter() {
            let Token(token) = event.token();
            self.note(token, now);
        }
        self.accept_due(now);
        self.resume_stalled(now);
        self.close_overdue(now);
        self.poller = Some(poller);
    }

    /// Whether one more worker may read a body or write a reply by itself: half of them may, and at least one.
    fn may_be_direct(&self) -> bool {
        self.direct < (self.workers / 2).max(1)
    }

    /// Counts one more worker that writes a reply by itself, where one may.
    pub(crate) fn begin_direct(&mut self) -> bool {
        if !self.may_be_direct() {
            return false;
        }
        self.direct = self.direct.saturating_add(1);
        true
    }

    /// Counts one fewer of the workers that read or write by themselves.
    fn end_direct(&mut self) {
        self.direct = self.direct.saturating_sub(1);
    }

    /// Counts more bytes of a reply, where so many may wait.
    pub(crate) fn reserve(&mut self, count: usize) -> bool {
        let bytes = self.bytes.saturating_add(count);
        if bytes > MOST_REPLIES {
            return false;
        }
        self.bytes = bytes;
        true
    }

    /// Counts no more what a worker had.
    pub(crate) fn forget(&mut self, lent: &Lent) {
        self.lent = self.lent.saturating_sub(1);
        self.bytes = self.bytes.saturating_sub(lent.bytes);
        if lent.is_direct {
            self.end_direct();
        }
    }

    /// Takes a connection back from a worker.
    pub(crate) fn take_back(
        &mut self,
        connection: Connection,
        lent: &Lent,
        served: bool,
        now: Moment,
    ) {
        self.forget(lent);
        let mut connection = connection;
        let turn = connection.resume(self.alloc, &self.paths, served, now);
        if turn == Turn::Over {
            return;
        }
        if let Some(token) = self.insert(connection) {
            self.follow(token, turn);
        }
    }
}
