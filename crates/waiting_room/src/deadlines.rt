//! Points of the monotonic clock, and how long each step of a connection may take.
use std::rt::Clock;
use std::time::Duration;

/// How long a connection may wait for the first byte of its next message, in seconds.
const FIRST_BYTE: u64 = 75;

/// How long a head may take from its first byte, in seconds.
const HEAD: u64 = 10;

/// How long a body may take, in seconds.
const BODY: u64 = 60;

/// How long a peer may take to receive a reply, in seconds.
const REPLY: u64 = 60;

/// How long a connection that is closed takes what its peer still sends, in seconds.
const PARTING: u64 = 5;

/// What a connection waits for.
#[derive(Clone, Copy, Debug, PartialEq, Eq)]
pub(crate) enum Phase {
    /// The first byte of its next message.
    Idle,
    /// The rest of a head.
    Head,
    /// The rest of a body.
    Body,
    /// A worker.
    Ready,
    /// Its peer, which hasn't received all of a reply.
    Reply,
    /// The end of what its peer still sends to a connection that is closed.
    Parting,
}

impl Phase {
    /// The seconds after which a phase is given up, where it is.
    fn limit(self) -> Option<u64> {
        match self {
            Phase::Idle => Some(FIRST_BYTE),
            Phase::Head => Some(HEAD),
            Phase::Body => Some(BODY),
            Phase::Ready => None,
            Phase::Reply => Some(REPLY),
            Phase::Parting => Some(PARTING),
        }
    }
}

/// A point of the monotonic clock, in milliseconds.
#[derive(Clone, Copy, Debug, PartialEq, Eq)]
pub(crate) struct Moment(u64);

/// The present. A clock that can't be read shows its start, at which no deadline has passed.
pub(crate) fn now(clock: &impl Clock) -> Moment {
    match clock.monotonic() {
        Ok(since) => Moment(since.as_millis().min(u64::MAX as u128) as u64),
        Err(_) => Moment(0),
    }
}

impl Moment {
    /// The start of the clock.
    pub(crate) fn start() -> Moment {
        Moment(0)
    }

    /// So many milliseconds later.
    pub(crate) fn plus(self, millis: u64) -> Moment {
        Moment(self.0.saturating_add(millis))
    }

    /// The end of a phase that begins here, where it has one.
    pub(crate) fn end_of(self, phase: Phase) -> Option<Moment> {
        match phase.limit() {
            Some(seconds) => Some(self.plus(seconds.saturating_mul(1000))),
            None => None,
        }
    }

    /// The end of a message that a worker reads or of a reply that it writes by itself.
    pub(crate) fn end_of_message(self) -> Moment {
        self.plus(BODY.saturating_mul(1000))
    }

    /// Whether this is before another moment.
    pub(crate) fn is_before(self, other: Moment) -> bool {
        self.0 < other.0
    }

    /// How long it takes until a later moment.
    pub(crate) fn until(self, later: Moment) -> Duration {
        Duration::from_millis(later.0.saturating_sub(self.0))
    }
}

/// Whether a deadline has passed.
pub(crate) fn has_passed(deadline: Option<Moment>, now: Moment) -> bool {
    match deadline {
        Some(deadline) => !now.is_before(deadline),
        None => false,
    }
}
