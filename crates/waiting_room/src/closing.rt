//! Which connection is closed where there are too many.
use crate::connection::Connection;
use crate::deadlines::{Moment, Phase};

/// How readily a connection is closed where there are too many, the lowest first. One that a worker can take isn't closed.
fn rank(connection: &Connection) -> Option<u8> {
    match connection.phase() {
        Phase::Parting => Some(0),
        Phase::Idle => Some(1),
        Phase::Head => Some(2),
        Phase::Body => Some(3),
        Phase::Reply => Some(4),
        Phase::Ready => None,
    }
}

/// A connection that may be closed, and why rather than another.
#[derive(Clone, Copy)]
pub(crate) struct Candidate {
    pub token: usize,
    rank: u8,
    since: Moment,
}

impl Candidate {
    /// Whether it is closed rather than another.
    fn goes_before(&self, other: &Candidate) -> bool {
        self.rank < other.rank || (self.rank == other.rank && self.since.is_before(other.since))
    }
}

/// Whichever of a candidate and a connection is closed first.
pub(crate) fn first_to_close(
    best: Option<Candidate>,
    token: usize,
    connection: &Connection,
) -> Option<Candidate> {
    let Some(rank) = rank(connection) else {
        return best;
    };
    let candidate = Candidate {
        token,
        rank,
        since: connection.since(),
    };
    match best {
        Some(best) if !candidate.goes_before(&best) => Some(best),
        _ => Some(candidate),
    }
}
