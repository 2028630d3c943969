//! How many connections there may be, and how many bytes may wait.
use libc::types::rlimit;
use libc::{RLIMIT_NOFILE, getrlimit};

/// The most connections.
const MOST_CONNECTIONS: usize = 10_000;

/// How many of the process's handles are left for other uses.
const OTHER_HANDLES: usize = 32;

/// The handles of a process whose limit can't be read.
const USUAL_HANDLES: u64 = 1024;

/// How many bytes wait in the room before a connection is closed that sends a head. A turn of a connection receives 1 MiB at most,
/// so that less than 64 MiB wait.
pub(crate) const MOST_HEADS: usize = 58_720_256;

/// How many bytes wait in the room before no more of a body is received into it.
pub(crate) const MOST_BODIES: usize = 50_331_648;

/// The most bytes that wait in the room with those of one more reply. Heads have the rest of the room, so that peers that don't
/// take their replies don't keep others from being answered.
pub(crate) const MOST_REPLIES: usize = 50_331_648;

/// The most connections that the process's handles allow.
pub(crate) fn most_connections() -> usize {
    let mut limit = rlimit {
        rlim_cur: USUAL_HANDLES,
        rlim_max: USUAL_HANDLES,
    };
    getrlimit(RLIMIT_NOFILE, &mut limit);
    let handles = limit.rlim_cur.min(1 << 32) as usize;
    handles
        .saturating_sub(OTHER_HANDLES)
        .min(MOST_CONNECTIONS)
        .max(1)
}
