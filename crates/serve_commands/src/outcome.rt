//! What comes of serving a store.
use desk_team::HouseFault;
use store_making::JournalRefusal;

/// What is told when all workers have ended: the revision, the requests since the store was opened and those of them that were
/// refused, by counts that stay at 2^64 - 1, and whether a call of a door failed.
#[derive(Clone, Copy, Debug)]
pub struct Tally {
    pub revision: u64,
    pub requests: u64,
    pub refused: u64,
    pub failed: bool,
}

/// Why a store wasn't served.
#[derive(Debug, Drop)]
pub enum Unserved {
    /// The store wasn't opened.
    Store(JournalRefusal),
    /// The house didn't bind or hand out its kits, or memory ran out before the first link.
    House(HouseFault),
}
