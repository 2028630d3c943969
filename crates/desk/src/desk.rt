//! The machine: a journal, and the store that keeps it.
ghost use Rattle.std.specs.Prelude.{◌≡◌, None, true};
ghost use Rattle.desk.specs.Keeping.{are_writable};

use crate::request::Allow;
use hl_base::{Disk, Latest, List};
use live_journal::Live;
use text_store::Store;

/// The machine behind a shared journal: the journal, the states of its imports, what is allowed, and a store of two
/// disks that keeps it all.
#[derive(Drop)]
pub struct Desk<D: Disk> {
    pub(crate) store: Store<D>,
    pub(crate) live: Live,
    pub(crate) latest: List<Latest>,
    pub(crate) allow: Allow,
    pub(crate) requests: u64,
    pub(crate) refused: u64,
    ghost no_year: { live.year ≡ None },
    ghost writable: { are_writable latest ≡ true },
}

impl<D: Disk> Desk<D> {
    ghost use Rattle.text_store.specs.Stores.{disks};

    /// The revision, the requests since opening, and those of them whose reply wasn't `Done`, `Same` or `Text`. The last
    /// two stay at their last value.
    pub fn counts(&self) -> (u64, u64, u64)
        ensures { (result.0 ≡ self.now.live.revision) × (result.1 ≡ self.now.requests)
            × (result.2 ≡ self.now.refused) }
    {
        (self.live.revision(), self.requests, self.refused)
    }

    /// Gives both disks back, the first and the second. The program ends behind the last answer of a machine, so its
    /// journal isn't taken apart first: its memory is left to that end.
    pub fn close(self) -> (D, D)
        ensures { result ≡ disks self.store }
    {
        let Desk {
            store,
            live,
            latest: _,
            allow: _,
            requests: _,
            refused: _,
        } = self;
        std::mem::forget(live);
        store.close()
    }
}
