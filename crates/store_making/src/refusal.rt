//! Why there is no store with a journal.
ghost use Rattle.std.specs.Prelude.{◌≡◌};
ghost use Rattle.store_making.specs.Refusals as spec;

use book::Fault;
use live_journal::OpenFault;
use store_text::StoreRefusal;

/// Why a store of a journal isn't made or opened.
#[derive(Debug, Drop)]
pub enum JournalRefusal {
    /// Its disks weren't taken, or the store refused.
    Store(StoreRefusal),
    /// The text has a fault.
    Load(Fault),
    /// The text has more bytes or items than it may have.
    TooLarge { limit: u64, size: u64 },
    /// Memory ran out.
    Memory,
}

/// Why a text makes no journal.
pub fn of_text(fault: OpenFault) -> JournalRefusal
    ensures { result ≡ spec.of_text fault }
{
    match fault {
        OpenFault::Load(fault) => JournalRefusal::Load(fault),
        OpenFault::TooLarge { limit, size } => JournalRefusal::TooLarge { limit, size },
        OpenFault::Memory => JournalRefusal::Memory,
    }
}

/// Why the files of a store weren't made.
pub fn of_store(refusal: StoreRefusal) -> JournalRefusal
    ensures { result ≡ spec.of_store refusal }
{
    match refusal {
        StoreRefusal::Memory => JournalRefusal::Memory,
        StoreRefusal::Absent => JournalRefusal::Store(StoreRefusal::Absent),
        StoreRefusal::NotAStore { at } => JournalRefusal::Store(StoreRefusal::NotAStore { at }),
        StoreRefusal::Newer { version } => JournalRefusal::Store(StoreRefusal::Newer { version }),
        StoreRefusal::Exists { len } => JournalRefusal::Store(StoreRefusal::Exists { len }),
        StoreRefusal::Full { size, limit } => {
            JournalRefusal::Store(StoreRefusal::Full { size, limit })
        }
        StoreRefusal::ReadFault => JournalRefusal::Store(StoreRefusal::ReadFault),
        StoreRefusal::DiskFault => JournalRefusal::Store(StoreRefusal::DiskFault),
    }
}
