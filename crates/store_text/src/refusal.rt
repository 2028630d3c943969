//! Why a store isn't read, opened or made.
ghost use Rattle.std.specs.Prelude.{◌≡◌};
ghost use Rattle.store_text.specs.Refusals as spec;
ghost use Rattle.store_text.specs.declared.refusal.StoreRefusal.TheVariants.{Memory as NoMemory};

use hl_base::{Memory, ShelfFault};
use text_store::StoreFault;

/// Why a store isn't read, opened or made. Places, sizes, limits and lengths are in bytes.
#[derive(Clone, Copy, Debug, PartialEq, Eq)]
pub enum StoreRefusal {
    /// There is no file of its name.
    Absent,
    /// Its files have no image; the place is that of the first thing that is wrong.
    NotAStore { at: u64 },
    /// Its first file was made by a later edition.
    Newer { version: u8 },
    /// One of its files isn't empty.
    Exists { len: u64 },
    /// A file would pass the store's limit.
    Full { size: u64, limit: u64 },
    /// A disk couldn't be taken.
    ReadFault,
    /// A call of a disk failed.
    DiskFault,
    /// Memory ran out.
    Memory,
}

impl From<Memory> for StoreRefusal {
    ghost from_gives = { λ _ e. e ≡ NoMemory };

    fn from(_memory: Memory) -> StoreRefusal {
        StoreRefusal::Memory
    }
}

/// Why a disk wasn't taken. A take is never refused for a length.
pub(crate) fn untaken(fault: ShelfFault) -> StoreRefusal
    ensures { result ≡ spec.untaken fault }
{
    match fault {
        ShelfFault::Absent => StoreRefusal::Absent,
        ShelfFault::Failed | ShelfFault::TooLong { .. } => StoreRefusal::ReadFault,
        ShelfFault::Memory => StoreRefusal::Memory,
    }
}

/// The refusal of a store, as that of a command.
pub fn unopened(fault: StoreFault) -> StoreRefusal
    ensures { result ≡ spec.unopened fault }
{
    match fault {
        StoreFault::DiskFault => StoreRefusal::DiskFault,
        StoreFault::NotAStore { at } => StoreRefusal::NotAStore { at },
        StoreFault::Newer { version } => StoreRefusal::Newer { version },
        StoreFault::Full { size, limit } => StoreRefusal::Full { size, limit },
        StoreFault::Exists { len } => StoreRefusal::Exists { len },
        StoreFault::Memory => StoreRefusal::Memory,
    }
}
