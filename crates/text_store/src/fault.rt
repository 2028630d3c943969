//! Why a call of a store was refused.
ghost use Rattle.std.specs.Prelude.{◌≡◌};
ghost use Rattle.text_store.specs.declared.fault.StoreFault.TheVariants.{Memory as NoMemory, DiskFault as FailedDisk};

use hl_base::{Failed, Memory};
use std::alloc::AllocError;

/// Why a call of a store was refused. Sizes, limits, lengths and places are in bytes.
#[derive(Clone, Copy, Debug, PartialEq, Eq)]
pub enum StoreFault {
    /// A call of a disk failed.
    DiskFault,
    /// The files have no image; the place is that of the first thing that is wrong.
    NotAStore { at: u64 },
    /// The first file was made by a later edition.
    Newer { version: u8 },
    /// The file would pass its limit.
    Full { size: u64, limit: u64 },
    /// A file isn't empty.
    Exists { len: u64 },
    Memory,
}

impl From<Memory> for StoreFault {
    ghost from_gives = { λ _ e. e ≡ NoMemory };

    fn from(_memory: Memory) -> StoreFault {
        StoreFault::Memory
    }
}

impl From<Failed> for StoreFault {
    ghost from_gives = { λ _ e. e ≡ FailedDisk };

    fn from(_failed: Failed) -> StoreFault {
        StoreFault::DiskFault
    }
}

impl From<AllocError> for StoreFault {
    ghost from_gives = { λ _ e. e ≡ NoMemory };

    fn from(_error: AllocError) -> StoreFault {
        StoreFault::Memory
    }
}
