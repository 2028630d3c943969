//! Why a journal isn't opened, and why an edit of one is refused.
ghost use Rattle.std.specs.Prelude.{◌≡◌};
ghost use Rattle.live_journal.specs.declared.fault.EditFault.TheVariants as refused;
ghost use Rattle.live_journal.specs.declared.fault.OpenFault.TheVariants as unopened;
ghost use Rattle.live_journal.specs.Faults.{added_refusal, as_refusal, unread_refusal};

use additions::AddFault;
use book::Fault;
use entry_reader::ReadFault;
use hl_base::Memory;
use std::alloc::AllocError;

/// Why a text makes no journal.
#[derive(Debug, Drop)]
pub enum OpenFault {
    /// It has a fault.
    Load(Fault),
    /// It has more bytes or items than it may have.
    TooLarge { limit: u64, size: u64 },
    /// Memory ran out.
    Memory,
}

/// Why an edit is refused.
#[derive(Debug, Drop)]
pub enum EditFault {
    /// Its base is above the revision.
    BadBase { base: u64, current: u64 },
    /// Its base is below the revision.
    Stale { base: u64, current: u64 },
    /// The text has no item of the number.
    NoSuchItem { n: u64, count: u64 },
    /// The item or the entry isn't one of transactions: the line in the entry, or 0 for the item.
    NotTransactions { line: u64 },
    /// The new text would have more bytes or items than it may have.
    TooLarge { limit: u64, size: u64 },
    /// The new text would have a fault.
    Load(Fault),
    /// Memory ran out.
    Memory,
}

impl From<Memory> for OpenFault {
    ghost from_gives = { λ _ e. e ≡ unopened.Memory };

    fn from(_memory: Memory) -> OpenFault {
        OpenFault::Memory
    }
}

impl From<Memory> for EditFault {
    ghost from_gives = { λ _ e. e ≡ refused.Memory };

    fn from(_memory: Memory) -> EditFault {
        EditFault::Memory
    }
}

impl From<AllocError> for EditFault {
    ghost from_gives = { λ _ e. e ≡ refused.Memory };

    fn from(_error: AllocError) -> EditFault {
        EditFault::Memory
    }
}

impl From<OpenFault> for EditFault {
    ghost from_gives = { λ fault e. e ≡ as_refusal fault };

    fn from(fault: OpenFault) -> EditFault {
        match fault {
            OpenFault::Load(fault) => EditFault::Load(fault),
            OpenFault::TooLarge { limit, size } => EditFault::TooLarge { limit, size },
            OpenFault::Memory => EditFault::Memory,
        }
    }
}

impl From<AddFault> for EditFault {
    ghost from_gives = { λ fault e. e ≡ added_refusal fault };

    fn from(fault: AddFault) -> EditFault {
        match fault {
            AddFault::Load(fault) => EditFault::Load(fault),
            AddFault::Memory => EditFault::Memory,
        }
    }
}

impl From<ReadFault> for EditFault {
    ghost from_gives = { λ fault e. e ≡ unread_refusal fault };

    fn from(fault: ReadFault) -> EditFault {
        match fault {
            ReadFault::Read(fault) => EditFault::Load(fault),
            ReadFault::Memory => EditFault::Memory,
        }
    }
}
