//! Why nothing is told of bytes behind a text.
ghost use Rattle.std.specs.Prelude.{◌≡◌};
ghost use Rattle.additions.specs.Faults.{unread};
ghost use Rattle.additions.specs.declared.fault.AddFault.TheVariants as add;

use book::Fault;
use entry_reader::ReadFault;
use std::alloc::{AllocError, AllocFailed};

/// Why nothing is told of bytes that are put behind a text.
#[derive(Debug, Drop)]
pub enum AddFault {
    /// The text with the bytes behind it has a fault.
    Load(Fault),
    /// Memory ran out.
    Memory,
}

impl From<hl_base::Memory> for AddFault {
    ghost from_gives = { λ _ e. e ≡ add.Memory };

    fn from(_memory: hl_base::Memory) -> AddFault {
        AddFault::Memory
    }
}

impl From<AllocError> for AddFault {
    ghost from_gives = { λ _ e. e ≡ add.Memory };

    fn from(_error: AllocError) -> AddFault {
        AddFault::Memory
    }
}

impl<T: Drop> From<AllocFailed<T>> for AddFault {
    ghost from_gives = { λ _ e. e ≡ add.Memory };

    fn from(_error: AllocFailed<T>) -> AddFault {
        AddFault::Memory
    }
}

impl From<ReadFault> for AddFault {
    ghost from_gives = { λ fault e. e ≡ unread fault };

    fn from(fault: ReadFault) -> AddFault {
        match fault {
            ReadFault::Read(fault) => AddFault::Load(fault),
            ReadFault::Memory => AddFault::Memory,
        }
    }
}
