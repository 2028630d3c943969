//! Why a text isn't read.
ghost use Rattle.std.specs.Prelude.{◌≡◌};
ghost use Rattle.entry_reader.specs.Causes as spec;
ghost use Rattle.entry_reader.specs.declared.fault.ReadFault.TheVariants.{Memory, Read};

use book::{Cause, Fault};
use std::alloc::{AllocError, AllocFailed};

/// Why a text isn't read.
#[derive(Debug, Drop)]
pub enum ReadFault {
    /// A fault of the text.
    Read(Fault),
    /// Memory ran out.
    Memory,
}

impl From<hl_base::Memory> for ReadFault {
    ghost from_gives = { λ _ e. e ≡ Memory };

    fn from(_error: hl_base::Memory) -> ReadFault {
        ReadFault::Memory
    }
}

impl From<AllocError> for ReadFault {
    ghost from_gives = { λ _ e. e ≡ Memory };

    fn from(_error: AllocError) -> ReadFault {
        ReadFault::Memory
    }
}

impl<T: Drop> From<AllocFailed<T>> for ReadFault {
    ghost from_gives = { λ _ e. e ≡ Memory };

    fn from(_error: AllocFailed<T>) -> ReadFault {
        ReadFault::Memory
    }
}

/// A fault of the text in a line.
pub fn fault_at(line: u64, cause: Cause) -> ReadFault
    ensures { result ≡ Read (spec.fault_at line cause) }
{
    ReadFault::Read(Fault { line, cause })
}
