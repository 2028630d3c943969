//! Why a walk doesn't tell the new book.
ghost use Rattle.std.specs.Prelude.{◌≡◌};
ghost use Rattle.walked_edits.specs.Causes.{from_check, from_reach};
ghost use Rattle.walked_edits.specs.declared.fault.WalkFault.TheVariants.{Memory as NoMemory};

use balancing::CheckFault;
use hl_base::Memory;
use reached_walk::ReachFault;
use std::alloc::AllocFailed;

/// Why a walk doesn't tell the new book.
#[derive(Clone, Copy, Debug, PartialEq, Eq)]
pub enum WalkFault {
    /// The whole text has to be loaded, and that load answers: a reached transaction isn't solved, or it is mixed, or has a
    /// posting on another day than its own, in its old form or in its new one; or the symbol of an amount that isn't zero
    /// isn't among those that are given; or what the new book moves is out of range.
    Load,
    Memory,
}

impl From<Memory> for WalkFault {
    ghost from_gives = { λ _ e. e ≡ NoMemory };

    fn from(_memory: Memory) -> WalkFault {
        WalkFault::Memory
    }
}

impl<T: Drop> From<AllocFailed<T>> for WalkFault {
    ghost from_gives = { λ _ e. e ≡ NoMemory };

    fn from(_failed: AllocFailed<T>) -> WalkFault {
        WalkFault::Memory
    }
}

impl From<ReachFault> for WalkFault {
    ghost from_gives = { λ fault e. e ≡ from_reach fault };

    fn from(fault: ReachFault) -> WalkFault {
        match fault {
            ReachFault::Dated => WalkFault::Load,
            ReachFault::Memory => WalkFault::Memory,
        }
    }
}

impl From<CheckFault> for WalkFault {
    ghost from_gives = { λ fault e. e ≡ from_check fault };

    fn from(fault: CheckFault) -> WalkFault {
        match fault {
            CheckFault::Journal(_) => WalkFault::Load,
            CheckFault::Memory => WalkFault::Memory,
        }
    }
}
