//! Why a walk ends before its end.
ghost use Rattle.std.specs.Prelude.{◌≡◌};
ghost use Rattle.reached_walk.specs.declared.fault.ReachFault.TheVariants.{Memory as NoMemory};

use hl_base::Memory;
use std::alloc::AllocFailed;

/// Why a walk ends before its end.
#[derive(Clone, Copy, Debug, PartialEq, Eq)]
pub enum ReachFault {
    /// A reached transaction has a posting on another day than its own, so that it has no one place.
    Dated,
    Memory,
}

impl From<Memory> for ReachFault {
    ghost from_gives = { λ _ e. e ≡ NoMemory };

    fn from(_memory: Memory) -> ReachFault {
        ReachFault::Memory
    }
}

impl<T: Drop> From<AllocFailed<T>> for ReachFault {
    ghost from_gives = { λ _ e. e ≡ NoMemory };

    fn from(_failed: AllocFailed<T>) -> ReachFault {
        ReachFault::Memory
    }
}
