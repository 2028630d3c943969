//! Why a text has no book.
ghost use Rattle.std.specs.Prelude.{◌≡◌};

use book::Fault;
use hl_base::Memory;
use std::alloc::AllocFailed;

/// Why a text makes no book: a fault that it has, or want of memory.
#[derive(Debug, Drop)]
pub enum CheckFault {
    Journal(Fault),
    Memory,
}

impl From<Memory> for CheckFault {
    ghost use Rattle.balancing.specs.declared.fault.CheckFault.TheVariants as check_fault;

    ghost from_gives = { λ _ e. e ≡ check_fault.Memory };

    fn from(_memory: Memory) -> CheckFault {
        CheckFault::Memory
    }
}

impl<T: Drop> From<AllocFailed<T>> for CheckFault {
    ghost use Rattle.balancing.specs.declared.fault.CheckFault.TheVariants as check_fault;

    ghost from_gives = { λ _ e. e ≡ check_fault.Memory };

    fn from(_failed: AllocFailed<T>) -> CheckFault {
        CheckFault::Memory
    }
}
