//! Why a transaction has no balance.
ghost use Rattle.std.specs.Prelude.{◌≡◌};

use book::Cause;
use hl_base::Memory;

/// Why a transaction has no balance: two missing amounts, sums that aren't zero, or numbers out of range; or want of
/// memory.
#[derive(Debug, Drop)]
pub enum BalanceFault {
    Cause(Cause),
    Memory,
}

impl From<Memory> for BalanceFault {
    ghost use Rattle.entry_balance.specs.declared.fault.BalanceFault.TheVariants as balance_fault;

    ghost from_gives = { λ _ e. e ≡ balance_fault.Memory };

    fn from(_memory: Memory) -> BalanceFault {
        BalanceFault::Memory
    }
}
