//! Why a pattern wasn't built.
use hl_base::Memory;

/// Why a maker gave no regex.
#[derive(Clone, Copy, Debug, PartialEq, Eq)]
pub enum MakeFault {
    /// The pattern is refused, and counted.
    Refused,
    Memory,
}

impl From<Memory> for MakeFault {
    ghost use Rattle.std.specs.Prelude.{◌≡◌};
    ghost use Rattle.query_terms.specs.declared.faults.MakeFault.TheVariants as make_fault;

    ghost from_gives = { λ _ e. e ≡ make_fault.Memory };

    fn from(_error: Memory) -> MakeFault {
        MakeFault::Memory
    }
}
