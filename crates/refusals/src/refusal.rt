//! Why a command gives no output.
ghost use Rattle.std.specs.Prelude.{◌≡◌};
ghost use Rattle.refusals.specs.declared.refusal.Refusal.TheVariants.{Memory};

use hl_base::{Bytes, Text};
use std::alloc::AllocError;

/// Of what a pattern isn't built.
#[derive(Debug, Drop)]
pub enum PatternOf {
    /// A word of a query.
    Word(Text),
    /// The automated rule at this line.
    Rule(u64),
}

/// Why a command gives no output.
#[derive(Debug, Drop)]
pub enum Refusal {
    /// It is refused, with an exit status and the line that says why.
    Line { status: u8, line: Bytes },
    /// A pattern isn't built, with the line that says so.
    Pattern { what: PatternOf, line: Bytes },
    /// The input or the file couldn't be read.
    ReadFault,
    /// The files of a store couldn't be read.
    DiskFault,
    /// Memory ran out.
    Memory,
}

impl From<hl_base::Memory> for Refusal {
    ghost from_gives = { λ _ e. e ≡ Memory };

    fn from(_memory: hl_base::Memory) -> Refusal {
        Refusal::Memory
    }
}

impl From<AllocError> for Refusal {
    ghost from_gives = { λ _ e. e ≡ Memory };

    fn from(_error: AllocError) -> Refusal {
        Refusal::Memory
    }
}
