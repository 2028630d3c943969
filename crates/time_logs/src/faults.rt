//! Why a log isn't read.
ghost use Rattle.std.specs.Prelude.{◌≡◌};
ghost use Rattle.time_logs.specs.declared.faults.LogFault.TheVariants as log_fault;

use hl_base::Memory;

/// The greatest number of transactions that a log gives.
pub const ENTRY_LIMIT: u64 = 100_000;

/// Why a log isn't read. Lines are counted from 1.
#[derive(Clone, Copy, Debug, PartialEq, Eq)]
pub enum LogFault {
    /// A line of no form, a quantity before any day, or bytes that aren't UTF-8.
    BadLine { line: u64 },
    /// A clock-in while a session is open, or a clock-out while none is.
    Order { line: u64 },
    /// A clock-out before its clock-in.
    Backwards { line: u64 },
    /// The text ends in the session that begins in this line.
    Open { line: u64 },
    /// More transactions than a log may give.
    TooMany { count: u64, limit: u64 },
    /// Memory ran out.
    Memory,
}

impl From<Memory> for LogFault {
    ghost from_gives = { λ _ e. e ≡ log_fault.Memory };

    fn from(_memory: Memory) -> LogFault {
        LogFault::Memory
    }
}
