//! What may be asked of a text, and why a call gives no answer.
ghost use Rattle.std.specs.Prelude.{◌≡◌};
ghost use Rattle.book_care.specs.declared.faults.StrictFault.TheVariants as strict_fault;
ghost use Rattle.book_care.specs.declared.faults.CloseFault.TheVariants as close_fault;

use hl_base::{Memory, Text};
use hl_time::Day;

/// What is asked of a text: that it declares each account, symbol, payee or tag that its transactions use, or that no
/// transaction is before the one above it.
#[derive(Clone, Copy, Debug, PartialEq, Eq)]
pub enum Check {
    Accounts,
    Commodities,
    Payees,
    Tags,
    OrderedDates,
}

/// The first transaction or posting that breaks what is asked, by its line, and the first name in it.
#[derive(Debug, Drop)]
pub enum StrictFault {
    Account { line: u64, name: Text },
    Commodity { line: u64, symbol: Text },
    Payee { line: u64, payee: Text },
    Tag { line: u64, name: Text },
    /// A transaction, the day of the one above it, and its own, which is before that.
    Dates { line: u64, before: Day, day: Day },
    Memory,
}

impl From<Memory> for StrictFault {
    ghost from_gives = { λ _ e. e ≡ strict_fault.Memory };

    fn from(_error: Memory) -> StrictFault {
        StrictFault::Memory
    }
}

/// Why accounts aren't closed.
#[derive(Debug, Drop)]
pub enum CloseFault {
    /// A posting after the day of the closing entry, by its line.
    Later { line: u64, day: Day },
    /// An account that doesn't read back as itself at the end of the text.
    Renamed { account: Text },
    /// An amount without a symbol, where the text ends with a default commodity.
    Bare { account: Text },
    /// An amount with more than 18 decimals.
    Fine { account: Text, symbol: Text },
    /// Memory ran out.
    Memory,
}

impl From<Memory> for CloseFault {
    ghost from_gives = { λ _ e. e ≡ close_fault.Memory };

    fn from(_error: Memory) -> CloseFault {
        CloseFault::Memory
    }
}
