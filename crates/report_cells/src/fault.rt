//! Why a report can't be made.
ghost use Rattle.std.specs.Prelude.{◌≡◌};
ghost use Rattle.report_cells.specs.declared.fault.ReportFault.TheVariants as report_fault;

use hl_base::{Memory, Text};

/// Why a report can't be made.
#[derive(Debug, Drop)]
pub enum ReportFault {
    /// A symbol whose absolute amounts sum to 2^127 or more, in units of their greatest number of decimals.
    Range { symbol: Text },
    /// More columns than a report may have.
    TooWide { columns: u64, limit: u64 },
    /// Memory ran out.
    Memory,
}

impl From<Memory> for ReportFault {
    ghost from_gives = { λ _ e. e ≡ report_fault.Memory };

    fn from(_memory: Memory) -> ReportFault {
        ReportFault::Memory
    }
}
