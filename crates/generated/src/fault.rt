//! Why rules make no book.
ghost use Rattle.std.specs.Prelude.{◌≡◌};
ghost use Rattle.generated.specs.Refusals.{too_many};

use book::Fault;
use hl_base::Memory;
use rule_entries::Excess;
use std::alloc::AllocFailed;

/// Why rules make no book.
#[derive(Debug, Drop)]
pub enum GenFault {
    /// The book that they make has a fault. Its line is that of the posting for an assertion, else that of the transaction,
    /// which is its rule's for one that a rule makes.
    Journal(Fault),
    /// A word of the automated rule at this line is no term of a query.
    BadTerm { line: u64 },
    /// The maker refused a pattern of the automated rule at this line.
    PatternRefused { line: u64 },
    /// They make more transactions or more postings than they may.
    TooMany { count: u64, limit: u64 },
    Memory,
}

impl From<Memory> for GenFault {
    ghost use Rattle.generated.specs.declared.fault.GenFault.TheVariants as gen_fault;

    ghost from_gives = { λ _ e. e ≡ gen_fault.Memory };

    fn from(_memory: Memory) -> GenFault {
        GenFault::Memory
    }
}

impl<T: Drop> From<AllocFailed<T>> for GenFault {
    ghost use Rattle.generated.specs.declared.fault.GenFault.TheVariants as gen_fault;

    ghost from_gives = { λ _ e. e ≡ gen_fault.Memory };

    fn from(_failed: AllocFailed<T>) -> GenFault {
        GenFault::Memory
    }
}

/// What is told of more than rules may make.
pub(crate) fn too_many(excess: Excess) -> GenFault
    ensures { result ≡ too_many excess }
{
    GenFault::TooMany {
        count: excess.count,
        limit: excess.limit,
    }
}
