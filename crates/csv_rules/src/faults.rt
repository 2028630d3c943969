//! Why a text is no file of rules.
ghost use Rattle.std.specs.Prelude.{◌≡◌};
ghost use Rattle.csv_rules.specs.declared.faults.RulesFault.TheVariants as rules_fault;

/// Why a text is no file of rules. Lines are counted from 1. The first line that is refused decides.
#[derive(Clone, Copy, Debug, PartialEq, Eq)]
pub enum RulesFault {
    /// The line isn't of the form that must stand there. Where the text ends with a block that has no assignment, it is the
    /// line after the last one.
    BadRule { line: u64 },
    /// The lines before it are of their forms, and the maker refused the line's pattern.
    PatternRefused { line: u64 },
    Memory,
}

impl From<hl_base::Memory> for RulesFault {
    ghost from_gives = { λ _ e. e ≡ rules_fault.Memory };

    fn from(_error: hl_base::Memory) -> RulesFault {
        RulesFault::Memory
    }
}
