//! What is wrong with the words of a report.
ghost use Rattle.std.specs.Prelude.{◌≡◌, IfSome};
ghost use Rattle.report_options.specs.declared.fault.OptionFault.TheVariants as option_fault;

use hl_base::{Memory, Text};

/// What is wrong with the words of a report.
#[derive(Debug, Drop)]
pub enum OptionFault {
    /// No option of the command, or a value that doesn't read; an option without its value.
    BadOption { word: Text },
    /// Two words that exclude each other, the earlier one first.
    Conflict { a: Text, b: Text },
    /// Memory ran out.
    Memory,
}

impl From<Memory> for OptionFault {
    ghost from_gives = { λ _ e. e ≡ option_fault.Memory };

    fn from(_memory: Memory) -> OptionFault {
        OptionFault::Memory
    }
}
