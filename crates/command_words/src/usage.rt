//! Why words have no reading.
ghost use Rattle.std.specs.Prelude.{◌≡◌};
ghost use Rattle.report_commands.specs.declared.fault.WordsFault.TheVariants as words_fault;
ghost use Rattle.command_words.specs.declared.usage.UsageFault.TheVariants.{Words};

use report_commands::WordsFault;

/// Why words have no reading.
#[derive(Debug, Drop)]
pub enum UsageFault {
    /// Something is wrong with a word.
    Words(WordsFault),
    /// A word is missing.
    Missing,
}

impl From<WordsFault> for UsageFault {
    ghost from_gives = { λ fault e. e ≡ Words fault };

    fn from(fault: WordsFault) -> UsageFault {
        UsageFault::Words(fault)
    }
}

impl From<hl_base::Memory> for UsageFault {
    ghost from_gives = { λ _ e. e ≡ Words words_fault.Memory };

    fn from(_memory: hl_base::Memory) -> UsageFault {
        UsageFault::Words(WordsFault::Memory)
    }
}
