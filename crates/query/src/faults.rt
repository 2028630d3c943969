//! Why no query was made.
use hl_base::{Memory, Text};

/// Why no query was made of some words.
#[derive(Debug, Drop)]
pub enum QueryFault {
    /// The first word that is no term.
    BadTerm { word: Text },
    /// Every word is a term, the patterns of the words before this one are built, and the maker refused one of this word.
    PatternRefused { word: Text },
    Memory,
}

impl From<Memory> for QueryFault {
    ghost use Rattle.std.specs.Prelude.{◌≡◌};
    ghost use Rattle.query.specs.declared.faults.QueryFault.TheVariants as query_fault;

    ghost from_gives = { λ _ e. e ≡ query_fault.Memory };

    fn from(_error: Memory) -> QueryFault {
        QueryFault::Memory
    }
}
