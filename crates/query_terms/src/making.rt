//! Who builds the patterns of a query.
ghost use Rattle.std.specs.Prelude.{ℕ, List, Option, IfOk};
ghost use Rattle.query_terms.specs.Making.{IsMadeOf, TellsRefusal};

use crate::faults::MakeFault;
use hl_base::Text;
use regex::Regex;
use std::alloc::Global;

/// Builds patterns, with case ignored. It counts those that it refuses and tells the last of them.
pub trait Maker {
    /// How many patterns it refused.
    ghost refusals: { Self → ℕ };

    /// The last pattern that it refused.
    ghost last_refused: { Self → Option (List ℕ) };

    /// The regex of a pattern.
    fn make(&mut self, alloc: Global, pattern: &Text) -> Result<Regex, MakeFault>
        ensures made { IfOk result (IsMadeOf pattern.now) }
        ensures tells { TellsRefusal (refusals self.old) (refusals self.new) (last_refused self.old)
            (last_refused self.new) pattern.now result };
}
