//! The value of a lock, taken.
ghost use Rattle.std.specs.Prelude.{◌≡◌};
ghost use Rattle.std.specs.Borrow.{Lends, sem};
ghost use Rattle.turn_lock.specs.contracts.held.Held.{the_row};
ghost use Rattle.turn_lock.specs.Lending.{with_value};

use crate::kept::Kept;
use crate::pass::Pass;
use std::snapshot::Snapshot;

/// The value of a lock, taken, and the pass that took it. It must be given back.
pub struct Held<T: Kept> {
    pub(crate) value: T,
    pub(crate) pass: Snapshot<Pass<T>>,
}

impl<T: Kept> Held<T> {
    /// Lends the value.
    pub fn value(&mut self) -> &mut T
        ensures* writes_back { sem 𝓛 (Lends (the_row T.row T.Entry.row T.Kept) T.row self.entry
            result (with_value self.old)) }
        ensures value { result.now ≡ self.old.value }
    {
        &mut self.value
    }
}
