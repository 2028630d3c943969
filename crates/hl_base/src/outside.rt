//! Objects of the outside: where bytes come from and where they go.
ghost use Rattle.std.specs.Prelude.{◌≡◌, ◌<◌, ◌≤◌, ◌+◌, ◌-◌, ◌++◌, ◌^◌, ℕ, List, [], Option, Some, length, take, drop, IfOk, IsOk, IsOkAnd, OnOk, OnErr, IfSome};
ghost use Rattle.hl_base.specs.Causes.{Rose};

use crate::fault::Failed;

/// Gives bytes, up to an end.
pub trait Source {
    /// The bytes that are left, where it tells them.
    ghost left: { Self → Option (List ℕ) };

    /// How many of its reads failed.
    ghost faults: { Self → ℕ };

    /// None of its reads fails from now on.
    ghost IsSound: { Self → Type 0 };

    /// Reads some bytes into the room and answers how many. None into a room that isn't empty is the end.
    fn read(&mut self, room: &mut [u8]) -> Result<usize, Failed>
        ensures within { IfOk result (λ count. count ≤ length room.old) }
        ensures told { IfOk result (λ count. IfSome (left self.old) (λ bytes.
            (count ≤ length bytes) × (take count room.new ≡ take count bytes)
            × (left self.new ≡ Some (drop count bytes)))) }
        ensures end { IfOk result (λ count. IfSome (left self.old) (λ bytes.
            count ≡ 0 → 0 < length room.old → bytes ≡ [])) }
        ensures rose { OnErr result (Rose (faults self.old) (faults self.new)) }
        ensures unread { OnErr result (left self.new ≡ left self.old) }
        ensures counted { faults self.old ≤ faults self.new }
        ensures steady { OnOk result (faults self.new ≡ faults self.old) }
        ensures sound { IsSound self.old → (IsOk result) × (IsSound self.new) };
}

/// Takes bytes.
pub trait Sink {
    /// The bytes that were written, where it tells them.
    ghost written: { Self → Option (List ℕ) };

    /// How many of its writes failed.
    ghost faults: { Self → ℕ };

    /// It takes so many more bytes without a fault.
    ghost HasRoom: { Self → ℕ → Type 0 };

    /// Writes some bytes of the piece from its front and answers how many, at least one of a piece that isn't
    /// empty.
    fn write(&mut self, piece: &[u8]) -> Result<usize, Failed>
        ensures within { IfOk result (λ count. count ≤ length piece.now) }
        ensures some { IfOk result (λ count. 0 < length piece.now → 0 < count) }
        ensures told { IfOk result (λ count. IfSome (written self.old) (λ bytes.
            written self.new ≡ Some (bytes ++ take count piece.now))) }
        ensures rose { OnErr result (Rose (faults self.old) (faults self.new)) }
        ensures unwritten { OnErr result (written self.new ≡ written self.old) }
        ensures counted { faults self.old ≤ faults self.new }
        ensures steady { OnOk result (faults self.new ≡ faults self.old) }
        ensures sound { (more : ℕ) → HasRoom self.old (length piece.now + more)
            → IsOkAnd result (λ count. HasRoom self.new ((length piece.now - count) + more)) };
}
