//! A connection: bytes come in and bytes are sent.
ghost use Rattle.std.specs.Prelude.{◌≡◌, ◌<◌, ◌≤◌, ◌+◌, ◌-◌, ◌++◌, ℕ, List, [], Option, Some, length, take, drop, IfOk, OnOk, IsOk, IsOkAnd, OnErr, IfSome};
ghost use Rattle.hl_base.specs.Causes.{HasCause};

use crate::fault::Failed;

/// A connection over which bytes come, up to an end, and others are sent.
pub trait Link {
    /// The bytes still to come, where it tells them.
    ghost coming: { Self → Option (List ℕ) };

    /// The bytes that were sent, where it tells them.
    ghost sent: { Self → Option (List ℕ) };

    /// How many of its reads failed.
    ghost read_faults: { Self → ℕ };

    /// How many of its writes failed.
    ghost write_faults: { Self → ℕ };

    /// None of its calls fails while it sends at most so many more bytes.
    ghost HasRoom: { Self → ℕ → Type 0 };

    /// Reads some bytes into the front of the room and answers how many. None into a room that isn't empty is
    /// the end.
    fn read(&mut self, room: &mut [u8]) -> Result<usize, Failed>
        ensures within { IfOk result (λ count. count ≤ length room.old) }
        ensures told { IfOk result (λ count. IfSome (coming self.old) (λ bytes.
            (count ≤ length bytes) × (take count room.new ≡ take count bytes)
            × (coming self.new ≡ Some (drop count bytes)))) }
        ensures end { IfOk result (λ count. IfSome (coming self.old) (λ bytes.
            count ≡ 0 → 0 < length room.old → bytes ≡ [])) }
        ensures unread { OnErr result (coming self.new ≡ coming self.old) }
        ensures sent { sent self.new ≡ sent self.old }
        ensures cause { HasCause (read_faults self.old) (read_faults self.new) result }
        ensures write_faults { write_faults self.new ≡ write_faults self.old }
        ensures sound { (more : ℕ) → HasRoom self.old more → (IsOk result)
            × (HasRoom self.new more) };

    /// Sends some bytes of the piece from its front and answers how many, at least one of a piece that isn't
    /// empty.
    fn write(&mut self, piece: &[u8]) -> Result<usize, Failed>
        ensures within { IfOk result (λ count. count ≤ length piece.now) }
        ensures some { IfOk result (λ count. 0 < length piece.now → 0 < count) }
        ensures told { IfOk result (λ count. IfSome (sent self.old) (λ bytes.
            sent self.new ≡ Some (bytes ++ take count piece.now))) }
        ensures unsent { OnErr result (sent self.new ≡ sent self.old) }
        ensures coming { coming self.new ≡ coming self.old }
        ensures cause { HasCause (write_faults self.old) (write_faults self.new) result }
        ensures read_faults { read_faults self.new ≡ read_faults self.old }
        ensures sound { (more : ℕ) → HasRoom self.old (length piece.now + more)
            → IsOkAnd result (λ count. HasRoom self.new ((length piece.now - count) + more)) };
}

/// Sends the whole text, or a prefix of it at a fault.
pub fn send_all<K: Link>(link: &mut K, text: &[u8]) -> Result<(), Failed>
    ensures ok { OnOk result (IfSome (K.sent link.old) (λ before.
        K.sent link.new ≡ Some (before ++ text.now))) }
    ensures prefix { OnErr result (IfSome (K.sent link.old) (λ before.
        (n : ℕ) × (n ≤ length text.now) × (K.sent link.new ≡ Some (before ++ take n text.now)))) }
    ensures coming { K.coming link.new ≡ K.coming link.old }
    ensures cause { HasCause (K.write_faults link.old) (K.write_faults link.new) result }
    ensures read_faults { K.read_faults link.new ≡ K.read_faults link.old }
    ensures sound { (more : ℕ) → K.HasRoom link.old (length text.now + more) → (IsOk result)
        × (K.HasRoom link.new more) }
{
    let mut at = 0;
    while at < text.len() {
        let (_, rest) = text.split_at(at);
        at += link.write(rest)?;
    }
    Ok(())
}
