//! A file as the product sees it: what a read gives, and what a crash may leave.
ghost use Rattle.std.specs.Prelude.{◌≡◌, ℕ, ◌+◌, ◌^◌, ◌<◌, ◌≤◌, Bool, true, List, length, take, max, Option, Some, IfOk, IfSome, OnOk, IsTrue};
ghost use Rattle.hl_base.specs.Causes.{HasCause};
ghost use Rattle.hl_base.specs.Disk.{overwritten, Torn, Cut, ReadsAt, Becomes, Follows, NoMore, Only, Elapses};

use crate::fault::Failed;

/// A file that is read and written at places. Between two syncs a crash may leave any bytes in each written range
/// and past the old end, and any length between the old and the new one of a cut; bytes outside stay.
pub trait Disk {
    /// What a read gives, where the disk tells it.
    ghost seen: { Self → Option (List ℕ) };

    /// Whether the disk tells what a crash may leave.
    ghost tells_crashes: { Self → Bool };

    /// What a crash at this moment may leave.
    ghost may_leave: { Self → List ℕ → Type 0 };

    /// The moment, a number that doesn't fall.
    ghost moment: { Self → ℕ };

    /// What a crash at some moment from that one on may have left, inside a call or between two.
    ghost left_since: { Self → ℕ → List ℕ → Type 0 };

    /// The greatest place at which a write or a cut ended, failed ones among them; 0 before the first.
    ghost reach: { Self → ℕ };

    /// How many calls have failed; the count stays at its last value.
    ghost failures: { Self → ℕ };

    /// The reach up to which no call fails, where the disk tells one.
    ghost unfailing_to: { Self → Option ℕ };

    /// The file's length in bytes.
    fn len(&mut self) -> Result<u64, Failed>
        ensures value { IfOk result (λ count.
            IfSome (seen self.old) (λ file. count ≡ length file)) }
        ensures seen { seen self.new ≡ seen self.old }
        ensures crash { NoMore (may_leave self.old) (may_leave self.new) }
        ensures time { Elapses (moment self.old) (moment self.new) (left_since self.old)
            (left_since self.new) (may_leave self.new) }
        ensures reach { reach self.new ≡ reach self.old }
        ensures cause { HasCause (failures self.old) (failures self.new) result }
        ensures tells { tells_crashes self.new ≡ tells_crashes self.old }
        ensures unfailing { unfailing_to self.new ≡ unfailing_to self.old };

    /// Reads bytes from a place into the front of the room, and says how many. None into a room that isn't empty
    /// is the end.
    fn read(&mut self, at: u64, room: &mut [u8]) -> Result<usize, Failed>
        ensures fits { IfOk result (λ count. count ≤ length room.old) }
        ensures bytes { IfOk result (λ count.
            IfSome (seen self.old) (λ file. ReadsAt file at count room.old room.new)) }
        ensures seen { seen self.new ≡ seen self.old }
        ensures crash { NoMore (may_leave self.old) (may_leave self.new) }
        ensures time { Elapses (moment self.old) (moment self.new) (left_since self.old)
            (left_since self.new) (may_leave self.new) }
        ensures reach { reach self.new ≡ reach self.old }
        ensures cause { HasCause (failures self.old) (failures self.new) result }
        ensures tells { tells_crashes self.new ≡ tells_crashes self.old }
        ensures unfailing { unfailing_to self.new ≡ unfailing_to self.old };

    /// Writes bytes at a place, over what is there and past the end; a hole before the place is zeros.
    fn write_at(&mut self, at: u64, piece: &[u8]) -> Result<(), Failed>
        requires { at + length piece.now < 2 ^ 64 }
        ensures written { OnOk result (Becomes (λ old new.
            new ≡ overwritten old at piece.now) (seen self.old) (seen self.new)) }
        ensures torn { Becomes (Torn at (length piece.now)) (seen self.old) (seen self.new) }
        ensures crash { Follows (Torn at (length piece.now)) (may_leave self.old)
            (may_leave self.new) }
        ensures time { Elapses (moment self.old) (moment self.new) (left_since self.old)
            (left_since self.new) (may_leave self.new) }
        ensures reach { reach self.new ≡ max (reach self.old) (at + length piece.now) }
        ensures cause { HasCause (failures self.old) (failures self.new) result }
        ensures tells { tells_crashes self.new ≡ tells_crashes self.old }
        ensures unfailing { unfailing_to self.new ≡ unfailing_to self.old };

    /// Cuts the file to a length; a shorter one stays.
    fn cut(&mut self, len: u64) -> Result<(), Failed>
        ensures done { OnOk result (Becomes (λ old new.
            new ≡ take len old) (seen self.old) (seen self.new)) }
        ensures partial { Becomes (Cut len) (seen self.old) (seen self.new) }
        ensures crash { Follows (Cut len) (may_leave self.old) (may_leave self.new) }
        ensures time { Elapses (moment self.old) (moment self.new) (left_since self.old)
            (left_since self.new) (may_leave self.new) }
        ensures reach { reach self.new ≡ max (reach self.old) len }
        ensures cause { HasCause (failures self.old) (failures self.new) result }
        ensures tells { tells_crashes self.new ≡ tells_crashes self.old }
        ensures unfailing { unfailing_to self.new ≡ unfailing_to self.old };

    /// Brings the file to rest: after it a crash leaves what a read gives.
    fn sync(&mut self) -> Result<(), Failed>
        ensures durable { OnOk result (IsTrue (tells_crashes self.old)
            → IfSome (seen self.old) (λ file. Only file (may_leave self.new))) }
        ensures seen { seen self.new ≡ seen self.old }
        ensures crash { NoMore (may_leave self.old) (may_leave self.new) }
        ensures time { Elapses (moment self.old) (moment self.new) (left_since self.old)
            (left_since self.new) (may_leave self.new) }
        ensures reach { reach self.new ≡ reach self.old }
        ensures cause { HasCause (failures self.old) (failures self.new) result }
        ensures tells { tells_crashes self.new ≡ tells_crashes self.old }
        ensures unfailing { unfailing_to self.new ≡ unfailing_to self.old };

    /// How many calls have failed.
    fn faults(&self) -> u64
        ensures { result ≡ failures self.now };

    /// This moment is one of those since an earlier one.
    ghost counts_now: { (disk : Self) (t : ℕ) (c : List ℕ) → t ≤ moment disk → may_leave disk c → left_since disk t c };

    /// Since this moment there is no other.
    ghost only_now: { (disk : Self) (c : List ℕ) → left_since disk (moment disk) c → may_leave disk c };

    /// Up to its reach such a disk has failed no call.
    ghost unfailing: { (disk : Self) (room : ℕ) → unfailing_to disk ≡ Some room → reach disk ≤ room → failures disk ≡ 0 };
}
