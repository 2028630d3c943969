//! Files under names.
ghost use Rattle.std.specs.Prelude.{◌≡◌, ◌≢◌, ◌≤◌, ◌<◌, ◌-◌, ◌^◌, ℕ, Bool, true, List, [], length, Option, Some, None, IfOk, OnOk, IfErr, IfSome, IsTrue};
ghost use Rattle.hl_base.specs.Causes.{Rose};
ghost use Rattle.hl_base.specs.Disk.{Only};
ghost use Rattle.hl_base.specs.Gives.{Gives};
ghost use Rattle.hl_base.specs.Shelf.{Tells, loaded, taken, shelf_cause, NotTooLong, HasBlame, Keeps};

use crate::bytes::Bytes;
use crate::disk::Disk;
use crate::fault::Memory;
use crate::text::Text;
use std::alloc::{AllocError, AllocFailed, Global};

/// Why a file couldn't be loaded or taken.
#[derive(Clone, Copy, Debug, PartialEq, Eq)]
pub enum ShelfFault {
    /// The call failed.
    Failed,
    /// There is no such name.
    Absent,
    /// The file has more than `limit` bytes; `seen` were read.
    TooLong { limit: u64, seen: u64 },
    Memory,
}

impl From<Memory> for ShelfFault {
    ghost use Rattle.std.specs.Prelude.{◌≡◌};
    ghost use Rattle.hl_base.specs.declared.shelf.ShelfFault.TheVariants as shelf_fault;

    ghost from_gives = { λ _ e. e ≡ shelf_fault.Memory };

    fn from(_error: Memory) -> ShelfFault {
        ShelfFault::Memory
    }
}

/// Files under names. A file is loaded whole, or taken as a disk that is given back.
pub trait Shelf {
    type Disk: Disk + Drop + Send;

    /// Which things it tells.
    ghost tells: { Self → Tells };

    /// The bytes under a name, where it tells them; none where the name is absent. Those of a disk that was taken
    /// are those from before until it is given back.
    ghost file: { Self → List ℕ → Option (List ℕ) };

    /// What a crash now may leave under a name, of the disk that came back last.
    ghost may_leave: { Self → List ℕ → List ℕ → Type 0 };

    /// What a crash at a moment since that disk was taken may have left, while it was out.
    ghost left_since: { Self → List ℕ → List ℕ → Type 0 };

    /// It has a place for a disk of this name, as of each that was taken.
    ghost HasPlace: { Self → List ℕ → Type 0 };

    /// How many of its loads and takes failed.
    ghost faults: { Self → ℕ };

    /// The faults of disks that were given back.
    ghost disk_faults: { Self → ℕ };

    /// The name of the last load or take that failed.
    ghost last_failed: { Self → Option (List ℕ) };

    /// None of its loads and takes fails from now on.
    ghost IsSound: { Self → Type 0 };

    /// The bytes under a name, at most `limit` of them.
    fn load(&mut self, alloc: Global, name: &Text, limit: u64) -> Result<Bytes, ShelfFault>
        requires { limit < 2 ^ 64 - 1 }
        ensures loaded { IsTrue ((tells self.old).files)
            → Gives (λ bytes. bytes) shelf_cause result (loaded limit (file self.old name.now)) }
        ensures bound { IfOk result (λ bytes. length bytes ≤ limit) }
        ensures keeps { Keeps file may_leave left_since HasPlace self.old self.new (λ _. Unit {0}) }
        ensures tells { tells self.new ≡ tells self.old }
        ensures blame { HasBlame (faults self.old) (faults self.new) (last_failed self.old)
            (last_failed self.new) name.now result }
        ensures disk_faults { disk_faults self.new ≡ disk_faults self.old }
        ensures sound { IsSound self.old → (result ≢ Err ShelfFault.Failed) × (IsSound self.new) };

    /// The disk of a name, which reads as its bytes; with `make` an empty one where the name is absent. It is at
    /// rest, and no call of it has been made.
    fn take(&mut self, alloc: Global, name: &Text, make: bool) -> Result<Self::Disk, ShelfFault>
        ensures taken { IsTrue ((tells self.old).files)
            → Gives Self.Disk.seen shelf_cause result (taken make (file self.old name.now)) }
        ensures never_long { IfErr result NotTooLong }
        ensures place { OnOk result (HasPlace self.new name.now) }
        ensures rest { IfOk result (λ disk. IsTrue ((tells self.old).crashes)
            → IfSome (Self.Disk.seen disk) (λ file. Only file (Self.Disk.may_leave disk))) }
        ensures crashes { IfOk result (λ disk.
            Self.Disk.tells_crashes disk ≡ (tells self.old).crashes) }
        ensures moment { IfOk result (λ disk. Self.Disk.moment disk ≡ 0) }
        ensures reach { IfOk result (λ disk. Self.Disk.reach disk ≡ 0) }
        ensures no_faults { IfOk result (λ disk. Self.Disk.failures disk ≡ 0) }
        ensures unfailing { IfOk result (λ disk. IfSome ((tells self.old).disk_room) (λ room.
            (reach : ℕ) × (room ≤ reach) × (Self.Disk.unfailing_to disk ≡ Some reach))) }
        ensures keeps { Keeps file may_leave left_since HasPlace self.old self.new (λ _. Unit {0}) }
        ensures tells { tells self.new ≡ tells self.old }
        ensures blame { HasBlame (faults self.old) (faults self.new) (last_failed self.old)
            (last_failed self.new) name.now result }
        ensures disk_faults { disk_faults self.new ≡ disk_faults self.old }
        ensures sound { IsSound self.old → (result ≢ Err ShelfFault.Failed) × (IsSound self.new) };

    /// Puts the bytes of a disk under a name that has a place. The faults of the disk are counted.
    fn give_back(&mut self, name: &Text, disk: Self::Disk)
        requires { HasPlace self.old name.now }
        ensures file { IsTrue ((tells self.old).files)
            → IfSome (Self.Disk.seen disk) (λ bytes. file self.new name.now ≡ Some bytes) }
        ensures crash { (c : List ℕ) → may_leave self.new name.now c → Self.Disk.may_leave disk c }
        ensures since { (c : List ℕ) → left_since self.new name.now c
            → Self.Disk.left_since disk 0 c }
        ensures place { HasPlace self.new name.now }
        ensures keeps { Keeps file may_leave left_since HasPlace self.old self.new (λ other.
            other ≢ name.now) }
        ensures tells { tells self.new ≡ tells self.old }
        ensures faults { faults self.new ≡ faults self.old }
        ensures last_failed { last_failed self.new ≡ last_failed self.old }
        ensures clean { Self.Disk.failures disk ≡ 0 → disk_faults self.new ≡ disk_faults self.old }
        ensures rose { Self.Disk.failures disk ≢ 0
            → Rose (disk_faults self.old) (disk_faults self.new) }
        ensures later { disk_faults self.old ≤ disk_faults self.new }
        ensures sound { IsSound self.old → IsSound self.new };
}
