//! A write and a cut that are on the disk when they answer Ok.
ghost use Rattle.std.specs.Prelude.{◌≡◌, ℕ, ◌+◌, ◌^◌, ◌<◌, List, length, take, max, OnOk};
ghost use Rattle.hl_base.specs.Causes.{HasCause};
ghost use Rattle.hl_base.specs.Disk.{overwritten, Torn, Cut, Becomes, Follows, LeavesOnly};
ghost use Rattle.text_store.specs.Rest.{AfterStep, Comes};

use hl_base::{Disk, Failed};

/// Writes bytes at a place and syncs.
pub fn write_durably<D: Disk>(device: &mut D, at: u64, piece: &[u8]) -> Result<(), Failed>
    requires { at + length piece.now < 2 ^ 64 }
    ensures rests { OnOk result (Comes D.seen D.tells_crashes D.may_leave device.old device.new
        (λ file. overwritten file at piece.now)) }
    ensures torn { Becomes (Torn at (length piece.now)) (D.seen device.old) (D.seen device.new) }
    ensures crash { Follows (Torn at (length piece.now)) (D.may_leave device.old)
        (D.may_leave device.new) }
    ensures any_moment { LeavesOnly D.moment D.left_since device.old device.new
        (AfterStep (Torn at (length piece.now)) (D.may_leave device.old)) }
    ensures reach { D.reach device.new ≡ max (D.reach device.old) (at + length piece.now) }
    ensures cause { HasCause (D.failures device.old) (D.failures device.new) result }
    ensures tells { D.tells_crashes device.new ≡ D.tells_crashes device.old }
    ensures unfailing { D.unfailing_to device.new ≡ D.unfailing_to device.old }
{
    device.write_at(at, piece)?;
    device.sync()
}

/// Cuts a file to a length and syncs; a shorter one stays.
pub fn cut_durably<D: Disk>(device: &mut D, len: u64) -> Result<(), Failed>
    ensures rests { OnOk result (Comes D.seen D.tells_crashes D.may_leave device.old device.new
        (λ file. take len file)) }
    ensures partial { Becomes (Cut len) (D.seen device.old) (D.seen device.new) }
    ensures crash { Follows (Cut len) (D.may_leave device.old) (D.may_leave device.new) }
    ensures any_moment { LeavesOnly D.moment D.left_since device.old device.new
        (AfterStep (Cut len) (D.may_leave device.old)) }
    ensures reach { D.reach device.new ≡ max (D.reach device.old) len }
    ensures cause { HasCause (D.failures device.old) (D.failures device.new) result }
    ensures tells { D.tells_crashes device.new ≡ D.tells_crashes device.old }
    ensures unfailing { D.unfailing_to device.new ≡ D.unfailing_to device.old }
{
    device.cut(len)?;
    device.sync()
}
