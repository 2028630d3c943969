//! Records behind gates: what stands behind a gate counts once the gate is open.
ghost use Rattle.std.specs.Prelude.{◌≡◌, ℕ, ◌+◌, ◌^◌, ◌<◌, ◌≤◌, ◌∷◌, [], ◌++◌, List, length, max, IsTrue, Some, IfErr, OnOk, OnErr};
ghost use Rattle.hl_base.specs.Causes.{HasCause};
ghost use Rattle.hl_base.specs.Disk.{overwritten, Torn, Becomes, Follows, LeavesOnly, NoMore};
ghost use Rattle.text_store.specs.Ends.{IsShutAt};
ghost use Rattle.text_store.specs.Faults.{EmptyRefused};
ghost use Rattle.text_store.specs.Rest.{AfterStep, Comes, RestsAs, StandsIn, SomeLeft, IsAt, IsRewritten, HasHeadBegun, IsBegun};

use crate::durable::{cut_durably, write_durably};
use crate::fault::StoreFault;
use hl_base::{Disk, Failed};

/// Puts an entry, which ends with a shut gate, behind the shut gate at the file's end, and then opens that gate.
/// At Ok each crash leaves it open.
pub fn append_entry<D: Disk>(device: &mut D, gate: u64, entry: &[u8]) -> Result<(), Failed>
    requires { gate + 1 + length entry.now < 2 ^ 64 }

    ensures acknowledged { OnOk result ((front : List ℕ) → length front ≡ gate
        → RestsAs D.seen D.tells_crashes D.may_leave device.old (front ++ 0 ∷ [])
        → RestsAs D.seen D.tells_crashes D.may_leave device.new (front ++ 1 ∷ entry.now)) }
    ensures fault { OnErr result ((front : List ℕ) → length front ≡ gate
        → RestsAs D.seen D.tells_crashes D.may_leave device.old (front ++ 0 ∷ [])
        → StandsIn D.seen D.tells_crashes D.may_leave device.new (IsAt front entry.now)) }
    ensures any_moment { (front : List ℕ) → length front ≡ gate
        → RestsAs D.seen D.tells_crashes D.may_leave device.old (front ++ 0 ∷ [])
        → IsTrue (D.tells_crashes device.old)
        → LeavesOnly D.moment D.left_since device.old device.new (IsAt front entry.now) }

    // What a crash leaves at any moment comes of what one might have left before.
    ensures comes { LeavesOnly D.moment D.left_since device.old device.new
        (SomeLeft (D.may_leave device.old)) }

    ensures reach { D.reach device.new ≤ max (D.reach device.old) (gate + 1 + length entry.now) }
    ensures cause { HasCause (D.failures device.old) (D.failures device.new) result }
    ensures tells { D.tells_crashes device.new ≡ D.tells_crashes device.old }
    ensures unfailing { D.unfailing_to device.new ≡ D.unfailing_to device.old }
{
    write_durably(device, gate + 1, entry)?;
    open_gate(device, gate)
}

/// Opens a gate. At Ok each crash leaves it open.
fn open_gate<D: Disk>(device: &mut D, gate: u64) -> Result<(), Failed>
    requires { gate + 1 < 2 ^ 64 }
    ensures rests { OnOk result (Comes D.seen D.tells_crashes D.may_leave device.old device.new
        (λ file. overwritten file gate (1 ∷ []))) }
    ensures torn { Becomes (Torn gate 1) (D.seen device.old) (D.seen device.new) }
    ensures crash { Follows (Torn gate 1) (D.may_leave device.old) (D.may_leave device.new) }
    ensures any_moment { LeavesOnly D.moment D.left_since device.old device.new
        (AfterStep (Torn gate 1) (D.may_leave device.old)) }
    ensures reach { D.reach device.new ≡ max (D.reach device.old) (gate + 1) }
    ensures cause { HasCause (D.failures device.old) (D.failures device.new) result }
    ensures tells { D.tells_crashes device.new ≡ D.tells_crashes device.old }
    ensures unfailing { D.unfailing_to device.new ≡ D.unfailing_to device.old }
{
    write_durably(device, gate, &[1])
}

/// Cuts a file just behind a gate, and then shuts the gate.
pub fn shut_gate<D: Disk>(device: &mut D, gate: u64) -> Result<(), Failed>
    requires { gate + 1 < 2 ^ 64 }

    ensures shut { OnOk result ((front entry : List ℕ) → length front ≡ gate
        → StandsIn D.seen D.tells_crashes D.may_leave device.old (IsAt front entry)
        → RestsAs D.seen D.tells_crashes D.may_leave device.new (front ++ 0 ∷ [])) }
    ensures fault { OnErr result ((front entry : List ℕ) → length front ≡ gate
        → StandsIn D.seen D.tells_crashes D.may_leave device.old (IsAt front entry)
        → StandsIn D.seen D.tells_crashes D.may_leave device.new (IsAt front entry)) }
    ensures any_moment { (front entry : List ℕ) → length front ≡ gate
        → StandsIn D.seen D.tells_crashes D.may_leave device.old (IsAt front entry)
        → IsTrue (D.tells_crashes device.old)
        → LeavesOnly D.moment D.left_since device.old device.new (IsAt front entry) }

    // Where no open record stands behind the front, none does at any moment.
    ensures shut_end { OnOk result ((front : List ℕ) → length front ≡ gate
        → StandsIn D.seen D.tells_crashes D.may_leave device.old (IsShutAt front)
        → RestsAs D.seen D.tells_crashes D.may_leave device.new (front ++ 0 ∷ [])) }
    ensures fault_end { OnErr result ((front : List ℕ) → length front ≡ gate
        → StandsIn D.seen D.tells_crashes D.may_leave device.old (IsShutAt front)
        → StandsIn D.seen D.tells_crashes D.may_leave device.new (IsShutAt front)) }
    ensures any_end { (front : List ℕ) → length front ≡ gate
        → StandsIn D.seen D.tells_crashes D.may_leave device.old (IsShutAt front)
        → IsTrue (D.tells_crashes device.old)
        → LeavesOnly D.moment D.left_since device.old device.new (IsShutAt front) }

    // What a crash leaves at any moment comes of what one might have left before.
    ensures comes { LeavesOnly D.moment D.left_since device.old device.new
        (SomeLeft (D.may_leave device.old)) }

    ensures reach { D.reach device.new ≤ max (D.reach device.old) (gate + 1) }
    ensures cause { HasCause (D.failures device.old) (D.failures device.new) result }
    ensures tells { D.tells_crashes device.new ≡ D.tells_crashes device.old }
    ensures unfailing { D.unfailing_to device.new ≡ D.unfailing_to device.old }
{
    cut_durably(device, gate + 1)?;
    write_durably(device, gate, &[0])
}

/// Empties a file and writes a header, which ends with a shut gate.
fn head_anew<D: Disk>(device: &mut D, header: &[u8]) -> Result<(), Failed>
    requires { length header.now ≡ 33 }
    ensures done { OnOk result ((file : List ℕ)
        → RestsAs D.seen D.tells_crashes D.may_leave device.old file
        → RestsAs D.seen D.tells_crashes D.may_leave device.new header.now) }
    ensures fault { OnErr result ((file head entry : List ℕ)
        → RestsAs D.seen D.tells_crashes D.may_leave device.old file
        → StandsIn D.seen D.tells_crashes D.may_leave device.new (IsRewritten file head entry)) }
    ensures any_moment { (file head entry : List ℕ)
        → RestsAs D.seen D.tells_crashes D.may_leave device.old file
        → IsTrue (D.tells_crashes device.old)
        → LeavesOnly D.moment D.left_since device.old device.new (IsRewritten file head entry) }
    // What a crash leaves at any moment comes of what one might have left before.
    ensures comes { LeavesOnly D.moment D.left_since device.old device.new
        (SomeLeft (D.may_leave device.old)) }
    ensures reach { D.reach device.new ≤ max (D.reach device.old) 33 }
    ensures cause { HasCause (D.failures device.old) (D.failures device.new) result }
    ensures tells { D.tells_crashes device.new ≡ D.tells_crashes device.old }
    ensures unfailing { D.unfailing_to device.new ≡ D.unfailing_to device.old }
{
    cut_durably(device, 0)?;
    write_durably(device, 0, header)
}

/// Writes a header, which ends with a shut gate, into an empty file: first its letters and its version, and then the rest.
fn head_new<D: Disk>(device: &mut D, header: &[u8]) -> Result<(), Failed>
    requires { length header.now ≡ 33 }
    ensures done { OnOk result (RestsAs D.seen D.tells_crashes D.may_leave device.old []
        → RestsAs D.seen D.tells_crashes D.may_leave device.new header.now) }
    ensures any_moment { RestsAs D.seen D.tells_crashes D.may_leave device.old []
        → IsTrue (D.tells_crashes device.old)
        → LeavesOnly D.moment D.left_since device.old device.new (HasHeadBegun header.now) }
    ensures reach { D.reach device.new ≤ max (D.reach device.old) 33 }
    ensures cause { HasCause (D.failures device.old) (D.failures device.new) result }
    ensures tells { D.tells_crashes device.new ≡ D.tells_crashes device.old }
    ensures unfailing { D.unfailing_to device.new ≡ D.unfailing_to device.old }
{
    write_durably(device, 0, &header[..8])?;
    write_durably(device, 8, &header[8..])
}

/// Empties a file, writes a header and a shut gate, and then appends an entry, which ends with a shut gate.
pub fn write_anew<D: Disk>(device: &mut D, header: &[u8], entry: &[u8]) -> Result<(), Failed>
    requires header { length header.now ≡ 33 }
    requires entry { 33 + length entry.now < 2 ^ 64 }

    ensures done { OnOk result ((file head : List ℕ) → header.now ≡ head ++ 0 ∷ []
        → RestsAs D.seen D.tells_crashes D.may_leave device.old file
        → RestsAs D.seen D.tells_crashes D.may_leave device.new (head ++ 1 ∷ entry.now)) }
    ensures fault { OnErr result ((file head : List ℕ) → header.now ≡ head ++ 0 ∷ []
        → RestsAs D.seen D.tells_crashes D.may_leave device.old file
        → StandsIn D.seen D.tells_crashes D.may_leave device.new
        (IsRewritten file head entry.now)) }
    ensures any_moment { (file head : List ℕ) → header.now ≡ head ++ 0 ∷ []
        → RestsAs D.seen D.tells_crashes D.may_leave device.old file
        → IsTrue (D.tells_crashes device.old)
        → LeavesOnly D.moment D.left_since device.old device.new (IsRewritten file head entry.now) }

    // What a crash leaves at any moment comes of what one might have left before.
    ensures comes { LeavesOnly D.moment D.left_since device.old device.new
        (SomeLeft (D.may_leave device.old)) }

    ensures reach { D.reach device.new ≤ max (D.reach device.old) (33 + length entry.now) }
    ensures cause { HasCause (D.failures device.old) (D.failures device.new) result }
    ensures tells { D.tells_crashes device.new ≡ D.tells_crashes device.old }
    ensures unfailing { D.unfailing_to device.new ≡ D.unfailing_to device.old }
{
    head_anew(device, header)?;
    append_entry(device, 32, entry)
}

/// Writes a header and a shut gate into an empty file, and then appends an entry, which ends with a shut gate.
pub fn write_new<D: Disk>(device: &mut D, header: &[u8], entry: &[u8]) -> Result<(), Failed>
    requires header { length header.now ≡ 33 }
    requires entry { 33 + length entry.now < 2 ^ 64 }

    ensures done { OnOk result ((head : List ℕ) → header.now ≡ head ++ 0 ∷ []
        → RestsAs D.seen D.tells_crashes D.may_leave device.old []
        → RestsAs D.seen D.tells_crashes D.may_leave device.new (head ++ 1 ∷ entry.now)) }
    ensures any_moment { (head : List ℕ) → header.now ≡ head ++ 0 ∷ []
        → RestsAs D.seen D.tells_crashes D.may_leave device.old []
        → IsTrue (D.tells_crashes device.old)
        → LeavesOnly D.moment D.left_since device.old device.new (IsBegun head entry.now) }

    ensures reach { D.reach device.new ≤ max (D.reach device.old) (33 + length entry.now) }
    ensures cause { HasCause (D.failures device.old) (D.failures device.new) result }
    ensures tells { D.tells_crashes device.new ≡ D.tells_crashes device.old }
    ensures unfailing { D.unfailing_to device.new ≡ D.unfailing_to device.old }
{
    head_new(device, header)?;
    append_entry(device, 32, entry)
}

/// Brings a file to rest that has to be empty.
pub fn rest_empty<D: Disk>(device: &mut D) -> Result<(), StoreFault>
    ensures rests { OnOk result ((file : List ℕ) → D.seen device.old ≡ Some file → (file ≡ [])
        × RestsAs D.seen D.tells_crashes D.may_leave device.new []) }
    ensures cause { IfErr result (λ e.
        EmptyRefused (D.seen device.old) (D.failures device.old) (D.failures device.new) e) }
    ensures any_moment { LeavesOnly D.moment D.left_since device.old device.new
        (D.may_leave device.old) }
    ensures no_more { NoMore (D.may_leave device.old) (D.may_leave device.new) }
    ensures seen { D.seen device.new ≡ D.seen device.old }
    ensures reach { D.reach device.new ≡ D.reach device.old }
    ensures later { D.failures device.old ≤ D.failures device.new }
    ensures no_fault { OnOk result (D.failures device.new ≡ D.failures device.old) }
    ensures tells { D.tells_crashes device.new ≡ D.tells_crashes device.old }
    ensures unfailing { D.unfailing_to device.new ≡ D.unfailing_to device.old }
{
    let len = device.len()?;
    if len > 0 {
        return Err(StoreFault::Exists { len });
    }
    device.sync()?;
    Ok(())
}
