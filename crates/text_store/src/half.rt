//! A file in use as a half of a store.
ghost use Rattle.std.specs.Prelude.{◌<◌, ◌+◌, ◌^◌};

use crate::disk_whole::read_all;
use crate::fault::StoreFault;
use crate::gate::{append_entry, shut_gate};
use hl_base::{Disk, Failed};
use std::alloc::Global;
use std::mem::swap;

/// A file of a header and whole records, with a shut gate at its end. After a device fault a repair is due.
#[derive(Drop)]
pub struct Half<D: Disk> {
    device: D,
    gate: u64,
    limit: u64,
    is_torn: bool,
    ghost within: { gate + 1 < 2 ^ 64 },
}

impl<D: Disk> Half<D> {
    ghost use Rattle.std.specs.Prelude.{◌≡◌, ◌+◌, ◌-◌, ◌^◌, ◌≤◌, ◌∷◌, [], ◌++◌, ℕ, List, length, max, false, true, Some, IsTrue, IfOk, IfErr, OnOk, OnErr};
    ghost use Rattle.hl_base.specs.Causes.{HasCause};
    ghost use Rattle.hl_base.specs.Disk.{LeavesOnly};
    ghost use Rattle.text_store.specs.Entries.{Entry, body};
    ghost use Rattle.text_store.specs.Faults.{ReadRefused};
    ghost use Rattle.text_store.specs.Halves.{HasEitherImage};
    ghost use Rattle.text_store.specs.Rest.{IsAt, IsReadOn, RestsAs, StandsIn};
    ghost use Rattle.text_store.specs.Settled.{IsSettled, IsUnsettled};

    /// The half of a file whose last gate is at a place, with a limit of the file's length.
    pub fn new(device: D, gate: u64, limit: u64) -> Half<D>
        requires { gate + 1 < 2 ^ 64 }
        ensures device { result.device ≡ device }
        ensures gate { result.gate ≡ gate }
        ensures limit { result.limit ≡ limit }
        ensures ready { result.is_torn ≡ false }
    {
        Half {
            device,
            gate,
            limit,
            is_torn: false,
        }
    }

    /// The file's length.
    pub fn size(&self) -> u64
        ensures { result ≡ self.now.gate + 1 }
    {
        self.gate + 1
    }

    /// Whether a device fault came since the last repair.
    pub fn needs_repair(&self) -> bool
        ensures { result ≡ self.now.is_torn }
    {
        self.is_torn
    }

    /// How many bytes the file may have.
    pub fn limit(&self) -> u64
        ensures { result ≡ self.now.limit }
    {
        self.limit
    }

    /// How many calls of the file failed.
    pub fn faults(&self) -> u64
        ensures { result ≡ D.failures self.now.device }
    {
        self.device.faults()
    }

    /// Takes another file, whose last gate is at a place, in place of this one.
    pub fn exchange(&mut self, other: &mut D, gate: u64)
        requires { gate + 1 < 2 ^ 64 }
        ensures device { (self.new.device ≡ other.old) × (other.new ≡ self.old.device) }
        ensures numbers { (self.new.gate ≡ gate) × (self.new.limit ≡ self.old.limit) }
        ensures ready { self.new.is_torn ≡ false }
    {
        swap(&mut self.device, other);
        self.gate = gate;
        self.is_torn = false;
    }

    /// Gives the file back.
    pub fn into_device(self) -> D
        ensures { result ≡ self.device }
    {
        self.device
    }

    /// Reads all of the file.
    pub fn read_whole(&mut self, alloc: Global) -> Result<Vec<u8>, StoreFault>
        ensures bytes { IfOk result (λ bytes. (file : List ℕ) → D.seen self.old.device ≡ Some file
            → bytes.items ≡ file) }
        ensures reads { IsReadOn D.Disk self.old.device self.new.device }
        ensures same { (self.new.gate ≡ self.old.gate) × (self.new.limit ≡ self.old.limit)
            × (self.new.is_torn ≡ self.old.is_torn) }
        ensures cause { IfErr result (λ e.
            ReadRefused (D.failures self.old.device) (D.failures self.new.device) e) }
        ensures no_fault { OnOk result (D.failures self.new.device ≡ D.failures self.old.device) }
    {
        read_all(alloc, &mut self.device)
    }

    /// How many bytes more the file may have.
    pub fn room(&self) -> u64
        ensures { result ≡ self.now.limit - (self.now.gate + 1) }
    {
        self.limit.saturating_sub(self.gate + 1)
    }

    /// Puts a record, which ends with a shut gate, behind the records. At Ok it is acknowledged: from then on each crash
    /// leaves a file that has it. After a fault a repair is due, and nothing was acknowledged.
    pub fn put(&mut self, entry: &[u8]) -> Result<(), Failed>
        requires { self.old.gate + 1 + length entry.now < 2 ^ 64 }

        ensures acknowledged { OnOk result ((front : List ℕ) (entries : List Entry) (kind : ℕ)
            (payload : List ℕ) → entry.now ≡ body kind payload ++ 0 ∷ []
            → length payload < 2 ^ 64
            → IsSettled D.seen D.tells_crashes D.may_leave self.old front entries
            → IsSettled D.seen D.tells_crashes D.may_leave self.new (front ++ 1
            ∷ body kind payload) (entries
            ++ record { at = length front; kind = kind; payload = payload } ∷ [])) }

        // A crash at any moment of the call leaves the image from before it or the one with the record, beside any
        // other file.
        ensures any_moment { (front other : List ℕ) (entries : List Entry) (kind : ℕ)
            (payload : List ℕ) → entry.now ≡ body kind payload ++ 0 ∷ []
            → length payload < 2 ^ 64
            → IsSettled D.seen D.tells_crashes D.may_leave self.old front entries
            → IsTrue (D.tells_crashes self.old.device)
            → LeavesOnly D.moment D.left_since self.old.device self.new.device
            (HasEitherImage other (front ++ 0 ∷ []) (front ++ 1 ∷ (body kind payload ++ 0 ∷ []))) }

        // It leaves the bytes up to the last gate, and behind them a part of the record.
        ensures left { (front : List ℕ) → length front ≡ self.old.gate
            → RestsAs D.seen D.tells_crashes D.may_leave self.old.device (front ++ 0 ∷ [])
            → IsTrue (D.tells_crashes self.old.device)
            → LeavesOnly D.moment D.left_since self.old.device self.new.device
            (IsAt front entry.now) }

        ensures fault { OnErr result ((front : List ℕ) (entries : List Entry) (kind : ℕ)
            (payload : List ℕ) → entry.now ≡ body kind payload ++ 0 ∷ []
            → length payload < 2 ^ 64
            → IsSettled D.seen D.tells_crashes D.may_leave self.old front entries
            → IsUnsettled D.seen D.tells_crashes D.may_leave self.new front entries
            (body kind payload ++ 0 ∷ [])) }
        ensures due { OnErr result ((self.new.is_torn ≡ true) × (self.new.gate ≡ self.old.gate)) }
        ensures grown { OnOk result ((self.new.is_torn ≡ false)
            × (self.new.gate ≡ self.old.gate + length entry.now)) }
        ensures same_limit { self.new.limit ≡ self.old.limit }
        ensures cause { HasCause (D.failures self.old.device) (D.failures self.new.device) result }
        ensures reach { D.reach self.new.device
            ≤ max (D.reach self.old.device) (self.old.gate + 1 + length entry.now) }
        ensures tells { D.tells_crashes self.new.device ≡ D.tells_crashes self.old.device }
        ensures unfailing { D.unfailing_to self.new.device ≡ D.unfailing_to self.old.device }
    {
        self.is_torn = true;
        append_entry(&mut self.device, self.gate, entry)?;
        self.gate += entry.len() as u64;
        self.is_torn = false;
        Ok(())
    }

    /// Cuts off what stands behind the last acknowledged gate, and shuts it. After a fault a repair is still due.
    pub fn repair(&mut self) -> Result<(), Failed>
        ensures mended { OnOk result ((front entry : List ℕ) (entries : List Entry)
            → IsUnsettled D.seen D.tells_crashes D.may_leave self.old front entries entry
            → IsSettled D.seen D.tells_crashes D.may_leave self.new front entries) }

        // Until it answers Ok a crash leaves either of the two images.
        ensures any_moment { (front entry other : List ℕ) (entries : List Entry)
            → IsUnsettled D.seen D.tells_crashes D.may_leave self.old front entries entry
            → IsTrue (D.tells_crashes self.old.device)
            → LeavesOnly D.moment D.left_since self.old.device self.new.device
            (HasEitherImage other (front ++ 0 ∷ []) (front ++ 1 ∷ entry)) }

        ensures left { (front entry : List ℕ) → length front ≡ self.old.gate
            → StandsIn D.seen D.tells_crashes D.may_leave self.old.device (IsAt front entry)
            → IsTrue (D.tells_crashes self.old.device)
            → LeavesOnly D.moment D.left_since self.old.device self.new.device
            (IsAt front entry) }

        ensures fault { OnErr result ((front entry : List ℕ) (entries : List Entry)
            → IsUnsettled D.seen D.tells_crashes D.may_leave self.old front entries entry
            → IsUnsettled D.seen D.tells_crashes D.may_leave self.new front entries entry) }
        ensures due { OnErr result (self.new.is_torn ≡ true) }
        ensures ready { OnOk result (self.new.is_torn ≡ false) }
        ensures same { (self.new.gate ≡ self.old.gate) × (self.new.limit ≡ self.old.limit) }
        ensures cause { HasCause (D.failures self.old.device) (D.failures self.new.device) result }
        ensures reach { D.reach self.new.device
            ≤ max (D.reach self.old.device) (self.old.gate + 1) }
        ensures tells { D.tells_crashes self.new.device ≡ D.tells_crashes self.old.device }
        ensures unfailing { D.unfailing_to self.new.device ≡ D.unfailing_to self.old.device }
    {
        self.is_torn = true;
        shut_gate(&mut self.device, self.gate)?;
        self.is_torn = false;
        Ok(())
    }
}
