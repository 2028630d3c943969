//! Reading a disk whole.
ghost use Rattle.std.specs.Prelude.{◌≡◌, ℕ, ◌<◌, ◌≤◌, List, length, take, Some, IsTrue, IfOk, IfErr, OnOk, vec_len};
ghost use Rattle.hl_base.specs.Disk.{Only};
ghost use Rattle.text_store.specs.Faults.{ReadRefused};
ghost use Rattle.text_store.specs.Refusals.{Told};
ghost use Rattle.text_store.specs.Rest.{IsReadOn, RestsAs};
ghost use Rattle.text_store.specs.Stores.{Throughout, fault_count};

use crate::fault::StoreFault;
use hl_base::{Disk, Memory};
use std::alloc::Global;

/// How many bytes are asked for at once.
const ROOM: usize = 65536;

// So many bytes, all zero.
fn zeros(alloc: Global, count: usize) -> Result<Vec<u8>, Memory>
    ensures { IfOk result (λ bytes. vec_len bytes ≡ count) }
{
    Ok(vec![in alloc; 0u8; count]?)
}

// Reads some more bytes behind the front of a file that was read. No more bytes is its end.
fn read_more<D: Disk>(
    device: &mut D,
    room: &mut [u8],
    bytes: &mut Vec<u8>,
) -> Result<(), StoreFault>
    requires { 0 < length room.old }
    ensures read { OnOk result ((file : List ℕ) → D.seen device.old ≡ Some file
        → length bytes.old.items ≤ length file
        → bytes.old.items ≡ take (length bytes.old.items) file
        → (bytes.new.items ≡ take (length bytes.new.items) file)
        × (length bytes.new.items ≤ length file)
        × (length bytes.new.items ≡ length bytes.old.items
        → length file ≤ length bytes.new.items)) }
    ensures longer { vec_len bytes.old ≤ vec_len bytes.new }
    ensures room { length room.new ≡ length room.old }
    ensures reads { IsReadOn D.Disk device.old device.new }
    ensures cause { IfErr result (λ e.
        ReadRefused (D.failures device.old) (D.failures device.new) e) }
    ensures no_fault { OnOk result (D.failures device.new ≡ D.failures device.old) }
{
    let count = device.read(bytes.len() as u64, room)?;
    bytes.extend_from_slice(&room[..count])?;
    Ok(())
}

/// Reads all of a file.
pub fn read_all<D: Disk>(alloc: Global, device: &mut D) -> Result<Vec<u8>, StoreFault>
    ensures bytes { IfOk result (λ bytes. (file : List ℕ) → D.seen device.old ≡ Some file
        → bytes.items ≡ file) }
    ensures reads { IsReadOn D.Disk device.old device.new }
    ensures cause { IfErr result (λ e.
        ReadRefused (D.failures device.old) (D.failures device.new) e) }
    ensures no_fault { OnOk result (D.failures device.new ≡ D.failures device.old) }
{
    let len = device.len()?;
    let mut room = zeros(alloc, ROOM)?;
    let mut bytes = Vec::new(alloc);
    while (bytes.len() as u64) < len {
        let before = bytes.len();
        read_more(device, &mut room, &mut bytes)?;
        if bytes.len() == before {
            return Ok(bytes);
        }
    }
    Ok(bytes)
}

/// Brings a file to rest and reads all of it.
pub fn rest_whole<D: Disk>(alloc: Global, device: &mut D) -> Result<Vec<u8>, StoreFault>
    ensures rests { IfOk result (λ bytes. (file : List ℕ) → D.seen device.old ≡ Some file
        → (bytes.items ≡ file) × RestsAs D.seen D.tells_crashes D.may_leave device.new file) }
    ensures reads { IsReadOn D.Disk device.old device.new }
    ensures cause { IfErr result (λ e.
        ReadRefused (D.failures device.old) (D.failures device.new) e) }
    ensures no_fault { OnOk result (D.failures device.new ≡ D.failures device.old) }
{
    device.sync()?;
    read_all(alloc, device)
}

/// Brings two files to rest and reads all of both.
pub fn read_both<D: Disk>(
    alloc: Global,
    first: &mut D,
    second: &mut D,
) -> Result<(Vec<u8>, Vec<u8>), StoreFault>
    ensures rests { IfOk result (λ bytes.
        Told D.Disk (first.old, second.old) (λ f s. (bytes.0.items ≡ f) × (bytes.1.items ≡ s)
        × RestsAs D.seen D.tells_crashes D.may_leave first.new f
        × RestsAs D.seen D.tells_crashes D.may_leave second.new s)) }
    ensures any_moment { Throughout D.Disk (first.old, second.old) (first.new, second.new) (λ f s.
        D.may_leave first.old f × D.may_leave second.old s) }
    ensures reads { IsReadOn D.Disk first.old first.new × IsReadOn D.Disk second.old second.new }
    ensures cause { IfErr result (λ e.
        ReadRefused (fault_count D.Disk (first.old, second.old))
        (fault_count D.Disk (first.new, second.new)) e) }
    ensures no_fault { OnOk result ((D.failures first.new ≡ D.failures first.old)
        × (D.failures second.new ≡ D.failures second.old)) }
{
    let first_bytes = rest_whole(alloc, first)?;
    let second_bytes = rest_whole(alloc, second)?;
    Ok((first_bytes, second_bytes))
}
