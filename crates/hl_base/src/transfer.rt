//! Reading all that a source has, and writing all of a text.
ghost use Rattle.std.specs.Prelude.{◌≡◌, ◌≢◌, ◌<◌, ◌≤◌, ◌+◌, ◌-◌, ◌++◌, ◌^◌, ℕ, List, [], Option, Some, length, take, drop, IfOk, OnOk, IsOk, OnErr, IfErr, IfSome, IsErrOf, vec_len};
ghost use Rattle.hl_base.specs.Causes.{Rose};
ghost use Rattle.hl_base.specs.ReadAll.{IfTooLong};

use crate::bytes::Bytes;
use crate::fault::{Failed, Memory};
use crate::outside::{Sink, Source};
use std::alloc::{AllocError, Global};

/// Why not all of a source could be read.
#[derive(Clone, Copy, Debug, PartialEq, Eq)]
pub enum ReadAllFault {
    /// A read failed.
    ReadFault,
    /// More than `limit` bytes came; `seen` were read.
    TooLong { limit: u64, seen: u64 },
    Memory,
}

impl From<AllocError> for ReadAllFault {
    ghost use Rattle.std.specs.Prelude.{◌≡◌};
    ghost use Rattle.hl_base.specs.declared.transfer.ReadAllFault.TheVariants as read_fault;

    ghost from_gives = { λ _ e. e ≡ read_fault.Memory };

    fn from(_error: AllocError) -> ReadAllFault {
        ReadAllFault::Memory
    }
}

impl From<Failed> for ReadAllFault {
    ghost use Rattle.std.specs.Prelude.{◌≡◌};
    ghost use Rattle.hl_base.specs.declared.transfer.ReadAllFault.TheVariants as read_fault;

    ghost from_gives = { λ _ e. e ≡ read_fault.ReadFault };

    fn from(_failed: Failed) -> ReadAllFault {
        ReadAllFault::ReadFault
    }
}

/// Writes the whole text, or a prefix of it at a fault.
pub fn write_all<O: Sink>(out: &mut O, text: &[u8]) -> Result<(), Failed>
    ensures ok { OnOk result (IfSome (O.written out.old) (λ before.
        O.written out.new ≡ Some (before ++ text.now))) }
    ensures prefix { OnErr result (IfSome (O.written out.old) (λ before.
        (n : ℕ) × (n ≤ length text.now) × (O.written out.new ≡ Some (before ++ take n text.now)))) }
    ensures rose { OnErr result (Rose (O.faults out.old) (O.faults out.new)) }
    ensures counted { O.faults out.old ≤ O.faults out.new }
    ensures steady { OnOk result (O.faults out.new ≡ O.faults out.old) }
    ensures sound { (more : ℕ) → O.HasRoom out.old (length text.now + more) → (IsOk result)
        × (O.HasRoom out.new more) }
{
    let mut at = 0;
    while at < text.len() {
        let (_, rest) = text.split_at(at);
        at += out.write(rest)?;
    }
    Ok(())
}

/// How many bytes are asked for at once.
const ROOM: usize = 65536;

/// Reads all that the source has left, at most `limit` bytes; of a longer one `limit + 1` are taken.
pub fn read_all<J: Source>(alloc: Global, source: &mut J, limit: u64) -> Result<Bytes, ReadAllFault>
    requires { limit < 2 ^ 64 - 1 }
    // All was read.
    ensures all { IfOk result (λ bytes.
        IfSome (J.left source.old) (λ told. (bytes ≡ told) × (J.left source.new ≡ Some []))) }
    ensures bound { IfOk result (λ bytes. length bytes ≤ limit) }
    // More than the limit came.
    ensures too_long { IfErr result (λ e.
        IfTooLong e (λ told_limit seen. (told_limit ≡ limit) × (seen ≡ limit + 1)
        × IfSome (J.left source.old) (λ told. limit < length told))) }
    ensures rose { IsErrOf result ReadAllFault.ReadFault
        → Rose (J.faults source.old) (J.faults source.new) }
    ensures counted { J.faults source.old ≤ J.faults source.new }
    ensures steady { OnOk result (J.faults source.new ≡ J.faults source.old) }
    ensures sound { J.IsSound source.old → (result ≢ Err ReadAllFault.ReadFault)
        × J.IsSound source.new }
{
    let mut room = zeros(alloc, ROOM)?;
    let mut bytes = Vec::new(alloc);
    while bytes.len() as u64 <= limit {
        let before = bytes.len();
        read_more(source, &mut room, &mut bytes, limit + 1)?;
        if bytes.len() == before {
            return Ok(Bytes::from_vec(bytes));
        }
    }
    Err(ReadAllFault::TooLong {
        limit,
        seen: limit + 1,
    })
}

/// So many bytes, all zero.
fn zeros(alloc: Global, count: usize) -> Result<Vec<u8>, AllocError>
    ensures { IfOk result (λ bytes. vec_len bytes ≡ count) }
{
    vec![in alloc; 0u8; count]
}

/// Reads some more bytes behind those that were read, up to a length; no more bytes is the end.
fn read_more<J: Source>(
    source: &mut J,
    room: &mut [u8],
    bytes: &mut Vec<u8>,
    most: u64,
) -> Result<(), ReadAllFault>
    requires room { 0 < length room.old }
    requires below { vec_len bytes.old < most }
    ensures read { OnOk result (IfSome (J.left source.old) (λ left. (n : ℕ) × (n ≤ length left)
        × (bytes.new.items ≡ bytes.old.items ++ take n left)
        × (J.left source.new ≡ Some (drop n left))
        × (n ≡ 0 → left ≡ []))) }
    ensures longer { vec_len bytes.old ≤ vec_len bytes.new }
    ensures bound { vec_len bytes.new ≤ most }
    ensures not_long { IfErr result (λ e. IfTooLong e (λ limit seen. ⊥)) }
    ensures rose { IsErrOf result ReadAllFault.ReadFault
        → Rose (J.faults source.old) (J.faults source.new) }
    ensures counted { J.faults source.old ≤ J.faults source.new }
    ensures steady { OnOk result (J.faults source.new ≡ J.faults source.old) }
    ensures sound { J.IsSound source.old → (result ≢ Err ReadAllFault.ReadFault)
        × J.IsSound source.new }
{
    let wanted = room.len().min((most - bytes.len() as u64) as usize);
    let front = &mut room[..wanted];
    let count = source.read(front)?;
    let (read, _) = front.split_at(count);
    bytes.extend_from_slice(read)?;
    Ok(())
}
