//! What stands before a frame's payload.
ghost use Rattle.std.specs.Prelude.{◌≡◌, ◌≢◌, ◌+◌, ◌<◌, ◌≤◌, true, [], List, ℕ, Some, length, slice_index, take, drop, vec_len, IfOk, IfErr, IfSome, OnOk};
ghost use Rattle.std.specs.Int.{w64, from_le_bytes, to_le_bytes};
ghost use Rattle.follower.specs.Fills.{NextRefused};
ghost use Rattle.follower.specs.Heads.{is_kind, most, BeginsAt, BeginsUpTo};

use crate::fault::FrameFault;
use crate::filling::fill;
use hl_base::Source;
use std::alloc::Global;

/// The most bytes of a frame's payload.
const MOST: u64 = 33_554_432;

/// A frame's revision, its kind, and its payload's length in bytes.
#[derive(Clone, Copy)]
pub struct Head {
    pub revision: u64,
    pub kind: u8,
    pub len: u64,
}

// Whether a record has this kind.
fn is_kind(kind: u8) -> bool
    ensures { result ≡ is_kind kind }
{
    kind == b'C' || kind == b'T' || kind == b'S' || kind == b'I'
}

// The byte at the place of the kind.
fn kind_in(bytes: &[u8]) -> u8
    requires { 8 < length bytes.now }
    ensures { result ≡ slice_index bytes.now 8 }
{
    bytes[8]
}

// The number in eight bytes, low byte first.
fn number_at(bytes: &[u8], at: usize) -> u64
    requires { at + 8 ≤ length bytes.now }
    ensures { result ≡ from_le_bytes w64 (take 8 (drop at bytes.now)) }
{
    let mut eight = [0u8; 8];
    eight.copy_from_slice(&bytes[at..at + 8]);
    u64::from_le_bytes(eight)
}

// The same, of which these are the bytes.
fn spelled_at(bytes: &[u8], at: usize) -> u64
    requires { at + 8 ≤ length bytes.now }
    ensures { (result ≡ from_le_bytes w64 (take 8 (drop at bytes.now)))
        × (to_le_bytes w64 result ≡ take 8 (drop at bytes.now)) }
{
    number_at(bytes, at)
}

// Reads a frame's revision and its kind, and tells the kind; none at the end.
fn next_kind<J: Source>(
    alloc: Global,
    source: &mut J,
    read: &mut Vec<u8>,
) -> Result<Option<u8>, FrameFault>
    requires { read.old.items ≡ [] }
    ensures found { IfOk result (λ found.
        IfSome (J.left source.old) (λ bytes. (rest : List ℕ) × (J.left source.new ≡ Some rest)
        × BeginsUpTo bytes found read.new.items rest)) }
    ensures nine { IfOk result (λ found.
        IfSome found (λ kind. (vec_len read.new ≡ 9) × (is_kind kind ≡ true))) }
    ensures refused { IfErr result (NextRefused (J.left source.old) (J.faults source.old)
        (J.faults source.new)) }
    ensures counted { J.faults source.old ≤ J.faults source.new }
    ensures steady { OnOk result (J.faults source.new ≡ J.faults source.old) }
    ensures sound { J.IsSound source.old → (result ≢ Err FrameFault.ReadFault)
        × J.IsSound source.new }
{
    fill(alloc, source, read, 9)?;
    let had = read.len();
    if had == 0 {
        return Ok(None);
    }
    if had < 9 {
        return Err(FrameFault::Cut { had: had as u64 });
    }
    let kind = kind_in(read.as_slice());
    if !is_kind(kind) {
        return Err(FrameFault::BadFrame { kind });
    }
    Ok(Some(kind))
}

/// The head of the next frame, none at the end. Its bytes are judged in their order.
pub fn next_head<J: Source>(alloc: Global, source: &mut J) -> Result<Option<Head>, FrameFault>
    ensures found { IfOk result (λ found.
        IfSome (J.left source.old) (λ bytes. (rest : List ℕ) × (J.left source.new ≡ Some rest)
        × BeginsAt bytes found rest)) }
    ensures small { IfOk result (λ found.
        IfSome found (λ head. (head.len ≤ most) × (is_kind head.kind ≡ true))) }
    ensures refused { IfErr result (NextRefused (J.left source.old) (J.faults source.old)
        (J.faults source.new)) }
    ensures counted { J.faults source.old ≤ J.faults source.new }
    ensures steady { OnOk result (J.faults source.new ≡ J.faults source.old) }
    ensures sound { J.IsSound source.old → (result ≢ Err FrameFault.ReadFault)
        × J.IsSound source.new }
{
    let mut read = Vec::new(alloc);
    let Some(kind) = next_kind(alloc, source, &mut read)? else {
        return Ok(None);
    };
    fill(alloc, source, &mut read, 17)?;
    let had = read.len();
    if had < 17 {
        return Err(FrameFault::Cut { had: had as u64 });
    }
    let said = spelled_at(&read, 9);
    if said > MOST {
        return Err(FrameFault::TooLong { said, limit: MOST });
    }
    let revision = spelled_at(&read, 0);
    Ok(Some(Head {
        revision,
        kind,
        len: said,
    }))
}
