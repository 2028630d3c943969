//! Reading up to a number of bytes.
ghost use Rattle.std.specs.Prelude.{◌≡◌, ◌≢◌, ◌<◌, ◌≤◌, length, vec_len, IfErr, IfOk, OnOk};
ghost use Rattle.follower.specs.Fills.{ReadsOn, FillsOn, Ends, ReadRefused};

use crate::fault::FrameFault;
use hl_base::Source;
use std::alloc::{AllocError, Global};

/// How many bytes are asked for at once.
const ROOM: usize = 65536;

// So many bytes, all zero.
fn zeros(alloc: Global, count: usize) -> Result<Vec<u8>, AllocError>
    ensures { IfOk result (λ bytes. vec_len bytes ≡ count) }
{
    vec![in alloc; 0u8; count]
}

// Reads some bytes and adds them, up to a length; no more bytes is the end.
fn read_some<J: Source>(
    source: &mut J,
    room: &mut [u8],
    bytes: &mut Vec<u8>,
    most: usize,
) -> Result<(), FrameFault>
    requires room { 0 < length room.old }
    requires below { vec_len bytes.old < most }
    ensures read { OnOk result (ReadsOn (J.left source.old) (J.left source.new) bytes.old.items
        bytes.new.items) }
    ensures longer { vec_len bytes.old ≤ vec_len bytes.new }
    ensures within { vec_len bytes.new ≤ most }
    ensures refused { IfErr result (ReadRefused (J.faults source.old) (J.faults source.new)) }
    ensures counted { J.faults source.old ≤ J.faults source.new }
    ensures steady { OnOk result (J.faults source.new ≡ J.faults source.old) }
    ensures sound { J.IsSound source.old → (result ≢ Err FrameFault.ReadFault)
        × J.IsSound source.new }
{
    let wanted = room.len().min(most - bytes.len());
    let front = &mut room[..wanted];
    let count = source.read(front)?;
    let (read, _) = front.split_at(count);
    bytes.extend_from_slice(read)?;
    Ok(())
}

/// Reads on behind bytes until they are so many, or until the source ends.
pub fn fill<J: Source>(
    alloc: Global,
    source: &mut J,
    bytes: &mut Vec<u8>,
    count: usize,
) -> Result<(), FrameFault>
    requires { vec_len bytes.old ≤ count }
    ensures read { OnOk result (FillsOn (J.left source.old) (J.left source.new) bytes.old.items
        bytes.new.items) }
    ensures end { OnOk result (vec_len bytes.new < count
        → Ends (J.left source.old) (J.left source.new)) }
    ensures longer { vec_len bytes.old ≤ vec_len bytes.new }
    ensures within { vec_len bytes.new ≤ count }
    ensures refused { IfErr result (ReadRefused (J.faults source.old) (J.faults source.new)) }
    ensures counted { J.faults source.old ≤ J.faults source.new }
    ensures steady { OnOk result (J.faults source.new ≡ J.faults source.old) }
    ensures sound { J.IsSound source.old → (result ≢ Err FrameFault.ReadFault)
        × J.IsSound source.new }
{
    let mut room = zeros(alloc, ROOM.min(count - bytes.len()))?;
    while bytes.len() < count {
        let before = bytes.len();
        read_some(source, &mut room, bytes, count)?;
        if bytes.len() == before {
            return Ok(());
        }
    }
    Ok(())
}
