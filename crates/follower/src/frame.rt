//! Frames, and the next one of a source.
ghost use Rattle.std.specs.Prelude.{◌≡◌, ◌≢◌, ◌≤◌, List, ℕ, Some, IfOk, IfErr, IfSome, OnOk};
ghost use Rattle.follower.specs.Fills.{NextRefused};
ghost use Rattle.follower.specs.Heads.{BeginsWith};

use crate::fault::FrameFault;
use crate::filling::fill;
use crate::heads::next_head;
use hl_base::{Bytes, Source};
use std::alloc::Global;

/// A record of a store with a revision: that of the image of a `C`, or the one after the change of a `T`, an `S` or an `I`.
#[derive(Debug, Drop)]
pub struct Frame {
    pub revision: u64,
    pub kind: u8,
    pub payload: Bytes,
}

/// The next frame of a source, none at an end between two frames. A frame is a revision in 8 bytes, a kind byte, the payload's
/// length in 8 bytes, and the payload, at most 33,554,432 bytes; numbers have their low byte first. Its bytes are judged in their
/// order, and no byte behind it is read.
pub fn next_frame<J: Source>(alloc: Global, source: &mut J) -> Result<Option<Frame>, FrameFault>
    ensures found { IfOk result (λ found.
        IfSome (J.left source.old) (λ bytes. (rest : List ℕ) × (J.left source.new ≡ Some rest)
        × BeginsWith bytes found rest)) }
    ensures refused { IfErr result (NextRefused (J.left source.old) (J.faults source.old)
        (J.faults source.new)) }
    ensures counted { J.faults source.old ≤ J.faults source.new }
    ensures steady { OnOk result (J.faults source.new ≡ J.faults source.old) }
    ensures sound { J.IsSound source.old → (result ≢ Err FrameFault.ReadFault)
        × J.IsSound source.new }
{
    let Some(head) = next_head(alloc, source)? else {
        return Ok(None);
    };
    let len = head.len as usize;
    let mut payload = Vec::new(alloc);
    fill(alloc, source, &mut payload, len)?;
    let had = payload.len();
    if had < len {
        return Err(FrameFault::Cut {
            had: 17 + had as u64,
        });
    }
    Ok(Some(Frame {
        revision: head.revision,
        kind: head.kind,
        payload: Bytes::from_vec(payload),
    }))
}
