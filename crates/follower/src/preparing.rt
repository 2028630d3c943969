//! The images that frames make.
ghost use Rattle.std.specs.Prelude.{◌≡◌, ◌^◌, ◌≤◌, ◌+◌, IfOk, IfSome};
ghost use Rattle.text_store.specs.Files.{IsWritable};
ghost use Rattle.follower.specs.Images.{snapshot};
ghost use Rattle.follower.specs.Prepared.{IsPrepared};

use crate::frame::Frame;
use crate::puts::{Next, next_of};
use hl_base::Memory;
use std::alloc::Global;
use text_store::{Change, Image};

/// The greatest revision of a frame that is taken.
const LAST: u64 = 1 << 62;

/// A frame's change, and what it makes anew of an image beside its text.
#[derive(Drop)]
pub struct Prepared {
    pub change: Change,
    pub next: Next,
}

/// The image of a `C`, if its payload reads and its revision is at most 2^62.
pub fn snapshot_of(alloc: Global, frame: &Frame) -> Result<Option<Image>, Memory>
    ensures image { IfOk result (λ found. found ≡ snapshot frame.now) }
    ensures writable { IfOk result (λ found.
        IfSome found (λ image. IsWritable image × (image.revision ≤ 2 ^ 62)
        × (image.revision ≡ frame.now.revision))) }
{
    if frame.revision > LAST {
        return Ok(None);
    }
    Image::read(alloc, frame.payload.as_slice(), frame.revision)
}

/// What the next frame after an image makes of it, if its payload reads, its part lies in the text, and its revision is at most 2^62.
pub fn prepare(alloc: Global, image: &Image, frame: &Frame) -> Result<Option<Prepared>, Memory>
    requires next { frame.now.revision ≡ image.now.revision + 1 }
    requires kind { frame.now.kind ≡ 67 → ⊥ }
    ensures { IfOk result (IsPrepared image.now frame.now) }
{
    if frame.revision > LAST {
        return Ok(None);
    }
    let Some(change) = Change::read(alloc, frame.kind, frame.payload.as_slice())? else {
        return Ok(None);
    };
    let Some(next) = next_of(alloc, image, &change)? else {
        return Ok(None);
    };
    Ok(Some(Prepared { change, next }))
}
