//! The frames of a file's records.
ghost use Rattle.std.specs.Prelude.{◌≡◌, ◌≤◌, ◌+◌, ◌^◌, ◌++◌, length, take, drop, IfOk, OnOk};
ghost use Rattle.text_store.specs.Frames.{frame, base_of, frames_of};

use crate::records::{Record, number_at, record_at};
use hl_base::Memory;
use std::alloc::Global;

/// The frames of the open records of a half, in order.
pub fn frames_of(alloc: Global, file: &[u8]) -> Result<Vec<u8>, Memory>
    ensures { IfOk result (λ frames. base_of file.now ≤ 2 ^ 62
        → frames.items ≡ frames_of file.now) }
{
    let mut frames = Vec::new(alloc);
    if file.len() < 32 {
        return Ok(frames);
    }
    let mut revision = number_at(file, 24);
    let mut at = 32;
    while let Some(record) = record_at(file, at) {
        push_frame(&mut frames, revision, file, record)?;
        revision = revision.saturating_add(1);
        at = record.payload + record.len;
    }
    Ok(frames)
}

// Adds the frame of a entry.
fn push_frame(frames: &mut Vec<u8>, revision: u64, file: &[u8], entry: Record) -> Result<(), Memory>
    requires { entry.payload + entry.len ≤ length file.now }
    ensures { OnOk result (frames.new.items ≡ frames.old.items
        ++ frame revision entry.kind (take entry.len (drop entry.payload file.now))) }
{
    frames.extend_from_slice(&revision.to_le_bytes())?;
    frames.push(entry.kind)?;
    frames.extend_from_slice(&(entry.len as u64).to_le_bytes())?;
    frames.extend_from_slice(&file[entry.payload..entry.payload + entry.len])?;
    Ok(())
}
