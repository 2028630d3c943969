//! Changes and images as they are read from the payloads of records.
ghost use Rattle.std.specs.Prelude.{◌≡◌, ◌-◌, ◌^◌, min, IfOk};
ghost use Rattle.text_store.specs.Edits.{whole_size};
ghost use Rattle.text_store.specs.Parsed.{IsPartIn, IsChangeIn, IsImageIn};

use crate::change::Change;
use crate::finding::image_of;
use crate::folding::{state_at, whole_content};
use crate::image::Image;
use crate::records::number_at;
use crate::whole::whole_len;
use hl_base::{Bytes, Memory, Splice};
use std::alloc::Global;

// The part of a text that a splice's payload replaces, if it isn't short.
fn read_splice(alloc: Global, payload: &[u8]) -> Result<Option<Splice>, Memory>
    ensures { IfOk result (λ found. IsPartIn payload.now found) }
{
    if payload.len() < 16 {
        return Ok(None);
    }
    let (_, inserted) = payload.split_at(16);
    Ok(Some(Splice {
        at: number_at(payload, 0),
        removed: number_at(payload, 8),
        inserted: Bytes::copied(alloc, inserted)?,
    }))
}

// The change of a splice's record.
fn read_part(alloc: Global, payload: &[u8]) -> Result<Option<Change>, Memory>
    ensures { IfOk result (λ found. IsChangeIn 83 payload.now found) }
{
    match read_splice(alloc, payload)? {
        None => Ok(None),
        Some(part) => Ok(Some(Change::Splice(part))),
    }
}

// The change of an import's record.
fn read_import(alloc: Global, payload: &[u8]) -> Result<Option<Change>, Memory>
    ensures { IfOk result (λ found. IsChangeIn 73 payload.now found) }
{
    let Some((state, behind)) = state_at(alloc, payload, 0)? else {
        return Ok(None);
    };
    match read_splice(alloc, &payload[behind..])? {
        None => Ok(None),
        Some(part) => Ok(Some(Change::Import(state, part))),
    }
}

// The change of a record of a whole text.
fn read_whole(alloc: Global, payload: &[u8]) -> Result<Option<Change>, Memory>
    ensures { IfOk result (λ found. IsChangeIn 84 payload.now found) }
{
    Ok(Some(Change::Whole(Bytes::copied(alloc, payload)?)))
}

impl Change {
    /// The change that a record makes, by its kind (`S`, `T` or `I`) and its payload; none, where the payload doesn't read. Whether
    /// its part lies in a text is judged when it is made.
    pub fn read(alloc: Global, kind: u8, payload: &[u8]) -> Result<Option<Change>, Memory>
        ensures { IfOk result (λ found. IsChangeIn kind payload.now found) }
    {
        match kind {
            b'S' => read_part(alloc, payload),
            b'T' => read_whole(alloc, payload),
            b'I' => read_import(alloc, payload),
            _ => Ok(None),
        }
    }
}

impl Image {
    /// The image of a `C` with a payload, at a revision; none, where the payload doesn't read.
    pub fn read(alloc: Global, payload: &[u8], revision: u64) -> Result<Option<Image>, Memory>
        ensures { IfOk result (λ found. IsImageIn payload.now revision found) }
    {
        match whole_content(alloc, payload)? {
            None => Ok(None),
            Some(content) => Ok(Some(image_of(content, revision))),
        }
    }

    /// The length of a file that holds the image and no further record, at most 2^64 - 1. It takes no memory.
    pub fn size(&self) -> u64
        ensures { result ≡ min (whole_size self.now) (2 ^ 64 - 1) }
    {
        whole_len(self)
    }
}
