//! The changes of a text, and the records that stand for them.
ghost use Rattle.std.specs.Prelude.{◌≡◌, ◌<◌, ◌^◌, ◌++◌, ◌∷◌, [], length, IfOk, OnOk};
ghost use Rattle.text_store.specs.Entries.{body};
ghost use Rattle.text_store.specs.Changes.{kind_of, payload_of, splice_payload, mark_payload, HasShortName, IsPart, IsState, IsChange};

use hl_base::{Bytes, Latest, Memory, Splice};
use std::alloc::Global;

/// A change of a store's text: a part of it, all of it, or an import's state and its part.
#[derive(Debug, Drop)]
pub enum Change {
    Splice(Splice),
    Whole(Bytes),
    Import(Latest, Splice),
}

// The kind byte of a change's record.
fn kind_byte(change: &Change) -> u8
    ensures { result ≡ kind_of change.now }
{
    match change {
        Change::Splice(_) => b'S',
        Change::Whole(_) => b'T',
        Change::Import(_, _) => b'I',
    }
}

// The payload of a change's record.
fn payload_bytes(alloc: Global, change: &Change) -> Result<Vec<u8>, Memory>
    requires { HasShortName change.now }
    ensures bytes { IfOk result (λ bytes. bytes.items ≡ payload_of change.now) }
    ensures is_change { OnOk result (IsChange change.now) }
{
    match change {
        Change::Splice(splice) => splice_bytes(alloc, splice),
        Change::Whole(text) => Ok(Vec::from_slice(alloc, text.as_slice())?),
        Change::Import(latest, splice) => {
            let mut bytes = mark_bytes(alloc, latest)?;
            let part = splice_bytes(alloc, splice)?;
            bytes.extend_from_slice(&part)?;
            Ok(bytes)
        }
    }
}

// A splice: its place and how many bytes it removes, and those that it inserts.
fn splice_bytes(alloc: Global, splice: &Splice) -> Result<Vec<u8>, Memory>
    ensures bytes { IfOk result (λ bytes. bytes.items ≡ splice_payload splice.now) }
    ensures is_part { OnOk result (IsPart splice.now) }
{
    let mut bytes = Vec::new(alloc);
    bytes.extend_from_slice(&splice.at.to_le_bytes())?;
    bytes.extend_from_slice(&splice.removed.to_le_bytes())?;
    bytes.extend_from_slice(splice.inserted.as_slice())?;
    Ok(bytes)
}

/// An import's state: its name's length and the name, the day and the count.
pub fn mark_bytes(alloc: Global, latest: &Latest) -> Result<Vec<u8>, Memory>
    requires { length latest.now.name < 2 ^ 32 }
    ensures bytes { IfOk result (λ bytes. bytes.items ≡ mark_payload latest.now) }
    ensures is_state { OnOk result (IsState latest.now) }
{
    let name = latest.name.as_str().as_bytes();
    let mut bytes = Vec::new(alloc);
    bytes.extend_from_slice(&(name.len() as u32).to_le_bytes())?;
    bytes.extend_from_slice(name)?;
    bytes.extend_from_slice(&latest.day.to_le_bytes())?;
    bytes.extend_from_slice(&latest.count.to_le_bytes())?;
    Ok(bytes)
}

/// The record of a change as it is written behind a gate, with a shut gate behind it.
pub fn record_of(alloc: Global, change: &Change) -> Result<Vec<u8>, Memory>
    requires { HasShortName change.now }
    ensures bytes { IfOk result (λ bytes.
        bytes.items ≡ body (kind_of change.now) (payload_of change.now) ++ 0 ∷ []) }
    ensures is_change { OnOk result (IsChange change.now) }
    ensures fits { OnOk result (length (payload_of change.now) < 2 ^ 64) }
{
    let payload = payload_bytes(alloc, change)?;
    let mut bytes = Vec::new(alloc);
    bytes.push(kind_byte(change))?;
    bytes.extend_from_slice(&(payload.len() as u64).to_le_bytes())?;
    bytes.extend_from_slice(&payload)?;
    bytes.push(0)?;
    Ok(bytes)
}
