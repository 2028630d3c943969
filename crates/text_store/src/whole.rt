//! A half that holds an image and no further record, as it is written.
ghost use Rattle.std.specs.Prelude.{◌≡◌, ℕ, ◌<◌, ◌≤◌, ◌+◌, ◌-◌, ◌^◌, ◌++◌, ◌∷◌, [], length, min, IfOk, OnOk};
ghost use Rattle.std.specs.Int.{w32, to_le_bytes};
ghost use Rattle.std.specs.List.{flat_map};
ghost use Rattle.text_store.specs.Changes.{mark_payload, AreStates};
ghost use Rattle.text_store.specs.Edits.{whole_size};
ghost use Rattle.text_store.specs.Entries.{body};
ghost use Rattle.text_store.specs.Files.{header, next_generation, whole_payload, HaveShortNames, IsWritable};

use crate::change::mark_bytes;
use crate::image::Image;
use hl_base::{Latest, Memory};
use std::alloc::Global;

/// The length of such a file, at most 2^64 - 1.
pub fn whole_len(image: &Image) -> u64
    ensures { result ≡ min (whole_size image.now) (2 ^ 64 - 1) }
{
    size_of_parts(image.text.as_slice(), image.latest.as_slice())
}

/// The length of a file that holds a text and the states of imports, whatever its revision, at most 2^64 - 1.
pub fn size_of_parts(text: &[u8], latest: &[Latest]) -> u64
    ensures { (revision : ℕ) → result ≡ min
        (whole_size (record { text = text.now; latest = latest.now; revision = revision }))
        (2 ^ 64 - 1) }
{
    let mut size = (text.len() as u64).saturating_add(47);
    for state in latest {
        size = size
            .saturating_add(12)
            .saturating_add(state.name.as_bytes().len() as u64);
    }
    size
}

/// The header of a half, with a shut gate behind it.
pub fn header_bytes(
    alloc: Global,
    limit: u64,
    generation: u64,
    revision: u64,
) -> Result<Vec<u8>, Memory>
    ensures { IfOk result (λ bytes. bytes.items ≡ header limit generation revision ++ 0 ∷ []) }
{
    let mut bytes = Vec::new(alloc);
    bytes.extend_from_slice(b"HLSTORE\x02")?;
    bytes.extend_from_slice(&limit.to_le_bytes())?;
    bytes.extend_from_slice(&generation.to_le_bytes())?;
    bytes.extend_from_slice(&revision.to_le_bytes())?;
    bytes.push(0)?;
    Ok(bytes)
}

// How many import states there are, and the states.
fn states_bytes(alloc: Global, latest: &[Latest]) -> Result<Vec<u8>, Memory>
    requires few { length latest.now < 2 ^ 32 }
    requires short { HaveShortNames latest.now }
    ensures bytes { IfOk result (λ bytes.
        bytes.items ≡ to_le_bytes w32 (length latest.now) ++ flat_map mark_payload latest.now) }
    ensures are_states { OnOk result (AreStates latest.now) }
{
    let mut bytes = Vec::new(alloc);
    bytes.extend_from_slice(&(latest.len() as u32).to_le_bytes())?;
    for state in latest {
        bytes.extend_from_slice(&mark_bytes(alloc, state)?)?;
    }
    Ok(bytes)
}

/// The record of an image, as it is written behind a gate, with a shut gate behind it.
pub fn whole_record(alloc: Global, image: &Image) -> Result<Vec<u8>, Memory>
    requires writable { IsWritable image.now }
    ensures bytes { IfOk result (λ bytes.
        bytes.items ≡ body 67 (whole_payload image.now) ++ 0 ∷ []) }
    ensures are_states { OnOk result (AreStates image.now.latest) }
    ensures fits { OnOk result (whole_size image.now < 2 ^ 64) }
{
    let text = image.text.as_slice();
    let states = states_bytes(alloc, image.latest.as_slice())?;
    let len = states.len() as u64 + text.len() as u64;
    let mut bytes = Vec::new(alloc);
    bytes.push(b'C')?;
    bytes.extend_from_slice(&len.to_le_bytes())?;
    bytes.extend_from_slice(&states)?;
    bytes.extend_from_slice(text)?;
    bytes.push(0)?;
    Ok(bytes)
}

/// The generation that follows one.
pub fn following(generation: u64) -> u64
    requires { generation < 3 }
    ensures { result ≡ next_generation generation }
{
    (generation + 1) % 3
}
