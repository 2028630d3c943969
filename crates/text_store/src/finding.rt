//! The image of two files, and the half in use.
ghost use Rattle.std.specs.Prelude.{◌≡◌, ℕ, ◌<◌, ◌≤◌, ◌+◌, ◌^◌, List, [], length, take, drop, Ok, IfOk, IfErr, IfSome};
ghost use Rattle.text_store.specs.declared.finding.Place.TheVariants.{Older};
ghost use Rattle.text_store.specs.Files.{IsWritable};
ghost use Rattle.text_store.specs.Found.{half_in_code, IsHead, IfLive, IsLiveHalf, IsChoice, IsInUse, HalfRefused, IsFound, OldRefused, ImageRefused};
ghost use Rattle.text_store.specs.Image.{live, other_image, old_image, number_8};
ghost use Rattle.text_store.specs.Stores.{IsChosen};

use crate::fault::StoreFault;
use crate::folding::{Content, Folded, fold_from, whole_content};
use crate::image::Image;
use crate::marks::Marks;
use crate::records::{number_at, record_at};
use crate::whole::following;
use hl_base::{Bytes, List, Memory};
use std::alloc::Global;

// What a half's header says: its limit, its generation and its base revision.
#[derive(Clone, Copy)]
struct Head {
    limit: u64,
    generation: u64,
    base: u64,
}

/// A live half: what its header says, its content at the first record, and the place of the gate behind that.
#[derive(Drop)]
pub struct LiveHalf {
    pub limit: u64,
    pub generation: u64,
    pub base: u64,
    pub start: Content,
    pub at: usize,
}

/// Of two files the one that is the half in use, if one is.
#[derive(Drop)]
pub enum Choice {
    Neither,
    First(LiveHalf),
    Second(LiveHalf),
}

/// The half in use: whether it is the second file, its limit, its generation, and the place of its last gate.
#[derive(Clone, Copy)]
pub struct InUse {
    pub in_second: bool,
    pub limit: u64,
    pub generation: u64,
    pub gate: u64,
}

/// Where an image stands: in the half in use, or in the first file, which is of version 1 and has a limit.
#[derive(Clone, Copy)]
pub enum Place {
    Half(InUse),
    Older(u64),
}

/// An image, and where it stands.
#[derive(Drop)]
pub struct Found {
    pub image: Image,
    pub place: Place,
}

// What the header of a half says.
fn head_of(file: &[u8]) -> Option<Head>
    requires { 32 ≤ length file.now }
    ensures { IsHead (take 32 file.now) result }
{
    let generation = number_at(file, 16);
    let base = number_at(file, 24);
    if &file[..8] != b"HLSTORE\x02".as_slice() || generation > 2 || base > 1 << 62 {
        return None;
    }
    Some(Head {
        limit: number_at(file, 8),
        generation,
        base,
    })
}

// A file as a live half, if it is one.
fn live_half(alloc: Global, file: &[u8]) -> Result<Option<LiveHalf>, Memory>
    ensures { IfOk result (λ found. IfLive file.now found) }
{
    let Some(record) = record_at(file, 32) else {
        return Ok(None);
    };
    if record.kind != b'C' {
        return Ok(None);
    }
    let Some(head) = head_of(file) else {
        return Ok(None);
    };
    let payload = &file[record.payload..record.payload + record.len];
    let Some(start) = whole_content(alloc, payload)? else {
        return Ok(None);
    };
    Ok(Some(LiveHalf {
        limit: head.limit,
        generation: head.generation,
        base: head.base,
        start,
        at: record.payload + record.len,
    }))
}

// Of two live halves the one whose generation follows the other's, and the first where they are equal.
fn choose(first: Option<LiveHalf>, second: Option<LiveHalf>) -> Choice
    requires { IfSome first (λ half. half.generation < 3) }
    ensures { (f s : List ℕ) → IfLive f first → IfLive s second → IsChoice f s result }
{
    match (first, second) {
        (None, None) => Choice::Neither,
        (Some(half), None) => Choice::First(half),
        (None, Some(half)) => Choice::Second(half),
        (Some(one), Some(other)) => {
            if other.generation == following(one.generation) {
                Choice::Second(other)
            } else {
                Choice::First(one)
            }
        }
    }
}

/// The image of a content.
pub fn image_of(content: Content, revision: u64) -> Image
    ensures { result ≡ record
        { text = content.text.items; latest = content.latest.states.items; revision = revision } }
{
    Image {
        text: Bytes::from_vec(content.text),
        latest: List::from_vec(content.latest.states),
        revision,
    }
}

// The image of a live half.
fn read_half(
    alloc: Global,
    file: &[u8],
    half: LiveHalf,
    in_second: bool,
) -> Result<Found, StoreFault>
    requires { IsLiveHalf file.now half }
    ensures found { IfOk result (λ found. (beside : List ℕ)
        → IsChosen in_second half.generation (live beside)
        → IsInUse file.now beside in_second found.image found.place) }
    ensures writable { IfOk result (λ found. IsWritable found.image) }
    ensures refused { IfErr result (λ e. HalfRefused (half_in_code file.now half) e) }
{
    match fold_from(alloc, file, half.at, half.start)? {
        Err(at) => Err(StoreFault::NotAStore { at: at as u64 }),
        Ok(end) => {
            let place = Place::Half(InUse {
                in_second,
                limit: half.limit,
                generation: half.generation,
                gate: end.gate as u64,
            });
            let image = image_of(end.content, half.base + end.count);
            Ok(Found { image, place })
        }
    }
}

// The image of a file of version 1.
fn read_old(alloc: Global, file: &[u8]) -> Result<Image, StoreFault>
    ensures found { IfOk result (λ image. (old_image file.now ≡ Ok image) × IsWritable image
        × (image.revision ≤ 2 ^ 62) × (16 ≤ length file.now)) }
    ensures refused { IfErr result (λ e. OldRefused (old_image file.now) e) }
{
    if file.len() < 17 {
        return Err(StoreFault::NotAStore { at: 0 });
    }
    let Some(record) = record_at(file, 16) else {
        return Err(StoreFault::NotAStore { at: 16 });
    };
    if record.kind != b'T' {
        return Err(StoreFault::NotAStore { at: 16 });
    }
    let start = text_alone(alloc, &file[record.payload..record.payload + record.len])?;
    match fold_from(alloc, file, record.payload + record.len, start)? {
        Err(at) => Err(StoreFault::NotAStore { at: at as u64 }),
        Ok(end) => Ok(image_of(end.content, end.count)),
    }
}

// A text without import states.
fn text_alone(alloc: Global, text: &[u8]) -> Result<Content, Memory>
    ensures { IfOk result (λ content. (content.text.items ≡ text.now)
        × (content.latest.states.items ≡ [])) }
{
    Ok(Content {
        text: Vec::from_slice(alloc, text)?,
        latest: Marks::new(alloc),
    })
}

// The image of a first file where no half is live.
fn read_other(alloc: Global, file: &[u8]) -> Result<Found, StoreFault>
    ensures found { IfOk result (λ found. (other_image file.now ≡ Ok found.image)
        × IsWritable found.image × (found.image.revision ≤ 2 ^ 62)
        × (found.place ≡ Older (number_8 (drop 8 file.now)))) }
    ensures refused { IfErr result (λ e. OldRefused (other_image file.now) e) }
{
    if file.len() < 8 || &file[..7] != b"HLSTORE".as_slice() {
        return Err(StoreFault::NotAStore { at: 0 });
    }
    let version = file[7];
    if version > 2 {
        return Err(StoreFault::Newer { version });
    }
    if version != 1 {
        return Err(StoreFault::NotAStore { at: 0 });
    }
    let image = read_old(alloc, file)?;
    let place = Place::Older(number_at(file, 8));
    Ok(Found { image, place })
}

/// The image of two files, and where it stands.
pub fn read_image(alloc: Global, first: &[u8], second: &[u8]) -> Result<Found, StoreFault>
    ensures found { IfOk result (λ found. IsFound first.now second.now found.image found.place) }
    ensures writable { IfOk result (λ found. IsWritable found.image) }
    ensures refused { IfErr result (λ e. ImageRefused first.now second.now e) }
{
    let first_half = live_half(alloc, first)?;
    let second_half = live_half(alloc, second)?;
    match choose(first_half, second_half) {
        Choice::Neither => read_other(alloc, first),
        Choice::First(half) => read_half(alloc, first, half, false),
        Choice::Second(half) => read_half(alloc, second, half, true),
    }
}
