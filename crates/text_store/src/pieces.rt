//! A text in pieces, so that an edit moves only the bytes near its place.
ghost use Rattle.std.specs.Prelude.{◌≡◌, ◌≤◌, ◌<◌, ◌+◌, ◌++◌, length, take, drop, OnOk, IfOk, MatchBool, MatchOption};
ghost use Rattle.text_store.specs.Joined.{joined};
ghost use Rattle.text_store.specs.Pieces.{IsInside, place_from};

use hl_base::Memory;
use std::alloc::Global;
use std::marker::Model;

/// The least bytes of the parts into which a text is cut.
const PART: usize = 65_536;

/// A text is cut into at most about so many parts.
const CUT_PARTS: usize = 512;

/// With more parts than this the text is cut anew.
const MOST_PARTS: usize = 2048;

/// A text in parts, which contracts see as one list of bytes.
#[derive(Drop)]
pub struct Pieces {
    parts: Vec<Vec<u8>>,
}

impl Model for Pieces {
    ghost use Rattle.std.specs.Prelude.{List, ℕ};
    ghost use Rattle.text_store.specs.Joined.{joined};

    ghost Value = { List ℕ };

    ghost view = { λ p. joined p.parts.items };
}

/// A place in parts: how many parts stand before it, and how many bytes of the next one do.
#[derive(Drop)]
pub struct PlaceInParts {
    pub part: usize,
    pub inside: usize,
}

// The place in the parts of a place in their text, if it isn't behind it.
fn place_of(parts: &[Vec<u8>], at: usize) -> Option<PlaceInParts>
    ensures { result ≡ place_from parts.now at 0 }
{
    let mut left = at;
    for i in 0..parts.len() {
        let len = parts[i].len();
        if left < len {
            return Some(PlaceInParts {
                part: i,
                inside: left,
            });
        }
        left -= len;
    }
    if left > 0 {
        return None;
    }
    Some(PlaceInParts {
        part: parts.len(),
        inside: 0,
    })
}

// Takes the bytes behind a place off the first part, and hands out a copy of those before it.
fn cut_first(alloc: Global, parts: &mut Vec<Vec<u8>>, inside: usize) -> Result<Vec<u8>, Memory>
    requires { (0 < inside) × IsInside inside parts.old.items }
    ensures front { IfOk result (λ front. front.items ≡ take inside (joined parts.old.items)) }
    ensures behind { OnOk result (joined parts.new.items ≡ drop inside (joined parts.old.items)) }
{
    let (front, behind) = parts[0].split_at(inside);
    let front = Vec::from_slice(alloc, front)?;
    let behind = Vec::from_slice(alloc, behind)?;
    parts[0] = behind;
    Ok(front)
}

// Takes what stands behind a place off the parts, if the place isn't behind the text.
fn split(alloc: Global, parts: &mut Vec<Vec<u8>>, at: usize) -> Result<Option<Vec<Vec<u8>>>, Memory>
    ensures { IfOk result (λ found. MatchOption found (length (joined parts.old.items) < at)
        (λ behind. (at ≤ length (joined parts.old.items))
        × (joined parts.new.items ≡ take at (joined parts.old.items))
        × (joined behind.items ≡ drop at (joined parts.old.items)))) }
{
    let Some(place) = place_of(parts, at) else {
        return Ok(None);
    };
    let mut behind = parts.split_off(place.part)?;
    if place.inside > 0 {
        let front = cut_first(alloc, &mut behind, place.inside)?;
        parts.push(front)?;
    }
    Ok(Some(behind))
}

// Adds a copy of a text to the parts, in parts of its own.
fn add(alloc: Global, parts: &mut Vec<Vec<u8>>, text: &[u8]) -> Result<(), Memory>
    ensures { OnOk result (joined parts.new.items ≡ joined parts.old.items ++ text.now) }
{
    let size = part_size(text.len());
    let mut rest = text;
    while rest.len() > size {
        let (piece, behind) = rest.split_at(size);
        parts.push(Vec::from_slice(alloc, piece)?)?;
        rest = behind;
    }
    parts.push(Vec::from_slice(alloc, rest)?)?;
    Ok(())
}

// The bytes of each part into which a text of a length is cut.
fn part_size(len: usize) -> usize
    ensures { 0 < result }
{
    let even = len / CUT_PARTS;
    if even > PART { even } else { PART }
}

// The text of parts.
fn text_of(alloc: Global, parts: &[Vec<u8>]) -> Result<Vec<u8>, Memory>
    ensures { IfOk result (λ text. text.items ≡ joined parts.now) }
{
    let mut text = Vec::new(alloc);
    for part in parts {
        text.extend_from_slice(part)?;
    }
    Ok(text)
}

// Replaces a part of the text of parts; false, where it lies outside.
fn replace_in(
    alloc: Global,
    parts: &mut Vec<Vec<u8>>,
    at: usize,
    removed: usize,
    inserted: &[u8],
) -> Result<bool, Memory>
    ensures { IfOk result (λ good. MatchBool good
        ((at + removed ≤ length (joined parts.old.items))
        × (joined parts.new.items ≡ take at (joined parts.old.items) ++ inserted.now
        ++ drop (at + removed) (joined parts.old.items)))
        (length (joined parts.old.items) < at + removed)) }
{
    let Some(mut behind) = split(alloc, parts, at)? else {
        return Ok(false);
    };
    let Some(mut rest) = split(alloc, &mut behind, removed)? else {
        return Ok(false);
    };
    add(alloc, parts, inserted)?;
    parts.append(&mut rest)?;
    Ok(true)
}

impl Pieces {
    /// The pieces of a text, without a copy.
    pub fn of(alloc: Global, text: Vec<u8>) -> Result<Pieces, Memory>
        ensures { IfOk result (λ pieces. pieces ≡ text.items) }
    {
        let mut parts = Vec::new(alloc);
        parts.push(text)?;
        Ok(Pieces { parts })
    }

    /// Replaces a part of the text; false, where it lies outside.
    pub fn replace(
        &mut self,
        alloc: Global,
        at: usize,
        removed: usize,
        inserted: &[u8],
    ) -> Result<bool, Memory>
        ensures { IfOk result (λ good. MatchBool good
            ((at + removed ≤ length self.old)
            × (self.new ≡ take at self.old ++ inserted.now ++ drop (at + removed) self.old))
            (length self.old < at + removed)) }
    {
        self.even_out(alloc)?;
        replace_in(alloc, &mut self.parts, at, removed, inserted)
    }

    // Cuts the text anew, where it has too many parts or one alone.
    fn even_out(&mut self, alloc: Global) -> Result<(), Memory>
        ensures { OnOk result (self.new ≡ self.old) }
    {
        if self.parts.len() > MOST_PARTS || self.parts.len() == 1 {
            let text = text_of(alloc, &self.parts)?;
            let mut parts = Vec::new(alloc);
            add(alloc, &mut parts, &text)?;
            self.parts = parts;
        }
        Ok(())
    }

    /// The text, without a copy where it has one part.
    pub fn into_vec(self, alloc: Global) -> Result<Vec<u8>, Memory>
        ensures { IfOk result (λ text. text.items ≡ self) }
    {
        let mut parts = self.parts;
        if parts.len() == 1 {
            return Ok(parts.remove(0));
        }
        text_of(alloc, &parts)
    }
}
