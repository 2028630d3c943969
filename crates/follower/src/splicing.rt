//! A text that is changed where it lies: it is copied only where it needs more room, and takes twice as much then.
ghost use Rattle.std.specs.Prelude.{◌≡◌, ◌+◌, ◌≤◌, [], length, vec_capacity, vec_len, OnOk};
ghost use Rattle.follower.specs.Changing.{turned, with_part, text_after, LiesIn, HasRoom};

use hl_base::{Bytes, Memory, Splice};
use std::alloc::Global;
use std::mem::replace;
use text_store::{Change, Image};

/// Takes the text out of an image, without a copy.
pub fn take_text(alloc: Global, image: &mut Image) -> Vec<u8>
    ensures text { result.items ≡ image.old.text }
    ensures len { vec_len result ≡ length image.old.text }
    ensures left { image.new ≡ record image.old { text = [] } }
{
    replace(&mut image.text, Bytes::new(alloc)).into_vec()
}

// Asks for room for what a part inserts.
fn reserve_part(text: &mut Vec<u8>, part: &Splice) -> Result<(), Memory>
    ensures items { text.new.items ≡ text.old.items }
    ensures len { vec_len text.new ≡ vec_len text.old }
    ensures room { OnOk result (vec_len text.new + length part.now.inserted
        ≤ vec_capacity text.new) }
{
    text.reserve(part.inserted.as_slice().len())?;
    Ok(())
}

/// Asks for the room that a text needs for a change.
pub fn reserve_for(text: &mut Vec<u8>, change: &Change) -> Result<(), Memory>
    ensures items { text.new.items ≡ text.old.items }
    ensures len { vec_len text.new ≡ vec_len text.old }
    ensures room { OnOk result (HasRoom change.now (vec_len text.new) (vec_capacity text.new)) }
{
    match change {
        Change::Splice(part) => reserve_part(text, part),
        Change::Whole(_) => Ok(()),
        Change::Import(_, part) => reserve_part(text, part),
    }
}

// Turns the bytes from a place on, so that so many of them stand last.
fn turn_slice(bytes: &mut [u8], from: usize, count: usize)
    requires { from + count ≤ length bytes.old }
    ensures { bytes.new ≡ turned from count bytes.old }
{
    let (_, behind) = bytes.split_at_mut(from);
    behind.rotate_left(count);
}

// Turns the bytes of a text from a place on, so that so many of them stand last.
fn turn_behind(text: &mut Vec<u8>, from: usize, count: usize)
    requires { from + count ≤ vec_len text.old }
    ensures items { text.new.items ≡ turned from count text.old.items }
    ensures len { vec_len text.new ≡ vec_len text.old }
{
    turn_slice(text.as_mut_slice(), from, count);
}

// Replaces a part of a text that has the room. What is inserted goes to the end, then what is removed, which is cut off, and then what
// stands behind the part: so only that moves.
fn put_part(text: &mut Vec<u8>, part: &Splice)
    requires inside { part.now.at + part.now.removed ≤ vec_len text.old }
    requires room { vec_len text.old + length part.now.inserted ≤ vec_capacity text.old }
    ensures { text.new.items ≡ with_part text.old.items part.now }
{
    let at = part.at as usize;
    let removed = part.removed as usize;
    let behind = text.len() - removed - at;
    let _is_put = text.extend_from_slice(part.inserted.as_slice()).is_ok();
    turn_behind(text, at, removed);
    let kept = text.len() - removed;
    text.truncate(kept);
    turn_behind(text, at, behind);
}

/// Makes a change in a text that has the room. It takes no memory.
pub fn put_in(text: &mut Vec<u8>, change: Change)
    requires inside { LiesIn change (vec_len text.old) }
    requires room { HasRoom change (vec_len text.old) (vec_capacity text.old) }
    ensures { text.new.items ≡ text_after change text.old.items }
{
    match change {
        Change::Splice(part) => put_part(text, &part),
        Change::Whole(whole) => *text = whole.into_vec(),
        Change::Import(_, part) => put_part(text, &part),
    }
}
