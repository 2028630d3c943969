//! The text that an edit makes.
ghost use Rattle.std.specs.Prelude.{◌≡◌, ◌+◌, ◌≤◌, ◌++◌, IfOk, OnOk, length, slice_get};
ghost use Rattle.hl_base.specs.Items.{items_of};
ghost use Rattle.live_journal.specs.Edits as spec;
ghost use Rattle.loaded_texts.specs.Keeping.{pieces_at};

use crate::edit::Edit;
use book::Placed;
use hl_base::line::ends_line;
use hl_base::{Bytes, Memory, Piece, Splice};
use std::alloc::Global;

/// Puts the LF behind the bytes that a text lacks.
fn push_line_end(bytes: &mut Vec<u8>, text: &[u8]) -> Result<(), Memory>
    ensures { OnOk result (bytes.new.items ≡ bytes.old.items ++ spec.line_end text.now) }
{
    if !text.is_empty() && !ends_line(text) {
        bytes.push(b'\n')?;
    }
    Ok(())
}

/// Puts an entry behind the bytes, with its LF.
fn push_entry(bytes: &mut Vec<u8>, entry: &[u8]) -> Result<(), Memory>
    ensures { OnOk result (bytes.new.items ≡ bytes.old.items ++ spec.ended entry.now) }
{
    bytes.extend_from_slice(entry)?;
    push_line_end(bytes, entry)
}

/// What is put behind a text where an entry is added to it. The text may leave a block of comments without its end.
fn added(alloc: Global, text: &[u8], unclosed: bool, entry: &[u8]) -> Result<Bytes, Memory>
    requires { unclosed ≡ spec.has_open_block text.now }
    ensures { IfOk result (λ bytes. bytes ≡ spec.added text.now entry.now) }
{
    let mut bytes = Vec::new(alloc);
    push_line_end(&mut bytes, text)?;
    if unclosed {
        bytes.extend_from_slice(b"end comment\n")?;
    }
    if !text.is_empty() {
        bytes.push(b'\n')?;
    }
    push_entry(&mut bytes, entry)?;
    Ok(Bytes::from_vec(bytes))
}

/// An entry with its LF.
fn ended(alloc: Global, entry: &[u8]) -> Result<Bytes, Memory>
    ensures { IfOk result (λ bytes. bytes ≡ spec.ended entry.now) }
{
    let mut bytes = Vec::new(alloc);
    push_entry(&mut bytes, entry)?;
    Ok(Bytes::from_vec(bytes))
}

/// The piece of an item.
fn piece_at(items: &[Placed], at: usize) -> Option<Piece>
    ensures { result ≡ slice_get (pieces_at items.now) at }
{
    if at < items.len() {
        Some(items[at].piece)
    } else {
        None
    }
}

/// The piece of the item of a number, counted from 1.
pub(crate) fn numbered(items: &[Placed], number: u64) -> Option<Piece>
    ensures { result ≡ spec.numbered (pieces_at items.now) number }
{
    if number == 0 {
        return None;
    }
    piece_at(items, (number - 1) as usize)
}

/// The change that puts bytes in the place of a piece.
fn replacing(alloc: Global, piece: Option<Piece>, bytes: Bytes) -> Splice
    ensures { result ≡ spec.replacing piece bytes }
{
    match piece {
        Some(piece) => Splice {
            at: piece.at,
            removed: piece.len,
            inserted: bytes,
        },
        None => Splice {
            at: 0,
            removed: 0,
            inserted: Bytes::new(alloc),
        },
    }
}

/// The change of a text that an edit is, by the text's items. The text may leave a block of comments without its end.
pub(crate) fn splice_of(
    alloc: Global,
    text: &[u8],
    items: &[Placed],
    unclosed: bool,
    edit: &Edit,
) -> Result<Splice, Memory>
    requires cut { pieces_at items.now ≡ items_of text.now }
    requires unclosed { unclosed ≡ spec.has_open_block text.now }
    ensures value { IfOk result (λ splice. splice ≡ spec.splice_of text.now edit.now) }
    ensures inside { IfOk result (λ splice. splice.at + splice.removed ≤ length text.now) }
{
    match edit {
        Edit::Add { entry } => Ok(Splice {
            at: text.len() as u64,
            removed: 0,
            inserted: added(alloc, text, unclosed, entry.as_slice())?,
        }),
        Edit::Change {
            base: _,
            item,
            entry,
        } => {
            let bytes = ended(alloc, entry.as_slice())?;
            Ok(replacing(alloc, numbered(items, *item), bytes))
        }
        Edit::Replace { base: _, text: new } => Ok(Splice {
            at: 0,
            removed: text.len() as u64,
            inserted: Bytes::copied(alloc, new.as_slice())?,
        }),
    }
}

/// A text after a change.
pub(crate) fn spliced(alloc: Global, text: &[u8], splice: &Splice) -> Result<Bytes, Memory>
    requires { splice.now.at + splice.now.removed ≤ length text.now }
    ensures { IfOk result (λ new. new ≡ spec.spliced text.now splice.now) }
{
    let (front, _) = text.split_at(splice.at as usize);
    let (_, behind) = text.split_at((splice.at + splice.removed) as usize);
    let inserted = splice.inserted.as_slice();
    let size = front.len().saturating_add(inserted.len());
    let mut new = Vec::with_capacity(alloc, size.saturating_add(behind.len()))?;
    new.extend_from_slice(front)?;
    new.extend_from_slice(inserted)?;
    new.extend_from_slice(behind)?;
    Ok(Bytes::from_vec(new))
}
