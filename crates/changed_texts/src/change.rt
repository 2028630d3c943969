//! Reads an entry in the place of another one.
ghost use Rattle.std.specs.Prelude.{◌≡◌, ◌+◌, ◌^◌, ◌<◌, ◌≤◌, IfOk, Ok, OnOk, length, slice_index_or};
ghost use Rattle.hl_base.specs.Gives.{Gives};
ghost use Rattle.hl_base.specs.declared.items.Piece.{Piece};
ghost use Rattle.entry_reader.specs.Causes.{cause_in};
ghost use Rattle.entry_reader.specs.Contexts.{context_of};
ghost use Rattle.entry_reader.specs.Lines.{contents_of};
ghost use Rattle.journal_reader.specs.Items.{items_in, reading};
ghost use Rattle.text_ends.specs.Ends.{items_at};
ghost use Rattle.changed_texts.specs.Changing.{change_to, items_with};
ghost use Rattle.changed_texts.specs.Replacing as spec;
ghost use Rattle.changed_texts.specs.Standing.{Replaces};

use crate::parts::bytes_of;
use book::{Item, Placed};
use entry_reader::{ReadFault, context_behind};
use hl_base::line::count_lines;
use hl_base::{Piece, Steps};
use journal_reader::read_item;
use moved_lines::{Offset, Shift};
use std::alloc::Global;
use std::sync::ledger::Ledger;

/// An entry of a text: the year that the text begins in, if it has one, the text, its items, and the entry's number among
/// them, counted from 0.
#[derive(Clone, Copy)]
pub struct Site<'a> {
    pub year: Option<u16>,
    pub text: &'a [u8],
    pub items: &'a [Placed],
    pub number: usize,
}

/// What becomes of the items of a text when an entry is changed: the item that stands there, and how far those behind it
/// move.
#[derive(Debug, Drop)]
pub struct Change {
    pub placed: Placed,
    pub by: Offset,
}

/// How far what stands behind a piece moves, when bytes stand in its place.
pub fn offset_of(text: &[u8], piece: &Piece, bytes: &[u8]) -> Offset
    requires { piece.now.at + piece.now.len ≤ length text.now }
    ensures { result ≡ spec.offset_of text.now piece.now bytes.now }
{
    let old = bytes_of(text, piece);
    Offset {
        bytes: Shift {
            removed: piece.len,
            added: bytes.len() as u64,
        },
        lines: Shift {
            removed: count_lines(old),
            added: count_lines(bytes),
        },
    }
}

/// The piece of bytes in the place of an entry.
fn piece_of(old: &Piece, bytes: &[u8]) -> Piece
    ensures { result ≡ spec.piece_of old.now bytes.now }
{
    Piece {
        at: old.at,
        len: bytes.len() as u64,
        line: old.line,
        kind: old.kind,
    }
}

/// What becomes of a text's items when bytes, which say this, stand in the place of an entry's piece.
fn change_of(text: &[u8], old: &Piece, bytes: &[u8], item: Item) -> Change
    requires { old.now.at + old.now.len ≤ length text.now }
    ensures { result ≡ change_to text.now old.now bytes.now item }
{
    let by = offset_of(text, old, bytes);
    let piece = piece_of(old, bytes);
    Change {
        placed: Placed { piece, item },
        by,
    }
}

/// An item of a text.
pub(crate) fn item_at<'a>(items: &'a [Placed], number: usize) -> &'a Placed
    requires { number < length items.now }
    ensures { result.now ≡ slice_index_or items.now number result.now }
{
    &items[number]
}

/// What bytes say behind some items, of which the first is in the `line`-th line. They are counted.
fn read_behind<L: Ledger>(
    alloc: Global,
    year: Option<u16>,
    before: &[Placed],
    line: u64,
    bytes: &[u8],
    steps: &mut Steps<L>,
) -> Result<Item, ReadFault>
    requires { line + length (contents_of bytes.now) < 2 ^ 64 }
    ensures value { Gives (λ item. item) cause_in result
        (reading (context_of year (items_at before.now)) line bytes.now) }
    ensures read { OnOk result (steps.new.bytes_read ≡ steps.old.bytes_read + length bytes.now) }
    ensures bound { steps.new.bytes_read ≤ steps.old.bytes_read + length bytes.now }
    ensures others { steps.new ≡ record steps.old { bytes_read = steps.new.bytes_read } }
{
    let context = context_behind(alloc, year, before)?;
    read_item(alloc, bytes, &context, line, steps)
}

/// What becomes of a text's items when other bytes, which are one entry and end with the end of a line, stand in the place
/// of an entry: with the answer put in they are what the new text reads as, or the fault is that of the new text. Only
/// these bytes are read.
pub fn read_change<L: Ledger>(
    alloc: Global,
    site: &Site,
    bytes: &[u8],
    steps: &mut Steps<L>,
) -> Result<Change, ReadFault>
    requires number { site.now.number < length site.now.items.now }
    requires items { items_in site.now.year site.now.text.now ≡ Ok site.now.items.now }
    requires entry { spec.IsEntry bytes.now }
    requires few { length site.now.text.now + length bytes.now + 1 < 2 ^ 64 }
    ensures value { (p : Piece) → spec.IsEntryOf site.now.text.now site.now.number p
        → Gives (items_with site.now.number site.now.items.now) cause_in result
        (items_in site.now.year (spec.replaced site.now.text.now p bytes.now)) }
    ensures made { (p : Piece) → spec.IsEntryOf site.now.text.now site.now.number p
        → IfOk result (λ change.
        change ≡ change_to site.now.text.now p bytes.now change.placed.item) }
    ensures txn { IfOk result (λ change. spec.IsTxn change.placed.item) }
    ensures replaces { (p : Piece) → spec.IsEntryOf site.now.text.now site.now.number p
        → IfOk result (λ change.
        Replaces site.now.year site.now.text.now site.now.items.now site.now.number p bytes.now
        (items_with site.now.number site.now.items.now change)) }
    ensures read { OnOk result (steps.new.bytes_read ≡ steps.old.bytes_read + length bytes.now) }
    ensures bound { steps.new.bytes_read ≤ steps.old.bytes_read + length bytes.now }
    ensures others { steps.new ≡ record steps.old { bytes_read = steps.new.bytes_read } }
{
    let (before, _) = site.items.split_at(site.number);
    let old = item_at(site.items, site.number);
    let item = read_behind(alloc, site.year, before, old.piece.line, bytes, steps)?;
    Ok(change_of(site.text, &old.piece, bytes, item))
}
