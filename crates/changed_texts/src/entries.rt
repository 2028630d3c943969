//! Reads any entries and gaps in the place of an entry.
ghost use Rattle.std.specs.Prelude.{◌≡◌, ◌+◌, ◌^◌, ◌<◌, ◌≤◌, IfOk, OnOk, length, map};
ghost use Rattle.std.specs.List.{AllByRecursion};
ghost use Rattle.hl_base.specs.Gives.{Gives};
ghost use Rattle.hl_base.specs.Items.{items_of};
ghost use Rattle.hl_base.specs.Pieces.{bytes_in};
ghost use Rattle.entry_reader.specs.Causes.{cause_in};
ghost use Rattle.journal_reader.specs.Items.{reading_from};
ghost use Rattle.journal_reader.specs.Whole.{AreWithin};
ghost use Rattle.text_ends.specs.Growth as growth;
ghost use Rattle.text_ends.specs.Ends.{items_at};
ghost use Rattle.changed_texts.specs.Meeting.{said_behind};

use crate::parts::bytes_of;
use book::{Items, Placed};
use entry_reader::{ReadFault, context_behind};
use hl_base::{List, Memory, Piece, Steps, cut_items};
use journal_reader::read_item;
use std::alloc::Global;
use std::sync::ledger::Ledger;

/// Some pieces behind so many lines.
fn lines_on(alloc: Global, pieces: &[Piece], lines: u64) -> Result<Vec<Piece>, Memory>
    requires { AllByRecursion (λ p. (0 + p.at < 2 ^ 64) × (lines + p.line < 2 ^ 64)) pieces.now }
    ensures { IfOk result (λ v. v.items ≡ map (growth.shifted 0 lines) pieces.now) }
{
    let mut moved = Vec::with_capacity(alloc, pieces.len())?;
    for piece in pieces {
        moved.push(piece.shifted(0, lines))?;
    }
    Ok(moved)
}

/// The pieces of bytes behind so many lines.
fn pieces_on(alloc: Global, bytes: &[u8], lines: u64) -> Result<Vec<Piece>, Memory>
    requires { lines + length bytes.now + 1 < 2 ^ 64 }
    ensures pieces { IfOk result (λ v.
        v.items ≡ map (growth.shifted 0 lines) (items_of bytes.now)) }
    ensures within { IfOk result (λ v. AreWithin bytes.now v.items) }
    ensures size { IfOk result (λ v. bytes_in v.items ≡ length bytes.now) }
{
    let pieces = cut_items(alloc, bytes)?;
    let moved = lines_on(alloc, pieces.as_slice(), lines)?;
    Ok(moved)
}

/// What the pieces of a text say behind some items, or the fault of the first that doesn't read.
fn read_pieces<L: Ledger>(
    alloc: Global,
    year: Option<u16>,
    before: &[Placed],
    text: &[u8],
    pieces: &[Piece],
    steps: &mut Steps<L>,
) -> Result<Items, ReadFault>
    requires { AreWithin text.now pieces.now }
    ensures value { Gives (λ items. items) cause_in result
        (reading_from year (items_at before.now) text.now pieces.now) }
    ensures read { OnOk result (steps.new.bytes_read ≡ steps.old.bytes_read + bytes_in pieces.now) }
    ensures bound { steps.new.bytes_read ≤ steps.old.bytes_read + bytes_in pieces.now }
    ensures others { steps.new ≡ record steps.old { bytes_read = steps.new.bytes_read } }
{
    let mut context = context_behind(alloc, year, before)?;
    let mut items = Vec::with_capacity(alloc, pieces.len())?;
    for piece in pieces {
        let bytes = bytes_of(text, piece);
        let item = read_item(alloc, bytes, &context, piece.line, steps)?;
        context.after(alloc, &item)?;
        items.push(Placed {
            piece: *piece,
            item,
        })?;
    }
    Ok(List::from_vec(items))
}

/// What bytes say behind some items and so many lines, their pieces counted from their own first byte; or the fault of the
/// first that doesn't read. Only they are read.
pub fn read_entries<L: Ledger>(
    alloc: Global,
    year: Option<u16>,
    before: &[Placed],
    lines: u64,
    bytes: &[u8],
    steps: &mut Steps<L>,
) -> Result<Items, ReadFault>
    requires { lines + length bytes.now + 1 < 2 ^ 64 }
    ensures value { Gives (λ items. items) cause_in result
        (said_behind year (items_at before.now) lines bytes.now) }
    ensures read { OnOk result (steps.new.bytes_read ≡ steps.old.bytes_read + length bytes.now) }
    ensures bound { steps.new.bytes_read ≤ steps.old.bytes_read + length bytes.now }
    ensures others { steps.new ≡ record steps.old { bytes_read = steps.new.bytes_read } }
{
    let moved = pieces_on(alloc, bytes, lines)?;
    read_pieces(alloc, year, before, bytes, moved.as_slice(), steps)
}
