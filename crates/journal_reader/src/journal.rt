//! Reads the items of a text, piece by piece.
ghost use Rattle.std.specs.Prelude.{◌≡◌, ◌+◌, ◌≤◌, ◌<◌, ◌^◌, [], OnOk, length, take, drop};
ghost use Rattle.hl_base.specs.Gives.{Gives};
ghost use Rattle.hl_base.specs.Pieces.{bytes_in};
ghost use Rattle.entry_reader.specs.Causes.{cause_in};
ghost use Rattle.journal_reader.specs.Items as spec;
ghost use Rattle.journal_reader.specs.Whole.{AreWithin};

use crate::item::read_item;
use book::{Items, Placed};
use entry_reader::{Context, ReadFault};
use hl_base::{List, Piece, Steps, cut_items};
use std::alloc::Global;
use std::sync::ledger::Ledger;

/// The bytes of a piece of a text.
fn bytes_of<'a>(text: &'a [u8], piece: &Piece) -> &'a [u8]
    requires { piece.now.at + piece.now.len ≤ length text.now }
    ensures { result.now ≡ take piece.now.len (drop piece.now.at text.now) }
{
    let at = piece.at as usize;
    &text[at..at + piece.len as usize]
}

/// What the pieces of a text say, in order, with a year for the dates that are written without one; or the fault of the
/// first that doesn't read.
pub fn read_items<L: Ledger>(
    alloc: Global,
    text: &[u8],
    pieces: &[Piece],
    year: Option<u16>,
    steps: &mut Steps<L>,
) -> Result<Items, ReadFault>
    requires { AreWithin text.now pieces.now }
    ensures value { Gives (λ items.
        items) cause_in result (spec.reading_from year [] text.now pieces.now) }
    ensures read { OnOk result (steps.new.bytes_read ≡ steps.old.bytes_read + bytes_in pieces.now) }
    ensures bound { steps.new.bytes_read ≤ steps.old.bytes_read + bytes_in pieces.now }
    ensures others { steps.new ≡ record steps.old { bytes_read = steps.new.bytes_read } }
{
    let mut context = Context::start(alloc, year)?;
    let mut items = Vec::with_capacity(alloc, pieces.len())?;
    for piece in pieces {
        let bytes = bytes_of(text, piece);
        let item = read_item(alloc, bytes, &context, piece.line, steps)?;
        context.after(alloc, &item)?;
        items.push(Placed {
            piece: *piece,
            item,
        })?;
    }
    Ok(List::from_vec(items))
}

/// The items of a text, in order, with a year for the dates that are written without one; or the fault of the first that
/// doesn't read.
#[tactic(auto, using(crate::proofs::Whole::within))]
pub fn read_journal<L: Ledger>(
    alloc: Global,
    text: &[u8],
    year: Option<u16>,
    steps: &mut Steps<L>,
) -> Result<Items, ReadFault>
    requires { length text.now + 1 < 2 ^ 64 }
    ensures value { Gives (λ items. items) cause_in result (spec.items_in year text.now) }
    ensures read { OnOk result (steps.new.bytes_read ≡ steps.old.bytes_read + length text.now) }
    ensures bound { steps.new.bytes_read ≤ steps.old.bytes_read + length text.now }
    ensures others { steps.new ≡ record steps.old { bytes_read = steps.new.bytes_read } }
{
    let pieces = cut_items(alloc, text)?;
    read_items(alloc, text, pieces.as_slice(), year, steps)
}
