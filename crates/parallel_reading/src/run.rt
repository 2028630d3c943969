//! Reads runs of pieces in one context.
ghost use Rattle.std.specs.Prelude.{List, Result};
ghost use Rattle.hl_base.specs.Gives.{Gives};
ghost use Rattle.book.specs.declared.fault.Fault.{Fault};
ghost use Rattle.book.specs.declared.item.Placed as placed;
ghost use Rattle.entry_reader.specs.Causes.{cause_in};
ghost use Rattle.journal_reader.specs.Whole.{AreWithin};
ghost use Rattle.parallel_reading.specs.Runs.{both, read_alike};

use crate::head::bytes_of;
use book::Placed;
use entry_reader::{Context, ReadFault};
use hl_base::Piece;
use journal_reader::read_uncounted;
use std::alloc::Global;

/// What a run of pieces says, in order, or the fault of the first that doesn't read.
pub type Run = Result<Vec<Placed>, ReadFault>;

/// Reads a run of pieces, each in this context.
pub fn read_run(alloc: Global, text: &[u8], pieces: &[Piece], context: &Context) -> Run
    requires { AreWithin text.now pieces.now }
    ensures { Gives (λ v. v.items) cause_in result (read_alike context.now text.now pieces.now) }
{
    let mut items = Vec::with_capacity(alloc, pieces.len())?;
    for piece in pieces {
        let bytes = bytes_of(text, piece);
        let item = read_uncounted(alloc, bytes, context, piece.line)?;
        items.push(Placed {
            piece: *piece,
            item,
        })?;
    }
    Ok(items)
}

/// The items of a run and behind them those of a second one; or the fault of the first that has one. The second vector is let
/// go, or the first where it is empty.
pub fn joined(front: Run, back: Run) -> Run
    ensures { (first second : Result (List placed.Placed) Fault)
        → Gives (λ v. v.items) cause_in front first
        → Gives (λ v. v.items) cause_in back second
        → Gives (λ v. v.items) cause_in result (both first second) }
{
    let mut items = front?;
    if items.is_empty() {
        return back;
    }
    let mut more = back?;
    items.append(&mut more)?;
    Ok(items)
}
