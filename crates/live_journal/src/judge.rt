//! The tests by which an edit is refused before its text is made.
ghost use Rattle.std.specs.Prelude.{◌≡◌, ◌∷◌, [], ◌||◌, not, IfOk};
ghost use Rattle.std.specs.List.{list_any, find};
ghost use Rattle.hl_base.specs.Items.{items_of};
ghost use Rattle.live_journal.specs.Loading.{first_of};
ghost use Rattle.live_journal.specs.Refusals as spec;
ghost use Rattle.loaded_texts.specs.Keeping.{pieces_at};

use crate::applied::numbered;
use crate::edit::Edit;
use crate::fault::EditFault;
use book::Placed;
use hl_base::{Kind, Piece, cut_items};
use std::alloc::Global;

/// The revision from which an edit was made, where it says one.
fn base_of(edit: &Edit) -> Option<u64>
    ensures { result ≡ spec.base_of edit.now }
{
    match edit {
        Edit::Add { entry: _ } => None,
        Edit::Change { base, .. } => Some(*base),
        Edit::Replace { base, .. } => Some(*base),
    }
}

/// Refuses an edit whose base isn't the revision.
pub(crate) fn judge_base(current: u64, edit: &Edit) -> Result<(), EditFault>
    ensures { spec.Judges result (first_of (spec.bad_base current (spec.base_of edit.now)
        ∷ spec.stale current (spec.base_of edit.now) ∷ [])) }
{
    match base_of(edit) {
        None => Ok(()),
        Some(base) => {
            if base > current {
                Err(EditFault::BadBase { base, current })
            } else if base < current {
                Err(EditFault::Stale { base, current })
            } else {
                Ok(())
            }
        }
    }
}

/// Refuses an edit of an item that isn't there.
pub(crate) fn judge_item(items: &[Placed], edit: &Edit) -> Result<(), EditFault>
    ensures { spec.Judges result (spec.no_such_item (pieces_at items.now) edit.now) }
{
    let Edit::Change { item, .. } = edit else {
        return Ok(());
    };
    match numbered(items, *item) {
        Some(_) => Ok(()),
        None => Err(EditFault::NoSuchItem {
            n: *item,
            count: items.len() as u64,
        }),
    }
}

/// Whether a piece is neither an entry nor a gap.
fn is_other(kind: Kind) -> bool
    ensures { result ≡ not (spec.is_entry kind || spec.is_gap kind) }
{
    match kind {
        Kind::Entry | Kind::Gap => false,
        Kind::Block | Kind::Head | Kind::Stray => true,
    }
}

/// The first piece that is neither an entry nor a gap.
fn first_other(pieces: &[Piece]) -> Option<Piece>
    ensures { result ≡ find (λ p. not (spec.is_entry p.kind || spec.is_gap p.kind)) pieces.now }
{
    pieces.iter().copied().find(|piece| is_other(piece.kind))
}

/// Refuses an entry with a piece that is neither an entry nor a gap.
fn judge_pieces(pieces: &[Piece]) -> Result<(), EditFault>
    ensures { spec.Judges result (spec.other_piece pieces.now) }
{
    match first_other(pieces) {
        None => Ok(()),
        Some(piece) => Err(EditFault::NotTransactions { line: piece.line }),
    }
}

/// Whether there is an entry.
fn has_entry(pieces: &[Piece]) -> bool
    ensures { result ≡ list_any (λ p. spec.is_entry p.kind) pieces.now }
{
    pieces.iter().any(|piece| piece.kind.is_entry())
}

/// Refuses an entry without a transaction.
fn judge_some(pieces: &[Piece]) -> Result<(), EditFault>
    ensures { spec.Judges result (spec.no_entry pieces.now) }
{
    if has_entry(pieces) {
        Ok(())
    } else {
        Err(EditFault::NotTransactions { line: 1 })
    }
}

/// Refuses the change of an item that is no entry.
fn judge_named(piece: Option<Piece>) -> Result<(), EditFault>
    ensures { spec.Judges result (spec.not_an_entry piece) }
{
    match piece {
        None => Ok(()),
        Some(piece) => {
            if piece.kind.is_entry() {
                Ok(())
            } else {
                Err(EditFault::NotTransactions { line: 0 })
            }
        }
    }
}

/// Refuses an edit that isn't one of transactions.
pub(crate) fn judge_entry(alloc: Global, items: &[Placed], edit: &Edit) -> Result<(), EditFault>
    ensures { spec.Judges result (spec.not_transactions (pieces_at items.now) edit.now) }
{
    match edit {
        Edit::Add { entry } => {
            let put = cut_items(alloc, entry.as_slice())?;
            judge_pieces(put.as_slice())?;
            judge_some(put.as_slice())
        }
        Edit::Change {
            base: _,
            item,
            entry,
        } => {
            judge_named(numbered(items, *item))?;
            let put = cut_items(alloc, entry.as_slice())?;
            judge_pieces(put.as_slice())
        }
        Edit::Replace { base: _, text: _ } => Ok(()),
    }
}
