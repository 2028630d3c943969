//! Puts a changed entry into the items and the pieces of its text.
ghost use Rattle.std.specs.Prelude.{◌≡◌, ◌<◌, suc, length, drop, slice_get, slice_index_or, slice_set, Some};
ghost use Rattle.std.specs.List.{AllByRecursion};
ghost use Rattle.moved_lines.specs.Moving.{CanMovePiece, CanMovePlaced, moved_piece};
ghost use Rattle.changed_texts.specs.Changing.{items_with};
ghost use Rattle.changed_texts.specs.Replacing.{changed_at};

use crate::change::Change;
use book::Placed;
use hl_base::Piece;
use moved_lines::{Offset, move_items, move_pieces};
use std::alloc::Global;
use std::mem::replace;

/// Puts another item in a place, and answers the one that stood there.
pub(crate) fn put_item(items: &mut [Placed], number: usize, placed: Placed) -> Placed
    requires { number < length items.old }
    ensures items { items.new ≡ slice_set items.old number placed }
    ensures old { result ≡ slice_index_or items.old number result }
{
    replace(&mut items[number], placed)
}

/// Puts a changed entry in its place among the items of a text, and moves all behind it where they stand. It takes no
/// memory. The old item is answered: put back with the offset that takes the change back, the items are as they were.
pub fn put_change(alloc: Global, items: &mut [Placed], number: usize, change: Change) -> Placed
    requires number { number < length items.old }
    requires can { AllByRecursion (CanMovePlaced change.by) (drop (suc number) items.old) }
    ensures items { items.new ≡ items_with number items.old change }
    ensures old { slice_get items.old number ≡ Some result }
{
    let Change { placed, by } = change;
    move_items(alloc, items, number + 1, by);
    put_item(items, number, placed)
}

/// Puts the piece of a changed entry in its place among the pieces of a text, and moves all behind it where they stand.
pub fn put_piece(pieces: &mut [Piece], number: usize, piece: Piece, by: Offset)
    requires number { number < length pieces.old }
    requires can { AllByRecursion (CanMovePiece by) (drop (suc number) pieces.old) }
    ensures { pieces.new ≡ changed_at (moved_piece by) number piece pieces.old }
{
    move_pieces(pieces, number + 1, by);
    pieces[number] = piece;
}
