//! Pieces of a text behind a change of it.
ghost use Rattle.std.specs.Prelude.{◌≡◌, ◌≤◌, length, map, drop};
ghost use Rattle.std.specs.List.{AllByRecursion};
ghost use Rattle.moved_lines.specs.Moving as spec;

use crate::shift::Offset;
use hl_base::Piece;

/// Moves a piece, in bytes and lines.
pub(crate) fn move_piece(piece: &mut Piece, by: Offset)
    requires { spec.CanMovePiece by piece.old }
    ensures { piece.new ≡ spec.moved_piece by piece.old }
{
    piece.at = by.bytes.moved(piece.at);
    piece.line = by.lines.moved(piece.line);
}

/// Moves some pieces where they stand.
fn move_all(pieces: &mut [Piece], by: Offset)
    requires { AllByRecursion (spec.CanMovePiece by) pieces.old }
    ensures { pieces.new ≡ map (spec.moved_piece by) pieces.old }
{
    for piece in pieces.iter_mut() {
        move_piece(piece, by);
    }
}

/// Moves the pieces of a text from a number on, in bytes and lines, where they stand.
pub fn move_pieces(pieces: &mut [Piece], from: usize, by: Offset)
    requires from { from ≤ length pieces.old }
    requires numbers { AllByRecursion (spec.CanMovePiece by) (drop from pieces.old) }
    ensures { pieces.new ≡ spec.moved_pieces_from from by pieces.old }
{
    let (_, behind) = pieces.split_at_mut(from);
    move_all(behind, by);
}
