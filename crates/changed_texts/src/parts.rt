//! The bytes of a piece.
ghost use Rattle.std.specs.Prelude.{◌≡◌, ◌+◌, ◌≤◌, length, take, drop};

use hl_base::Piece;

/// The bytes of a piece.
pub(crate) fn bytes_of<'a>(bytes: &'a [u8], piece: &Piece) -> &'a [u8]
    requires { piece.now.at + piece.now.len ≤ length bytes.now }
    ensures { result.now ≡ take piece.now.len (drop piece.now.at bytes.now) }
{
    let at = piece.at as usize;
    &bytes[at..at + piece.len as usize]
}
