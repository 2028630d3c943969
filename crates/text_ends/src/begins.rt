//! Whether bytes begin apart from the last piece of a text.
ghost use Rattle.std.specs.Prelude.{◌≡◌, ◌||◌, not, Some, drop};
ghost use Rattle.text_ends.specs.Growth as spec;

use crate::taking::lacked;
use hl_base::ascii::past;
use hl_base::{Kind, Piece};

/// Whether the lines of a piece of the kind after its first one are indented.
fn goes_indented(kind: Kind) -> bool
    ensures { result ≡ spec.goes_indented kind }
{
    match kind {
        Kind::Entry | Kind::Head | Kind::Stray => true,
        Kind::Gap | Kind::Block => false,
    }
}

/// Whether the bytes begin with LF.
fn begins_empty(bytes: &[u8]) -> bool
    ensures { result ≡ spec.begins_empty bytes.now }
{
    match bytes {
        [] => false,
        [first, ..] => *first == b'\n',
    }
}

/// The bytes behind the LF that a text lacks.
pub(crate) fn past_end(ended: bool, bytes: &[u8]) -> &[u8]
    ensures { result.now ≡ drop (spec.lacked ended) bytes.now }
{
    past(bytes, lacked(ended))
}

/// Whether an empty line stands before what could be indented lines of a piece of the kind.
fn begins_free(ended: bool, bytes: &[u8], kind: Kind) -> bool
    ensures { result ≡ (not (spec.goes_indented kind) || spec.begins_empty
        (drop (spec.lacked ended) bytes.now)) }
{
    !goes_indented(kind) || begins_empty(past_end(ended, bytes))
}

/// Whether bytes begin apart from a text's last piece.
pub(crate) fn begins_apart(ended: bool, bytes: &[u8], piece: &Piece) -> bool
    ensures { result ≡ spec.begins_apart ended bytes.now (Some piece.now) }
{
    (ended || begins_empty(bytes)) && begins_free(ended, bytes, piece.kind)
}
