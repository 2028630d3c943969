//! How far the last piece of a text goes on in what is put behind the text.
ghost use Rattle.std.specs.Prelude.{◌≡◌, ◌+◌, ◌≤◌, length, true};
ghost use Rattle.text_ends.specs.Growth as spec;
ghost use Rattle.text_ends.specs.Told as told;

use crate::kept::KeptEnd;
use hl_base::Kind;
use hl_base::items::piece_end;

/// How many bytes, and how many lines of them besides the LF that a text lacks, its last piece takes.
#[derive(Clone, Copy)]
pub(crate) struct Reach {
    pub bytes: usize,
    pub lines: u64,
}

/// Whether a last piece of the kind takes lines of what is behind the text.
fn joins(kind: Kind, unclosed: bool) -> bool
    ensures { result ≡ spec.joins kind unclosed }
{
    match kind {
        Kind::Gap => true,
        Kind::Block => unclosed,
        Kind::Entry | Kind::Head | Kind::Stray => false,
    }
}

/// The line's end that a text lacks, in bytes.
pub(crate) fn lacked(ended: bool) -> usize
    ensures { result ≡ spec.lacked ended }
{
    if ended { 0 } else { 1 }
}

/// What a piece of the kind takes of the bytes from `start` on, where it is the last one of the text.
fn taken_from(bytes: &[u8], start: usize, kind: Kind, unclosed: bool) -> Reach
    requires { start ≤ length bytes.now }
    ensures value { result ≡ told.taken_from bytes.now start kind unclosed }
    ensures bounds { (start + result.lines ≤ result.bytes) × (result.bytes ≤ length bytes.now) }
{
    if joins(kind, unclosed) {
        let (end, lines) = piece_end(bytes, start, kind);
        Reach { bytes: end, lines }
    } else {
        Reach {
            bytes: start,
            lines: 0,
        }
    }
}

/// What the last piece of a text takes of bytes that are put behind the text.
pub(crate) fn taken(end: &KeptEnd, bytes: &[u8]) -> Reach
    requires { spec.goes_behind end.now bytes.now ≡ true }
    ensures bytes { result.bytes ≡ spec.taken end.now bytes.now }
    ensures lines { result.lines ≡ spec.lines_taken end.now bytes.now }
    ensures bounds { (result.lines ≤ result.bytes) × (result.bytes ≤ length bytes.now) }
{
    match end.last {
        Some(piece) => taken_from(bytes, lacked(end.ended), piece.kind, end.unclosed),
        None => Reach { bytes: 0, lines: 0 },
    }
}
