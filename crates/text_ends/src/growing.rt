//! What is kept of a text's end once bytes stand behind it.
ghost use Rattle.std.specs.Prelude.{◌≡◌, ◌+◌, ◌-◌, ◌<◌, ◌≤◌, ◌^◌, IfSome, None};
ghost use Rattle.text_ends.specs.Ends as ends;
ghost use Rattle.text_ends.specs.Going as going;
ghost use Rattle.text_ends.specs.Whole as spec;

use crate::begins::past_end;
use crate::kept::{KeptEnd, has_block_end};
use book::Placed;
use hl_base::ascii::past;
use hl_base::line::ends_line;
use hl_base::{Kind, Piece};

/// A piece with so many more bytes.
fn longer(more: u64, piece: Piece) -> Piece
    requires { piece.len + more < 2 ^ 64 }
    ensures { result ≡ going.longer more piece }
{
    Piece {
        at: piece.at,
        len: piece.len + more,
        line: piece.line,
        kind: piece.kind,
    }
}

/// A text's last piece with so many more bytes.
fn longer_last(more: u64, last: Option<Piece>) -> Option<Piece>
    requires { IfSome last (λ p. p.len + more < 2 ^ 64) }
    ensures { result ≡ spec.last_behind None more last }
{
    match last {
        Some(piece) => Some(longer(more, piece)),
        None => None,
    }
}

/// The last piece of the whole: that of the last item behind the text, or else the text's own with so many more bytes.
pub(crate) fn last_behind(items: &[Placed], more: u64, last: Option<Piece>) -> Option<Piece>
    requires { IfSome last (λ p. p.len + more < 2 ^ 64) }
    ensures { result ≡ spec.last_behind (ends.last_of items.now) more last }
{
    match items {
        [] => longer_last(more, last),
        [.., placed] => Some(placed.piece),
    }
}

/// Whether the whole ends with LF.
pub(crate) fn ended_behind(ended: bool, bytes: &[u8]) -> bool
    ensures { result ≡ spec.ended_behind ended bytes.now }
{
    if bytes.is_empty() {
        ended
    } else {
        ends_line(bytes)
    }
}

/// Whether a piece of the kind at the byte is a block that no line from there on ends.
fn is_open(text: &[u8], at: usize, kind: Kind) -> bool
    ensures { result ≡ spec.is_open text.now at kind }
{
    kind == Kind::Block && !has_block_end(past(text, at))
}

/// The same of a piece behind a text of so many bytes.
fn is_open_behind(before: u64, bytes: &[u8], piece: Piece) -> bool
    requires { before ≤ piece.at }
    ensures { result ≡ spec.is_open bytes.now (piece.at - before) piece.kind }
{
    is_open(bytes, (piece.at - before) as usize, piece.kind)
}

/// Whether the last piece of the whole is a block without its end.
pub(crate) fn unclosed_behind(end: &KeptEnd, bytes: &[u8], items: &[Placed]) -> bool
    requires { IfSome (ends.last_of items.now) (λ placed. end.now.bytes ≤ placed.piece.at) }
    ensures { result ≡ spec.unclosed_behind end.now bytes.now (ends.last_of items.now) }
{
    match items {
        [] => end.unclosed && !has_block_end(past_end(end.ended, bytes)),
        [.., placed] => is_open_behind(end.bytes, bytes, placed.piece),
    }
}

/// The lines of the whole.
pub(crate) fn lines_behind(lines: u64, taken: u64, more: u64) -> u64
    requires { lines + taken + more < 2 ^ 64 }
    ensures { result ≡ lines + taken + more }
{
    lines + taken + more
}
