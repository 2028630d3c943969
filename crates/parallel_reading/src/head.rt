//! The pieces that may say how those behind them are read.
ghost use Rattle.std.specs.Prelude.{◌≡◌, ◌+◌, ◌++◌, ◌<◌, ◌≤◌, false, length, drop, slice_index_or};
ghost use Rattle.hl_base.specs.declared.items.Piece as piece;
ghost use Rattle.journal_reader.specs.Whole.{AreWithin};
ghost use Rattle.parallel_reading.specs.Runs as spec;

use entry_reader::scan::begins_digit;
use hl_base::line::{kind_of, line_at};
use hl_base::{Kind, Piece};

/// The bytes of a piece of a text.
pub fn bytes_of<'a>(text: &'a [u8], piece: &Piece) -> &'a [u8]
    requires { piece.now.at + piece.now.len ≤ length text.now }
    ensures { result.now ≡ spec.bytes_of text.now piece.now }
{
    let at = piece.at as usize;
    &text[at..at + piece.len as usize]
}

/// Whether some bytes begin with a directive, a price or a rule. Of an entry only the first byte is looked at.
#[tactic(auto, using(crate::proofs::Digits::no_head))]
fn is_head(bytes: &[u8]) -> bool
    ensures { result ≡ spec.is_head bytes.now }
{
    if bytes.is_empty() {
        return false;
    }
    if begins_digit(bytes) {
        return false;
    }
    let (first, _) = line_at(bytes, 0);
    match kind_of(first) {
        Kind::Head => true,
        Kind::Gap | Kind::Block | Kind::Entry | Kind::Stray => false,
    }
}

/// Whether the piece at a place begins with a directive, a price or a rule.
fn is_head_at(text: &[u8], pieces: &[Piece], at: usize) -> bool
    requires within { AreWithin text.now pieces.now }
    requires inside { at < length pieces.now }
    ensures { (d : piece.Piece)
        → result ≡ spec.is_head (spec.bytes_of text.now (slice_index_or pieces.now at d)) }
{
    is_head(bytes_of(text, &pieces[at]))
}

/// How many pieces there are through the last one that begins with a directive, a price or a rule.
fn heads_end(text: &[u8], pieces: &[Piece]) -> usize
    requires { AreWithin text.now pieces.now }
    ensures bound { result ≤ length pieces.now }
    ensures behind { spec.has_head text.now (drop result pieces.now) ≡ false }
{
    for behind in 0..pieces.len() {
        let end = pieces.len() - behind;
        if is_head_at(text, pieces, end - 1) {
            return end;
        }
    }
    0
}

/// The pieces through the last one that begins with a directive, a price or a rule, and those behind it.
#[tactic(auto, using(crate::proofs::Runs::front_within, crate::proofs::Runs::back_within))]
pub fn cut_behind_heads<'a>(text: &[u8], pieces: &'a [Piece]) -> (&'a [Piece], &'a [Piece])
    requires { AreWithin text.now pieces.now }
    ensures whole { result.0.now ++ result.1.now ≡ pieces.now }
    ensures within { AreWithin text.now result.0.now × AreWithin text.now result.1.now }
    ensures behind { spec.has_head text.now result.1.now ≡ false }
{
    pieces.split_at(heads_end(text, pieces))
}
