//! One line of a text, as the cut into items sees it.
ghost use Rattle.std.specs.Prelude.{◌≡◌, ◌<◌, ◌≤◌, ◌+◌, length, drop, codes, take_while, find, not, ◌==◌};
ghost use Rattle.hl_base.specs.Lines.{first_line, content_length, ends_line, lines_of};
ghost use Rattle.hl_base.specs.Items.{is_white, is_blank, is_remark, is_indented, is_word, begins_entry, closes_block, opens_block, kind_of};

use crate::ascii::{is_digit, is_white};
use crate::items::Kind;
use memchr::memchr;

/// Where the line's content ends, and where the next line begins. A line ends at LF, and a CR directly before the
/// LF or at the end of the text belongs to the line's end.
pub fn next_line(text: &[u8], at: usize) -> (usize, usize)
    requires { at < length text.now }
    ensures content { result.0 ≡ at + content_length (drop at text.now) }
    ensures next { result.1 ≡ at + length (first_line (drop at text.now)) }
    ensures bounds { (result.0 ≤ result.1) × (at < result.1) × (result.1 ≤ length text.now) }
{
    let (_, rest) = text.split_at(at);
    let before = before_end(rest);
    let next = (before + 1).min(rest.len());
    let content = if before > 0 && rest[before - 1] == b'\r' {
        before - 1
    } else {
        before
    };
    (at + content, at + next)
}

/// The line at a place, with its end, and where the next line begins.
pub fn line_at(text: &[u8], at: usize) -> (&[u8], usize)
    requires { at < length text.now }
    ensures line { result.0.now ≡ first_line (drop at text.now) }
    ensures next { result.1 ≡ at + length (first_line (drop at text.now)) }
    ensures bounds { (at < result.1) × (result.1 ≤ length text.now) }
{
    let (_, next) = next_line(text, at);
    let (_, rest) = text.split_at(at);
    let (line, _) = rest.split_at(next - at);
    (line, next)
}

/// How many lines a text has.
pub fn count_lines(text: &[u8]) -> u64
    ensures count { result ≡ length (lines_of text.now) }
    ensures few { result ≤ length text.now }
{
    let mut at = 0;
    let mut lines = 0;
    while at < text.len() {
        let (_, next) = line_at(text, at);
        at = next;
        lines += 1;
    }
    lines
}

/// Whether a text ends with LF.
pub fn ends_line(text: &[u8]) -> bool
    ensures { result ≡ ends_line text.now }
{
    match text {
        [] => false,
        [.., last] => *last == b'\n',
    }
}

/// How many bytes stand before the first LF, or before the end.
#[tactic(auto, using(crate::proofs::FirstEnds::first_end, crate::proofs::FirstEnds::no_end))]
fn before_end(text: &[u8]) -> usize
    ensures count { result ≡ length (take_while (λ b. not (b == 10)) text.now) }
    ensures bound { result ≤ length text.now }
{
    memchr(b'\n', text).unwrap_or(text.len())
}

/// Whether the line holds only white space and its end.
pub fn is_blank(line: &[u8]) -> bool
    ensures { result ≡ is_blank line.now }
{
    line.iter().all(|b| is_white(*b) || *b == b'\n')
}

/// Whether the line begins with white space and isn't blank.
pub fn is_indented(line: &[u8]) -> bool
    ensures { result ≡ is_indented line.now }
{
    match line {
        [] => false,
        [first, rest @ ..] => is_white(*first) && !is_blank(rest),
    }
}

/// Whether the line is blank, or its first character after white space is `;`, `#` or `*`.
pub fn is_remark(line: &[u8]) -> bool
    ensures { result ≡ is_remark line.now }
{
    match first_ink(line) {
        None => true,
        Some(first) => first == b'\n' || first == b';' || first == b'#' || first == b'*',
    }
}

/// The first byte that isn't white space.
fn first_ink(line: &[u8]) -> Option<u8>
    ensures { result ≡ find (λ b. not (is_white b)) line.now }
{
    line.iter().copied().find(|b| !is_white(*b))
}

/// Whether the line is the word but for white space at its end.
fn is_word(word: &[u8], line: &[u8]) -> bool
    ensures { result ≡ is_word word.now line.now }
{
    if !line.starts_with(word) {
        return false;
    }
    let (_, rest) = line.split_at(word.len());
    is_blank(rest)
}

/// Whether the line ends a comment block.
pub fn closes_block(line: &[u8]) -> bool
    ensures { result ≡ closes_block line.now }
{
    is_word(b"end comment", line)
}

/// Whether the line opens a comment block.
fn opens_block(line: &[u8]) -> bool
    ensures { result ≡ opens_block line.now }
{
    is_word(b"comment", line)
}

/// Whether the line begins with a digit.
fn begins_entry(line: &[u8]) -> bool
    ensures { result ≡ begins_entry line.now }
{
    match line {
        [] => false,
        [first, ..] => is_digit(*first),
    }
}

/// What a piece is that begins with the line: the first kind that fits.
pub fn kind_of(line: &[u8]) -> Kind
    ensures { result ≡ kind_of line.now }
{
    if opens_block(line) {
        Kind::Block
    } else if is_remark(line) {
        Kind::Gap
    } else if is_indented(line) {
        Kind::Stray
    } else if begins_entry(line) {
        Kind::Entry
    } else {
        Kind::Head
    }
}
