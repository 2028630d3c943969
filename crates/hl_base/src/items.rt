//! A text's items: how a journal's text is cut into pieces, by its lines.
ghost use Rattle.std.specs.Prelude.{◌≡◌, ◌<◌, ◌≤◌, ◌+◌, ◌^◌, IfOk, length};
ghost use Rattle.std.specs.List.{AllByRecursion};
ghost use Rattle.hl_base.specs.Items.{items_of};
ghost use Rattle.hl_base.specs.Pieces.{IsWithin, bytes_in, goes_on, closes, lines_left, bytes_left, is_entry, shifted};

use crate::fault::Memory;
use crate::line::{closes_block, is_indented, is_remark, kind_of, line_at};
use crate::list::List;
use std::alloc::Global;

/// What a piece of a text is.
#[derive(Clone, Copy, Debug, PartialEq, Eq)]
pub enum Kind {
    /// Lines that are blank or whose first character after white space is `;`, `#` or `*`.
    Gap,
    /// A line `comment` and all lines through `end comment`, or through the end of the text.
    Block,
    /// A line that begins with a digit, and the indented lines after it.
    Entry,
    /// Any other line, and the indented lines after it.
    Head,
    /// Indented lines that belong to nothing.
    Stray,
}

impl Kind {
    /// Whether a piece of the kind is an entry.
    pub fn is_entry(self) -> bool
        ensures { result ≡ is_entry self }
    {
        match self {
            Kind::Entry => true,
            Kind::Gap | Kind::Block | Kind::Head | Kind::Stray => false,
        }
    }
}

/// One piece of a text: where it begins, in bytes, how many bytes it has, the number of its first line,
/// counted from 1, and what it is.
#[derive(Clone, Copy, Debug, PartialEq, Eq)]
pub struct Piece {
    pub at: u64,
    pub len: u64,
    pub line: u64,
    pub kind: Kind,
}

impl Piece {
    /// The piece, where it stands in what is put behind so many bytes and lines.
    pub fn shifted(&self, at: u64, lines: u64) -> Piece
        requires at { at + self.now.at < 2 ^ 64 }
        requires lines { lines + self.now.line < 2 ^ 64 }
        ensures { result ≡ shifted at lines self.now }
    {
        Piece {
            at: at + self.at,
            len: self.len,
            line: lines + self.line,
            kind: self.kind,
        }
    }
}

/// Cuts a text into its items: from the front, the next piece is the first kind that fits.
pub fn cut_items(alloc: Global, text: &[u8]) -> Result<List<Piece>, Memory>
    ensures cut { IfOk result (λ pieces. pieces ≡ items_of text.now) }
    // Each lies in the text, and its lines are counted below its end.
    ensures within { IfOk result (λ pieces. AllByRecursion (IsWithin (length text.now)) pieces) }
    // They cover the text.
    ensures whole { IfOk result (λ pieces. bytes_in pieces ≡ length text.now) }
{
    let mut pieces = Vec::new(alloc);
    let mut at = 0;
    let mut line = 1;
    while at < text.len() {
        let (first, first_end) = line_at(text, at);
        let kind = kind_of(first);
        let (end, lines) = piece_end(text, first_end, kind);
        pieces.push(Piece {
            at: at as u64,
            len: (end - at) as u64,
            line,
            kind,
        })?;
        at = end;
        line += 1 + lines;
    }
    Ok(List::from_vec(pieces))
}

/// Where a piece ends whose first line ends at `start`, and how many lines it takes after that.
pub fn piece_end(text: &[u8], start: usize, kind: Kind) -> (usize, u64)
    requires { start ≤ length text.now }
    ensures end { result.0 ≡ start + bytes_left kind text.now start }
    ensures lines { result.1 ≡ lines_left kind text.now start }
    ensures bounds { (start + result.1 ≤ result.0) × (result.0 ≤ length text.now) }
{
    let mut end = start;
    let mut lines = 0;
    while end < text.len() {
        let (line, next) = line_at(text, end);
        if !goes_on(kind, line) {
            return (end, lines);
        }
        end = next;
        lines += 1;
        if closes(kind, line) {
            return (end, lines);
        }
    }
    (end, lines)
}

/// Whether a piece of the kind takes the line.
fn goes_on(kind: Kind, line: &[u8]) -> bool
    ensures { result ≡ goes_on kind line.now }
{
    match kind {
        Kind::Gap => is_remark(line),
        Kind::Block => true,
        Kind::Entry | Kind::Head | Kind::Stray => is_indented(line),
    }
}

/// Whether the line is the last of a piece of the kind.
fn closes(kind: Kind, line: &[u8]) -> bool
    ensures { result ≡ closes kind line.now }
{
    match kind {
        Kind::Block => closes_block(line),
        Kind::Gap | Kind::Entry | Kind::Head | Kind::Stray => false,
    }
}
