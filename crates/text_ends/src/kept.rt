//! What is kept of a text's end.
ghost use Rattle.std.specs.Prelude.{◌≡◌, ℕ, ◌+◌, ◌≤◌, ◌++◌, IfOk, List, Ok, Option, Some, length, true};
ghost use Rattle.std.specs.List.{AllByRecursion, list_any};
ghost use Rattle.hl_base.specs.Gives.{Gives};
ghost use Rattle.hl_base.specs.Items as cut;
ghost use Rattle.hl_base.specs.Lines.{lines_of};
ghost use Rattle.hl_base.specs.Pieces.{IsWithin};
ghost use Rattle.book.specs.declared.item.Placed.{Placed};
ghost use Rattle.entry_reader.specs.Causes.{cause_in};
ghost use Rattle.journal_reader.specs.Items.{items_in};
ghost use Rattle.text_ends.specs.Ends as spec;
ghost use Rattle.text_ends.specs.Going as going;
ghost use Rattle.text_ends.specs.Growth as growth;
ghost use Rattle.text_ends.specs.Told as told;
ghost use Rattle.text_ends.specs.Whole as whole;

use crate::begins::begins_apart;
use crate::growing::{ended_behind, last_behind, lines_behind, unclosed_behind};
use crate::reading::{Grown, put_behind};
use crate::taking::taken;
use book::Placed;
use entry_reader::{Context, ReadFault, context_behind};
use hl_base::ascii::past;
use hl_base::line::{closes_block, count_lines, ends_line, line_at};
use hl_base::{Kind, Memory, Piece, Steps, cut_items};
use std::alloc::Global;
use std::sync::ledger::Ledger;

/// What is kept of a text that reads, so that bytes behind it are read without it: its last piece, whether it ends with LF
/// (`ended`) and whether it leaves a block of comments without its end (`unclosed`), its lines and its bytes, and the context
/// behind its items.
#[derive(Debug, Drop)]
pub struct KeptEnd {
    pub last: Option<Piece>,
    pub ended: bool,
    pub unclosed: bool,
    pub lines: u64,
    pub bytes: u64,
    pub context: Context,
}

impl KeptEnd {
    /// What is kept of a text that begins in a year, with its pieces and its items.
    pub fn of(
        alloc: Global,
        year: Option<u16>,
        text: &[u8],
        pieces: &[Piece],
        items: &[Placed],
    ) -> Result<KeptEnd, Memory>
        requires cut { pieces.now ≡ cut.items_of text.now }
        requires within { AllByRecursion (IsWithin (length text.now)) pieces.now }
        ensures is { IfOk result (λ end. end ≡ spec.end_of year text.now items.now) }
        ensures measured { IfOk result (λ end. whole.IsMeasured end) }
    {
        let context = context_behind(alloc, year, items)?;
        Ok(KeptEnd {
            last: last_of(pieces),
            ended: ends_line(text),
            unclosed: leaves_block(text, pieces),
            lines: count_lines(text),
            bytes: text.len() as u64,
            context,
        })
    }

    /// Whether the bytes may be put behind the text: they begin with the LF that it lacks, and where its last piece is an entry
    /// or a directive, an empty line follows.
    pub fn goes_behind(&self, bytes: &[u8]) -> bool
        ensures { result ≡ growth.goes_behind self.now bytes.now }
    {
        match &self.last {
            Some(piece) => begins_apart(self.ended, bytes, piece),
            None => true,
        }
    }

    /// How many items the bytes add to those of the text behind which they are put, whatever they say.
    pub fn count_behind(&self, alloc: Global, bytes: &[u8]) -> Result<usize, Memory>
        requires { growth.goes_behind self.now bytes.now ≡ true }
        ensures { IfOk result
            (λ count. count ≡ length (cut.items_of (growth.rest_of self.now bytes.now))) }
    {
        let reach = taken(self, bytes);
        let (_, rest) = bytes.split_at(reach.bytes);
        let pieces = cut_items(alloc, rest)?;
        Ok(pieces.len())
    }

    /// What the bytes come to behind the text: how far its last piece goes on in them, and the items behind that; or the fault of
    /// the whole. The last piece takes the LF that the text lacks, and then all remarks if it is a gap, and all through the line
    /// that ends it if it is a block without its end; it says what it said. The bytes have to begin with the LF that the text
    /// lacks, and go on with an empty line where the last piece is an entry or a directive. Nothing is told where a directive
    /// stands in them, before any fault. Only the bytes are read.
    pub fn behind<L: Ledger>(
        &self,
        alloc: Global,
        bytes: &[u8],
        steps: &mut Steps<L>,
    ) -> Result<Option<Grown>, ReadFault>
        requires { growth.MayStand self.now bytes.now }
        ensures value { Gives (λ told. told) cause_in result (told.told_behind self.now bytes.now) }
        // What is told is what they come to.
        ensures so { told.IsSo result (growth.put_behind self.now bytes.now) }
        ensures read { steps.new.bytes_read ≤ steps.old.bytes_read + length bytes.now }
        ensures others { steps.new ≡ record steps.old { bytes_read = steps.new.bytes_read } }
    {
        put_behind(alloc, self, bytes, steps)
    }

    /// Takes in bytes that `behind` told what they come to: from now on this is what is kept of the text with them behind it. Only
    /// the bytes are read, and nothing is allocated.
    pub fn grow(&mut self, bytes: &[u8], grown: &Grown)
        requires { whole.ComesTo self.old bytes.now grown.now }
        ensures value { self.new ≡ whole.end_behind self.old bytes.now grown.now }
        ensures kept { (year : Option ℕ) (text : List ℕ) (items : List Placed)
            → items_in year text ≡ Ok items
            → self.old ≡ spec.end_of year text items
            → self.new ≡ spec.end_of year (text ++ bytes.now) (going.items_behind items grown.now) }
        ensures measured { whole.IsMeasured self.new }
    {
        let items = grown.items.as_slice();
        let last = last_behind(items, grown.taken, self.last);
        let unclosed = unclosed_behind(self, bytes, items);
        let ended = ended_behind(self.ended, bytes);
        let more = count_lines(past(bytes, grown.taken as usize));
        let lines = lines_behind(self.lines, grown.lines, more);
        let size = self.bytes + bytes.len() as u64;
        self.last = last;
        self.ended = ended;
        self.unclosed = unclosed;
        self.lines = lines;
        self.bytes = size;
    }
}

/// The last of some pieces, if there are any.
fn last_of(pieces: &[Piece]) -> Option<Piece>
    ensures { result ≡ spec.last_of pieces.now }
{
    match pieces {
        [] => None,
        [.., last] => Some(*last),
    }
}

/// Whether a line of the text ends a block of comments.
pub(crate) fn has_block_end(text: &[u8]) -> bool
    ensures { result ≡ list_any cut.closes_block (lines_of text.now) }
{
    let mut at = 0;
    while at < text.len() {
        let (line, next) = line_at(text, at);
        if closes_block(line) {
            return true;
        }
        at = next;
    }
    false
}

/// Whether a piece at the end of a text is a block that no line ends.
fn is_unclosed(text: &[u8], piece: &Piece) -> bool
    requires { piece.now.at ≤ length text.now }
    ensures { result ≡ spec.is_unclosed text.now (Some piece.now) }
{
    let (_, rest) = text.split_at(piece.at as usize);
    piece.kind == Kind::Block && !has_block_end(rest)
}

/// Whether a text's last piece is a block that no line ends.
fn leaves_block(text: &[u8], pieces: &[Piece]) -> bool
    requires { AllByRecursion (IsWithin (length text.now)) pieces.now }
    ensures { result ≡ spec.is_unclosed text.now (spec.last_of pieces.now) }
{
    match pieces {
        [] => false,
        [.., last] => is_unclosed(text, last),
    }
}
