//! What bytes say behind a text of whose end something is kept.
ghost use Rattle.std.specs.Prelude.{◌≡◌, ◌+◌, ◌<◌, ◌≤◌, ◌^◌, length, nat_lt, take, drop, true};
ghost use Rattle.hl_base.specs.Gives.{Gives};
ghost use Rattle.hl_base.specs.Items.{items_of};
ghost use Rattle.hl_base.specs.Limits.{entry_limit, text_limit};
ghost use Rattle.hl_base.specs.Pieces.{bytes_in};
ghost use Rattle.entry_reader.specs.Causes.{cause_in};
ghost use Rattle.entry_reader.specs.Lines.{contents_of};
ghost use Rattle.journal_reader.specs.Items.{reading};
ghost use Rattle.text_ends.specs.Growth as spec;
ghost use Rattle.text_ends.specs.Told as told;

use crate::kept::KeptEnd;
use crate::taking::{Reach, taken};
use book::{Cause, Fault, Item, Items, Placed};
use entry_reader::ReadFault;
use entry_reader::posting::line_ends;
use hl_base::{ENTRY_LIMIT, Kind, List, Piece, Steps, cut_items};
use journal_reader::read_item;
use std::alloc::Global;
use std::sync::ledger::Ledger;

/// What bytes come to that are put behind a text: how many of them, and how many of their lines besides the LF that the text
/// lacks, its last piece takes, and the items behind it, at their places in the whole.
#[derive(Debug, Drop)]
pub struct Grown {
    pub taken: u64,
    pub lines: u64,
    pub items: Items,
}

/// The fault of bytes that aren't UTF-8, in the line of the first of them.
fn utf8_fault(bytes: &[u8], line: u64) -> Option<Fault>
    requires { line + length (contents_of bytes.now) < 2 ^ 64 }
    ensures { result ≡ told.utf8_fault line bytes.now }
{
    match std::str::from_utf8(bytes) {
        Ok(_) => None,
        Err(error) => {
            let (front, _) = bytes.split_at(error.valid_up_to());
            Some(Fault {
                line: line + line_ends(front) as u64,
                cause: Cause::Encoding,
            })
        }
    }
}

/// Whether a piece of the kind has a limit of bytes.
fn is_limited(kind: Kind) -> bool
    ensures { result ≡ spec.is_limited kind }
{
    match kind {
        Kind::Entry | Kind::Head => true,
        Kind::Gap | Kind::Block | Kind::Stray => false,
    }
}

/// Whether so many bytes, and so many more, are too many for an entry or a directive.
fn passes_limit(len: u64, more: usize) -> bool
    ensures { result ≡ nat_lt entry_limit (len + more) }
{
    len.saturating_add(more as u64) > ENTRY_LIMIT as u64
}

/// The fault of a last piece that is too long with so many more bytes.
fn outgrown(more: usize, last: &Option<Piece>) -> Option<Fault>
    ensures { result ≡ spec.outgrown more last.now }
{
    match last {
        Some(piece) => outgrown_by(more, piece),
        None => None,
    }
}

/// The fault of a piece that is too long with so many more bytes.
fn outgrown_by(more: usize, piece: &Piece) -> Option<Fault>
    ensures { result ≡ spec.outgrown more (Some piece.now) }
{
    if is_limited(piece.kind) && passes_limit(piece.len, more) {
        Some(Fault {
            line: piece.line,
            cause: Cause::TooLong,
        })
    } else {
        None
    }
}

/// The line of the first byte behind a text.
fn line_behind(end: &KeptEnd) -> u64
    requires { end.now.lines < 2 ^ 32 }
    ensures { result ≡ spec.line_behind end.now }
{
    if end.ended { end.lines + 1 } else { end.lines }
}

/// The fault of what the last piece takes.
fn growth_fault(end: &KeptEnd, more: &[u8]) -> Option<Fault>
    requires lines { end.now.lines < 2 ^ 32 }
    requires few { length more.now < 2 ^ 32 }
    ensures { result ≡ told.fault_of_growth end.now more.now }
{
    match utf8_fault(more, line_behind(end)) {
        Some(fault) => Some(fault),
        None => outgrown(more.len(), &end.last),
    }
}

/// The bytes of a piece.
fn bytes_of<'a>(bytes: &'a [u8], piece: &Piece) -> &'a [u8]
    requires { piece.now.at + piece.now.len ≤ length bytes.now }
    ensures { result.now ≡ take piece.now.len (drop piece.now.at bytes.now) }
{
    let at = piece.at as usize;
    &bytes[at..at + piece.len as usize]
}

/// Whether an item may change what is read after it.
fn is_directive(item: &Item) -> bool
    ensures { result ≡ told.is_directive item.now }
{
    match item {
        Item::Directive(_) => true,
        Item::Gap
        | Item::Block
        | Item::Txn(_)
        | Item::Auto(_)
        | Item::Periodic(_)
        | Item::Price(_) => false,
    }
}

/// What a piece of the bytes says behind so many lines, or the fault that it has there.
fn said<L: Ledger>(
    alloc: Global,
    end: &KeptEnd,
    lines: u64,
    bytes: &[u8],
    piece: &Piece,
    steps: &mut Steps<L>,
) -> Result<Item, ReadFault>
    requires bytes { piece.now.at + piece.now.len ≤ length bytes.now }
    requires lines { lines + piece.now.line + piece.now.len < 2 ^ 64 }
    ensures value { Gives (λ item. item) cause_in result
        (reading end.now.context (lines + piece.now.line)
        (take piece.now.len (drop piece.now.at bytes.now))) }
    ensures steps { steps.new
        ≡ record steps.old { bytes_read = steps.old.bytes_read + piece.now.len } }
{
    let line = lines + piece.line;
    read_item(alloc, bytes_of(bytes, piece), &end.context, line, steps)
}

/// What pieces of the bytes say behind so many bytes and lines; nothing where one of them is a directive.
fn read_pieces<L: Ledger>(
    alloc: Global,
    end: &KeptEnd,
    place: Reach,
    bytes: &[u8],
    pieces: &[Piece],
    steps: &mut Steps<L>,
) -> Result<Option<Items>, ReadFault>
    requires { told.AreInside place.bytes place.lines bytes.now pieces.now }
    ensures value { Gives (λ items. items) cause_in result
        (told.told_on end.now.context place.bytes place.lines bytes.now pieces.now) }
    ensures bound { steps.new.bytes_read ≤ steps.old.bytes_read + bytes_in pieces.now }
    ensures others { steps.new ≡ record steps.old { bytes_read = steps.new.bytes_read } }
{
    let mut items = Vec::with_capacity(alloc, pieces.len())?;
    for piece in pieces {
        let item = said(alloc, end, place.lines, bytes, piece, steps)?;
        if is_directive(&item) {
            return Ok(None);
        }
        items.push(Placed {
            piece: piece.shifted(place.bytes as u64, place.lines),
            item,
        })?;
    }
    Ok(Some(List::from_vec(items)))
}

/// What the bytes say that stand behind so many bytes and lines of the whole; nothing where a directive stands in them.
fn read_rest<L: Ledger>(
    alloc: Global,
    end: &KeptEnd,
    place: Reach,
    rest: &[u8],
    steps: &mut Steps<L>,
) -> Result<Option<Items>, ReadFault>
    requires few { place.bytes + length rest.now ≤ text_limit }
    requires lines { place.lines ≤ place.bytes }
    ensures value { Gives (λ items. items) cause_in result
        (told.told_on end.now.context place.bytes place.lines rest.now (items_of rest.now)) }
    ensures read { steps.new.bytes_read ≤ steps.old.bytes_read + length rest.now }
    ensures others { steps.new ≡ record steps.old { bytes_read = steps.new.bytes_read } }
{
    let pieces = cut_items(alloc, rest)?;
    read_pieces(alloc, end, place, rest, pieces.as_slice(), steps)
}

/// What the last piece takes, and the items behind it.
fn grown_by(reach: Reach, items: Option<Items>) -> Option<Grown>
    ensures { result ≡ told.grown_by reach items }
{
    match items {
        Some(items) => Some(Grown {
            taken: reach.bytes as u64,
            lines: reach.lines,
            items,
        }),
        None => None,
    }
}

/// What the bytes come to behind a text, of which the last piece takes so many and reads with them.
fn put_rest<L: Ledger>(
    alloc: Global,
    end: &KeptEnd,
    reach: Reach,
    rest: &[u8],
    steps: &mut Steps<L>,
) -> Result<Option<Grown>, ReadFault>
    requires few { end.now.bytes + reach.bytes + length rest.now ≤ text_limit }
    requires lines { end.now.lines ≤ end.now.bytes }
    requires reach { reach.lines ≤ reach.bytes }
    ensures value { Gives (λ grown. grown) cause_in result (told.put_rest end.now reach rest.now) }
    ensures read { steps.new.bytes_read ≤ steps.old.bytes_read + length rest.now }
    ensures others { steps.new ≡ record steps.old { bytes_read = steps.new.bytes_read } }
{
    let place = Reach {
        bytes: end.bytes as usize + reach.bytes,
        lines: end.lines + reach.lines,
    };
    let items = read_rest(alloc, end, place, rest, steps)?;
    Ok(grown_by(reach, items))
}

/// What the bytes come to behind a text, or the fault of the whole; nothing where a directive stands in them.
pub(crate) fn put_behind<L: Ledger>(
    alloc: Global,
    end: &KeptEnd,
    bytes: &[u8],
    steps: &mut Steps<L>,
) -> Result<Option<Grown>, ReadFault>
    requires { spec.MayStand end.now bytes.now }
    ensures value { Gives (λ grown. grown) cause_in result (told.told_behind end.now bytes.now) }
    ensures read { steps.new.bytes_read ≤ steps.old.bytes_read + length bytes.now }
    ensures others { steps.new ≡ record steps.old { bytes_read = steps.new.bytes_read } }
{
    let reach = taken(end, bytes);
    let (more, rest) = bytes.split_at(reach.bytes);
    steps.read_bytes(more.len() as u64);
    match growth_fault(end, more) {
        Some(fault) => Err(ReadFault::Read(fault)),
        None => put_rest(alloc, end, reach, rest, steps),
    }
}
