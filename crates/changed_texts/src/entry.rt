//! Whether bytes are one entry.
ghost use Rattle.std.specs.Prelude.{◌≡◌, ◌==◌, ◌&&◌, true, false, count_by, slice_get, IfOk};
ghost use Rattle.std.specs.List.{list_all};
ghost use Rattle.changed_texts.specs.Meeting as gaps;
ghost use Rattle.changed_texts.specs.OneEntry.{HasOneEntry, is_entry_piece};
ghost use Rattle.changed_texts.specs.Replacing as spec;

use hl_base::line::{ends_line, is_indented, line_at};
use hl_base::{Kind, Memory, Piece, cut_items};
use std::alloc::Global;

/// Whether there is a piece, and it is an entry.
fn is_entry_in(piece: Option<Piece>) -> bool
    ensures { result ≡ spec.is_entry_in piece }
{
    match piece {
        Some(piece) => piece.kind.is_entry(),
        None => false,
    }
}

/// The first of some pieces.
fn first_of(pieces: &[Piece]) -> Option<Piece>
    ensures { result ≡ slice_get pieces.now 0 }
{
    pieces.first().copied()
}

/// Whether both hold.
fn both(one: bool, other: bool) -> bool
    ensures { result ≡ (one && other) }
{
    one && other
}

/// Whether pieces are one entry.
fn is_one_entry(pieces: &[Piece]) -> bool
    ensures { result ≡ spec.is_one_entry pieces.now }
{
    both(pieces.len() == 1, is_entry_in(first_of(pieces)))
}

/// Whether bytes are one entry and end with the end of a line. They are cut, and not read.
pub fn is_entry(alloc: Global, bytes: &[u8]) -> Result<bool, Memory>
    ensures one { IfOk result (λ b. b ≡ true → spec.IsEntry bytes.now) }
    ensures other { IfOk result (λ b. b ≡ false → spec.IsEntry bytes.now → ⊥) }
{
    let pieces = cut_items(alloc, bytes)?;
    Ok(both(ends_line(bytes), is_one_entry(pieces.as_slice())))
}

/// Whether a text is empty or ends with the end of a line.
fn is_ended(text: &[u8]) -> bool
    ensures { result ≡ gaps.is_ended text.now }
{
    match text {
        [] => true,
        [.., last] => *last == b'\n',
    }
}

/// Whether a text has a first line, and it is indented.
fn begins_indented(text: &[u8]) -> bool
    ensures { result ≡ gaps.begins_indented text.now }
{
    if text.is_empty() {
        return false;
    }
    let (first, _) = line_at(text, 0);
    is_indented(first)
}

/// Whether a piece is an entry or a gap.
fn is_entry_or_gap(piece: &Piece) -> bool
    ensures { result ≡ gaps.is_entry_or_gap piece.now.kind }
{
    match piece.kind {
        Kind::Entry | Kind::Gap => true,
        Kind::Block | Kind::Head | Kind::Stray => false,
    }
}

/// Whether pieces are entries and gaps alone.
fn are_entries_or_gaps(pieces: &[Piece]) -> bool
    ensures { result ≡ list_all (λ q. gaps.is_entry_or_gap q.kind) pieces.now }
{
    pieces.iter().all(is_entry_or_gap)
}

/// Whether bytes are entries and gaps alone, or nothing, that end with the end of a line and don't begin with an indented
/// one. They are cut, and not read.
pub fn are_entries(alloc: Global, bytes: &[u8]) -> Result<bool, Memory>
    ensures are { IfOk result (λ b. b ≡ true → gaps.AreEntries bytes.now) }
    ensures other { IfOk result (λ b. b ≡ false → gaps.AreEntries bytes.now → ⊥) }
{
    let pieces = cut_items(alloc, bytes)?;
    let ends = both(is_ended(bytes), !begins_indented(bytes));
    Ok(both(ends, are_entries_or_gaps(pieces.as_slice())))
}

/// Whether a piece is an entry.
fn is_entry_piece(piece: &Piece) -> bool
    ensures { result ≡ is_entry_piece piece.now }
{
    piece.kind.is_entry()
}

/// Whether exactly one of some pieces is an entry.
fn has_one(pieces: &[Piece]) -> bool
    ensures { result ≡ (count_by is_entry_piece pieces.now == 1) }
{
    pieces.iter().filter(|piece| is_entry_piece(piece)).count() == 1
}

/// Whether bytes are gaps and exactly one entry, end with the end of a line, and don't begin with an indented one. They are
/// cut, and not read.
pub fn has_one_entry(alloc: Global, bytes: &[u8]) -> Result<bool, Memory>
    ensures one { IfOk result (λ b. b ≡ true → HasOneEntry bytes.now) }
    ensures other { IfOk result (λ b. b ≡ false → HasOneEntry bytes.now → ⊥) }
{
    let pieces = cut_items(alloc, bytes)?;
    let apart = both(is_ended(bytes), !begins_indented(bytes));
    let kinds = both(
        are_entries_or_gaps(pieces.as_slice()),
        has_one(pieces.as_slice()),
    );
    Ok(both(apart, kinds))
}
