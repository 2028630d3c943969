//! Reads an entry, with gaps around it or none, in the place of another one.
ghost use Rattle.std.specs.Prelude.{◌≡◌, ◌+◌, ◌^◌, ◌<◌, ◌≤◌, ◌++◌, suc, true, false, length, map, take, drop, IfOk, IfErr, IfSome, IfNone, Ok, OnOk, List, Option};
ghost use Rattle.std.specs.List.{AllByRecursion};
ghost use Rattle.std.specs.Option.{option_map, option_to_list};
ghost use Rattle.hl_base.specs.declared.items.Piece.{Piece as Cut};
ghost use Rattle.book.specs.declared.item.Placed.{Placed as Stood};
ghost use Rattle.entry_reader.specs.Causes.{cause_in};
ghost use Rattle.journal_reader.specs.Items.{items_in};
ghost use Rattle.text_ends.specs.Ends.{last_of};
ghost use Rattle.changed_texts.specs.Meeting.{further_on};
ghost use Rattle.changed_texts.specs.OneEntry as spec;
ghost use Rattle.changed_texts.specs.Replacing.{IsEntryOf, is_gap, offset_of, replaced};
ghost use Rattle.changed_texts.specs.Standing.{Replaces};

use crate::change::{Site, item_at, offset_of};
use crate::entries::read_entries;
use book::{Items, Placed};
use entry_reader::ReadFault;
use hl_base::{Kind, Memory, Piece, Steps};
use moved_lines::Offset;
use std::alloc::Global;
use std::sync::ledger::Ledger;

/// Room for all items of a text.
#[derive(Drop)]
pub struct Room {
    pub(crate) items: Vec<Placed>,
}

/// What becomes of the items of a text when an entry, with a gap before and behind it or none, stands in the place of one:
/// these items at their places, how far all behind them moves, and room for all items, where they are more than before.
#[derive(Drop)]
pub struct Met {
    pub before: Option<Placed>,
    pub placed: Placed,
    pub behind: Option<Placed>,
    pub by: Offset,
    pub(crate) room: Option<Room>,
}

/// An entry, with the gap before it and the one behind it, where there are any.
pub(crate) struct Parts {
    pub before: Option<Placed>,
    pub placed: Placed,
    pub behind: Option<Placed>,
}

/// Whether an item is a gap.
fn is_gap_item(placed: &Placed) -> bool
    ensures { result ≡ is_gap placed.now.piece.kind }
{
    match placed.piece.kind {
        Kind::Gap => true,
        Kind::Block | Kind::Entry | Kind::Head | Kind::Stray => false,
    }
}

/// Whether the first of some items is a gap.
pub fn begins_gap(items: &[Placed]) -> bool
    ensures { result ≡ spec.is_gap_item (spec.first_of items.now) }
{
    match items {
        [] => false,
        [first, ..] => is_gap_item(first),
    }
}

/// Whether the last of some items is a gap.
pub fn ends_gap(items: &[Placed]) -> bool
    ensures { result ≡ spec.is_gap_item (last_of items.now) }
{
    match items {
        [] => false,
        [.., last] => is_gap_item(last),
    }
}

/// Takes out the first of some items, if it is a gap.
fn front_gap(items: &mut Vec<Placed>) -> Option<Placed>
    ensures items { option_to_list result ++ items.new.items ≡ items.old.items }
    ensures gap { IfSome result (λ g. is_gap g.piece.kind ≡ true) }
    ensures none { IfNone result (spec.is_gap_item (spec.first_of items.new.items) ≡ false) }
{
    if begins_gap(items.as_slice()) {
        Some(items.remove(0))
    } else {
        None
    }
}

/// The entry among some items, and the gaps around it.
fn parts_of(items: Items) -> Parts
    requires { spec.HaveEntry items }
    ensures { spec.AreAround items result.before result.placed result.behind }
{
    let mut rest = items.into_vec();
    let before = front_gap(&mut rest);
    let placed = rest.remove(0);
    let behind = rest.pop();
    Parts {
        before,
        placed,
        behind,
    }
}

/// An item so many bytes further on.
fn further(at: u64, placed: Placed) -> Placed
    requires { at + placed.piece.at < 2 ^ 64 }
    ensures { result ≡ further_on at placed }
{
    let piece = Piece {
        at: at + placed.piece.at,
        len: placed.piece.len,
        line: placed.piece.line,
        kind: placed.piece.kind,
    };
    Placed {
        piece,
        item: placed.item,
    }
}

/// The same of a gap, if there is one.
fn further_gap(at: u64, gap: Option<Placed>) -> Option<Placed>
    requires { IfSome gap (λ g. at + g.piece.at < 2 ^ 64) }
    ensures { result ≡ option_map (further_on at) gap }
{
    match gap {
        Some(placed) => Some(further(at, placed)),
        None => None,
    }
}

/// How many more items a gap makes beside another item, which is a gap or not.
fn more_beside(gap: &Option<Placed>, joins: bool) -> usize
    ensures { (other : Option Stood) → spec.is_gap_item other ≡ joins
        → result ≡ length (spec.beside gap.now other) }
{
    match gap {
        Some(_) => { if joins { 0 } else { 1 } }
        None => 0,
    }
}

/// How many more items a text has with gaps beside the items before and behind one.
fn more_around(
    items: &[Placed],
    number: usize,
    before: &Option<Placed>,
    behind: &Option<Placed>,
) -> usize
    requires { number < length items.now }
    ensures { result ≡ length (spec.beside before.now (last_of (take number items.now)))
        + length (spec.beside behind.now (spec.first_of (drop (suc number) items.now))) }
{
    let (front, _) = items.split_at(number);
    let (_, rest) = items.split_at(number + 1);
    let ahead = more_beside(before, ends_gap(front));
    let after = more_beside(behind, begins_gap(rest));
    ahead + after
}

/// How many more items a text has with an entry, and gaps around it or none, in the place of one.
pub fn more_items(items: &[Placed], number: usize, met: &Met) -> usize
    requires { number < length items.now }
    ensures { result ≡ spec.more_items number items.now met.now }
{
    more_around(items, number, &met.before, &met.behind)
}

/// Room for so many items and so many more, unless there are no more.
fn room_for(alloc: Global, count: usize, more: usize) -> Result<Option<Room>, Memory>
    ensures { IfOk result (spec.HasRoom count more) }
{
    if more == 0 {
        return Ok(None);
    }
    match count.checked_add(more) {
        Some(all) => Ok(Some(Room {
            items: Vec::with_capacity(alloc, all)?,
        })),
        None => Err(Memory),
    }
}

/// What becomes of a text's items when bytes, which say this, stand in the place of an entry's piece.
fn met_of(alloc: Global, site: &Site, old: &Piece, bytes: &[u8], said: Items) -> Result<Met, Memory>
    requires number { site.now.number < length site.now.items.now }
    requires old { old.now.at + old.now.len ≤ length site.now.text.now }
    requires said { spec.HaveEntry said }
    requires places { AllByRecursion (λ q. old.now.at + q.piece.at < 2 ^ 64) said }
    ensures around { IfOk result (λ met. spec.AreAround (map (further_on old.now.at) said)
        met.before met.placed met.behind) }
    ensures by { IfOk result (λ met. met.by ≡ offset_of site.now.text.now old.now bytes.now) }
    ensures room { IfOk result (λ met. spec.HasRoom (length site.now.items.now)
        (spec.more_items site.now.number site.now.items.now met) met.room) }
{
    let by = offset_of(site.text, old, bytes);
    let Parts {
        before,
        placed,
        behind,
    } = parts_of(said);
    let ahead = further_gap(old.at, before);
    let entry = further(old.at, placed);
    let after = further_gap(old.at, behind);
    let more = more_around(site.items, site.number, &ahead, &after);
    let room = room_for(alloc, site.items.len(), more)?;
    Ok(Met {
        before: ahead,
        placed: entry,
        behind: after,
        by,
        room,
    })
}

/// What becomes of a text's items when other bytes, which are one entry with gaps around it or none, stand in the place of an
/// entry: with the answer put in they are what the new text reads as. If there is a fault, the new text has one. Only these
/// bytes are read. Where a gap stands beside a gap of the text they are one; where it doesn't, the text has more items, and
/// room for all of them is taken.
pub fn read_met<L: Ledger>(
    alloc: Global,
    site: &Site,
    bytes: &[u8],
    steps: &mut Steps<L>,
) -> Result<Met, ReadFault>
    requires number { site.now.number < length site.now.items.now }
    requires items { items_in site.now.year site.now.text.now ≡ Ok site.now.items.now }
    requires entry { spec.HasOneEntry bytes.now }
    requires few { length site.now.text.now + length bytes.now + 1 < 2 ^ 64 }
    ensures replaces { (p : Cut) → IsEntryOf site.now.text.now site.now.number p
        → IfOk result (λ met.
        Replaces site.now.year site.now.text.now site.now.items.now site.now.number p bytes.now
        (spec.items_met site.now.number site.now.items.now met)) }
    ensures by { (p : Cut) → IsEntryOf site.now.text.now site.now.number p
        → IfOk result (λ met. met.by ≡ offset_of site.now.text.now p bytes.now) }
    ensures met { IfOk result (spec.IsMet site.now.number site.now.items.now) }
    ensures fault { (p : Cut) → IsEntryOf site.now.text.now site.now.number p
        → IfErr result (λ e. IfSome (cause_in e) (λ fault. (after : List Stood)
        → items_in site.now.year (replaced site.now.text.now p bytes.now) ≡ Ok after → ⊥)) }
    ensures read { OnOk result (steps.new.bytes_read ≡ steps.old.bytes_read + length bytes.now) }
    ensures bound { steps.new.bytes_read ≤ steps.old.bytes_read + length bytes.now }
    ensures others { steps.new ≡ record steps.old { bytes_read = steps.new.bytes_read } }
{
    let (before, _) = site.items.split_at(site.number);
    let old = item_at(site.items, site.number);
    let lines = old.piece.line.saturating_sub(1);
    let said = read_entries(alloc, site.year, before, lines, bytes, steps)?;
    let met = met_of(alloc, site, &old.piece, bytes, said)?;
    Ok(met)
}
