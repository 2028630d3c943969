//! Puts an entry, with gaps around it or none, in the place of another one.
ghost use Rattle.std.specs.Prelude.{◌≡◌, ◌+◌, ◌^◌, ◌<◌, ◌≤◌, ◌∷◌, ◌++◌, [], suc, true, false, length, take, drop, IfNone, IfSome, Some, List, slice_index_or, slice_set, vec_capacity};
ghost use Rattle.std.specs.List.{AllByRecursion};
ghost use Rattle.std.specs.Option.{option_to_list};
ghost use Rattle.book.specs.declared.item.Placed.{Placed as Stood};
ghost use Rattle.moved_lines.specs.Moving.{CanMovePlaced};
ghost use Rattle.text_ends.specs.Ends.{last_of};
ghost use Rattle.changed_texts.specs.Meeting.{meeting_items};
ghost use Rattle.changed_texts.specs.OneEntry as spec;
ghost use Rattle.changed_texts.specs.Replacing.{is_entry_kind, is_gap};

use crate::change::Change;
use crate::met::{Met, Parts, Room, begins_gap, ends_gap};
use crate::putting::{put_change, put_item};
use book::{Items, Placed};
use hl_base::List;
use moved_lines::Offset;
use std::alloc::Global;
use std::mem::replace;

/// Makes an item's piece longer by so many bytes.
fn make_longer(placed: &mut Placed, more: u64)
    requires { placed.old.piece.len + more < 2 ^ 64 }
    ensures { placed.new ≡ spec.longer_item more placed.old }
{
    placed.piece.len += more;
}

/// An item whose piece is longer by so many bytes.
fn made_longer(placed: Placed, more: u64) -> Placed
    requires { placed.piece.len + more < 2 ^ 64 }
    ensures { result ≡ spec.longer_item more placed }
{
    let mut longer = placed;
    make_longer(&mut longer, more);
    longer
}

/// Makes the piece of the item under a number longer by so many bytes.
fn lengthen(items: &mut [Placed], number: usize, more: u64)
    requires number { number < length items.old }
    requires fits { (d : Stood) → (slice_index_or items.old number d).piece.len + more < 2 ^ 64 }
    ensures { (d : Stood) → items.new
        ≡ slice_set items.old number (spec.longer_item more (slice_index_or items.old number d)) }
{
    make_longer(&mut items[number], more);
}

/// The length of the piece of the item under a number.
fn len_at(items: &[Placed], number: usize) -> u64
    requires { number < length items.now }
    ensures { (d : Stood) → result ≡ (slice_index_or items.now number d).piece.len }
{
    items[number].piece.len
}

/// Whether a gap stands before the item of a number.
fn is_behind_gap(items: &[Placed], number: usize) -> bool
    requires { number ≤ length items.now }
    ensures { result ≡ spec.is_gap_item (last_of (take number items.now)) }
{
    let (front, _) = items.split_at(number);
    ends_gap(front)
}

/// Whether a gap stands under a number.
fn is_gap_at(items: &[Placed], number: usize) -> bool
    requires { number ≤ length items.now }
    ensures { result ≡ spec.is_gap_item (spec.first_of (drop number items.now)) }
{
    let (_, rest) = items.split_at(number);
    begins_gap(rest)
}

/// Lets a gap go into the gap before the item of a number, if there is one there; else it is given back.
fn join_behind(items: &mut [Placed], number: usize, gap: Placed) -> Option<Placed>
    requires number { number ≤ length items.old }
    requires gap { is_gap gap.piece.kind ≡ true }
    requires fits { IfSome (last_of (take number items.old)) (spec.CanJoin gap) }
    ensures rest { drop number items.new ≡ drop number items.old }
    ensures joined { (more : List Stood) → meeting_items (take number items.old) (gap ∷ more)
        ≡ take number items.new ++ (option_to_list result ++ more) }
    ensures left { option_to_list result
        ≡ spec.beside (Some gap) (last_of (take number items.old)) }
    ensures length { length items.new ≡ length items.old }
{
    if is_behind_gap(items, number) {
        lengthen(items, number - 1, gap.piece.len);
        None
    } else {
        Some(gap)
    }
}

/// Lets the gap under a number, if there is one there, go into a gap before it; else that is given back.
fn join_before(items: &mut [Placed], number: usize, gap: Placed) -> Option<Placed>
    requires number { number ≤ length items.old }
    requires gap { is_gap gap.piece.kind ≡ true }
    requires fits { IfSome (spec.first_of (drop number items.old)) (spec.CanJoin gap) }
    ensures front { take number items.new ≡ take number items.old }
    ensures joined { meeting_items (gap ∷ []) (drop number items.old)
        ≡ option_to_list result ++ drop number items.new }
    ensures left { option_to_list result
        ≡ spec.beside (Some gap) (spec.first_of (drop number items.old)) }
    ensures length { length items.new ≡ length items.old }
{
    if is_gap_at(items, number) {
        let more = len_at(items, number);
        let _old = put_item(items, number, made_longer(gap, more));
        None
    } else {
        Some(gap)
    }
}

/// Lets a gap, if there is one, go into the gap before the item of a number, if there is one there; else it is given back.
fn joined_behind(items: &mut [Placed], number: usize, gap: Option<Placed>) -> Option<Placed>
    requires number { number ≤ length items.old }
    requires gap { spec.IsGapBeside gap (last_of (take number items.old)) }
    ensures rest { drop number items.new ≡ drop number items.old }
    ensures joined { (more : List Stood) → spec.is_gap_item (spec.first_of more) ≡ false
        → meeting_items (take number items.old) (option_to_list gap ++ more)
        ≡ take number items.new ++ (option_to_list result ++ more) }
    ensures left { option_to_list result ≡ spec.beside gap (last_of (take number items.old)) }
    ensures length { length items.new ≡ length items.old }
{
    match gap {
        Some(gap) => join_behind(items, number, gap),
        None => None,
    }
}

/// Lets the gap under a number, if there is one there, go into a gap before it, if there is one; else that is given back.
fn joined_before(items: &mut [Placed], number: usize, gap: Option<Placed>) -> Option<Placed>
    requires number { number ≤ length items.old }
    requires gap { spec.IsGapBeside gap (spec.first_of (drop number items.old)) }
    ensures front { take number items.new ≡ take number items.old }
    ensures joined { meeting_items (option_to_list gap) (drop number items.old)
        ≡ option_to_list result ++ drop number items.new }
    ensures left { option_to_list result ≡ spec.beside gap (spec.first_of (drop number items.old)) }
    ensures length { length items.new ≡ length items.old }
{
    match gap {
        Some(gap) => join_before(items, number, gap),
        None => None,
    }
}

/// Puts an item, if there is one, before that of a number. There is room for it.
fn insert_at(items: &mut Vec<Placed>, number: usize, placed: Option<Placed>)
    requires number { number ≤ length items.old.items }
    requires room { IfSome placed (λ _. length items.old.items < vec_capacity items.old) }
    ensures items { items.new.items
        ≡ take number items.old.items ++ (option_to_list placed ++ drop number items.old.items) }
    ensures capacity { vec_capacity items.old ≤ vec_capacity items.new }
{
    match placed {
        Some(placed) => insert_one(items, number, placed),
        None => {}
    }
}

/// Puts an item before that of a number. There is room for it.
fn insert_one(items: &mut Vec<Placed>, number: usize, placed: Placed)
    requires number { number ≤ length items.old.items }
    requires room { length items.old.items < vec_capacity items.old }
    ensures items { items.new.items
        ≡ take number items.old.items ++ placed ∷ drop number items.old.items }
    ensures capacity { vec_capacity items.old ≤ vec_capacity items.new }
{
    let _inserted = items.insert(number, placed).is_ok();
}

/// The items of a vector, in the room that is given, if there is some.
fn in_room(items: Vec<Placed>, room: Option<Room>) -> Vec<Placed>
    requires { IfSome room (spec.IsRoomFor (length items.items)) }
    ensures items { result.items ≡ items.items }
    ensures room { IfSome room (λ r. vec_capacity r.items ≤ vec_capacity result) }
{
    match room {
        Some(room) => moved_into(room, items),
        None => items,
    }
}

/// The items of a vector, in the room that is given.
fn moved_into(room: Room, items: Vec<Placed>) -> Vec<Placed>
    requires { spec.IsRoomFor (length items.items) room }
    ensures items { result.items ≡ items.items }
    ensures room { vec_capacity room.items ≤ vec_capacity result }
{
    let mut all = room.items;
    let mut rest = items;
    let _moved = all.append(&mut rest).is_ok();
    all
}

/// Items of a text with an entry in its place among them, and the gaps before and behind it that are to stand by themselves.
struct Spread {
    items: Vec<Placed>,
    ahead: Option<Placed>,
    after: Option<Placed>,
}

/// The gaps before and behind an entry that are to stand by themselves.
struct Gaps {
    ahead: Option<Placed>,
    after: Option<Placed>,
}

/// Puts an entry in its place among the items of a text, moves all behind it where they stand, and lets the gaps around it go
/// into those of the text beside it; those that can't are given back.
fn put_entry(alloc: Global, items: &mut [Placed], number: usize, parts: Parts, by: Offset) -> Gaps
    requires number { number < length items.old }
    requires can { AllByRecursion (CanMovePlaced by) (drop (suc number) items.old) }
    requires before { spec.IsGapBeside parts.before (last_of (take number items.old)) }
    requires behind { spec.IsGapBeside parts.behind (spec.first_of (drop (suc number) items.old)) }
    requires entry { is_entry_kind parts.placed.piece.kind ≡ true }
    ensures { spec.IsSpread number items.old by parts.before parts.placed parts.behind items.new
        result.ahead result.after }
{
    let Parts {
        before,
        placed,
        behind,
    } = parts;
    let _old = put_change(alloc, items, number, Change { placed, by });
    let after = joined_before(items, number + 1, behind);
    let ahead = joined_behind(items, number, before);
    Gaps { ahead, after }
}

/// The items of a text with an entry in its place among them.
fn spread_items(alloc: Global, items: Items, number: usize, parts: Parts, by: Offset) -> Spread
    requires number { number < length items }
    requires can { AllByRecursion (CanMovePlaced by) (drop (suc number) items) }
    requires before { spec.IsGapBeside parts.before (last_of (take number items)) }
    requires behind { spec.IsGapBeside parts.behind (spec.first_of (drop (suc number) items)) }
    requires entry { is_entry_kind parts.placed.piece.kind ≡ true }
    ensures { spec.IsSpread number items by parts.before parts.placed parts.behind
        result.items.items
        result.ahead result.after }
{
    let mut all = items.into_vec();
    let Gaps { ahead, after } = put_entry(alloc, &mut all, number, parts, by);
    Spread {
        items: all,
        ahead,
        after,
    }
}

/// Puts an entry, with gaps around it or none, in the place of one among the items of a text, and moves all behind it. Where the
/// items stay as many, they stay where they are; where they are more, all of them go into the room that was taken for them. It
/// takes no memory and reads nothing.
pub fn put_met(alloc: Global, items: &mut Items, number: usize, met: Met)
    requires number { number < length items.old }
    requires can { AllByRecursion (CanMovePlaced met.by) (drop (suc number) items.old) }
    requires met { spec.IsMet number items.old met }
    ensures { items.new ≡ spec.items_met number items.old met }
{
    let Met {
        before,
        placed,
        behind,
        by,
        room,
    } = met;
    let parts = Parts {
        before,
        placed,
        behind,
    };
    let old = replace(items, List::new(alloc));
    let Spread {
        items: put,
        ahead,
        after,
    } = spread_items(alloc, old, number, parts, by);
    let mut all = in_room(put, room);
    insert_at(&mut all, number + 1, after);
    insert_at(&mut all, number, ahead);
    *items = List::from_vec(all);
}
