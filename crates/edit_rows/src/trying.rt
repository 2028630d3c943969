//! An edit that is tried: it is taken where the text that it makes opens, and else refused by the same fault; and when it is taken the
//! journal is what the text opens as.
use crate::alike::{are_same, are_same_faults};
use crate::dice::push;
use book::{Fault, Item};
use hl_base::{Kind, Steps};
use live_journal::{Edit, EditFault, Live, OpenFault};
use std::alloc::Global;
use std::sync::ledger::Ledger;
use std::test::Fail;

/// A text in which some bytes at a place are replaced.
pub(crate) fn spliced(
    alloc: Global,
    text: &[u8],
    at: usize,
    removed: usize,
    inserted: &[u8],
) -> Result<Vec<u8>, Fail> {
    if at > text.len() {
        return Err(Fail::new("a place in the text"));
    }
    let (front, rest) = text.split_at(at);
    if removed > rest.len() {
        return Err(Fail::new("bytes of the text"));
    }
    let (_, back) = rest.split_at(removed);
    let mut new = Vec::new(alloc);
    push(&mut new, front)?;
    push(&mut new, inserted)?;
    push(&mut new, back)?;
    Ok(new)
}

/// Puts the line's end behind a text that lacks it.
pub(crate) fn push_line_end(text: &mut Vec<u8>) -> Result<(), Fail> {
    if text.len() > 0 && !text.ends_with(b"\n") {
        push(text, b"\n")?;
    }
    Ok(())
}

/// Whether a journal ends with a block that no line ends.
fn ends_in_block(live: &Live) -> bool {
    match live.items().as_slice().last() {
        Some(placed) => {
            placed.piece.kind == Kind::Block && !live.text().ends_with(b"end comment\n")
        }
        None => false,
    }
}

/// The text of a journal with an entry behind it.
pub(crate) fn added(alloc: Global, live: &Live, entry: &[u8]) -> Result<Vec<u8>, Fail> {
    let mut text = Vec::new(alloc);
    push(&mut text, live.text())?;
    push_line_end(&mut text)?;
    if ends_in_block(live) {
        push(&mut text, b"end comment\n")?;
    }
    if text.len() > 0 {
        push(&mut text, b"\n")?;
    }
    push(&mut text, entry)?;
    push_line_end(&mut text)?;
    Ok(text)
}

/// Tries an edit that makes a text: it is taken where that opens, and else refused by the same fault.
pub(crate) fn try_edit<L: Ledger>(
    alloc: Global,
    live: &mut Live,
    edit: &Edit,
    after: &[u8],
    steps: &mut Steps<L>,
) -> Result<(), Fail> {
    match Live::open(alloc, after, None, 0, steps) {
        Ok(opened) => {
            put(live, edit, steps)?;
            are_same(alloc, live, &opened)
        }
        Err(OpenFault::Load(fault)) => is_refused(alloc, live, edit, &fault, steps),
        Err(_) => Err(Fail::new("within the limits")),
    }
}

/// Puts in an edit that has to be taken.
fn put<L: Ledger>(live: &mut Live, edit: &Edit, steps: &mut Steps<L>) -> Result<(), Fail> {
    match live.prepare(edit, steps) {
        Ok(plan) => {
            if live.revision() > 1000 {
                return Err(Fail::new("few edits"));
            }
            live.put(plan);
            Ok(())
        }
        Err(_) => Err(Fail::new("an edit that is taken")),
    }
}

/// An edit is refused by a fault.
fn is_refused<L: Ledger>(
    alloc: Global,
    live: &mut Live,
    edit: &Edit,
    due: &Fault,
    steps: &mut Steps<L>,
) -> Result<(), Fail> {
    match live.prepare(edit, steps) {
        Err(EditFault::Load(fault)) => are_same_faults(alloc, &fault, due),
        _ => Err(Fail::new("an edit that is refused")),
    }
}

/// The place and the length of a transaction's item with a number, if it is one.
pub(crate) fn place_of(live: &Live, number: usize) -> Option<(usize, usize)> {
    match live.items().as_slice().get(number) {
        Some(placed) => match &placed.item {
            Item::Txn(_) => Some((placed.piece.at as usize, placed.piece.len as usize)),
            _ => None,
        },
        None => None,
    }
}
