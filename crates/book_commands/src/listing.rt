//! The items of a journal, a line each.
ghost use Rattle.std.specs.Prelude.{◌≡◌, ◌≤◌, ◌++◌, Ok, IfOk, OnOk, drop, length};
ghost use Rattle.hl_base.specs.Limits.{text_limit};
ghost use Rattle.refusals.specs.Refusing.{IsOfReport};
ghost use Rattle.book_commands.specs.Answers.{Finds, IsQuiet};
ghost use Rattle.book_commands.specs.Listed as spec;
ghost use Rattle.book_commands.specs.Texts.{judged_text};

use crate::fault_lines::day_text;
use crate::journal::{Kept, load_kept};
use book::{Item, Placed};
use explanations::lines::first_content;
use hl_base::bytes::joined;
use hl_base::{Bytes, Memory, Steps};
use refusals::Refusal;
use std::alloc::Global;
use std::string::ToString;
use std::sync::ledger::Ledger;
use std::thread::Threads;

/// A text from a place on; nothing past its end.
#[tactic(auto, using(crate::proofs::ItemLines::drop_within))]
fn from_place(text: &[u8], at: u64) -> &[u8]
    ensures { result.now ≡ drop at text.now }
{
    let (_, rest) = text.split_at(at.min(text.len() as u64) as usize);
    rest
}

/// The number of an item and that of its first line, each with a tab after it.
fn numbers(alloc: Global, number: u64, line: u64) -> Result<Vec<u8>, Memory>
    ensures { IfOk result (λ text. text.items ≡ spec.numbers number line) }
{
    let mut text = number.to_string(alloc)?;
    text.push_str("\t")?;
    text.push_str(line.to_string(alloc)?.as_str())?;
    text.push_str("\t")?;
    Ok(text.into_bytes())
}

/// Puts the day of a transaction, and nothing for another item.
fn push_day(out: &mut Vec<u8>, item: &Item) -> Result<(), Memory>
    ensures { OnOk result (out.new.items ≡ out.old.items ++ spec.day_in item.now) }
{
    match item {
        Item::Txn(txn) => {
            out.extend_from_slice(&day_text(txn.day))?;
            Ok(())
        }
        _ => Ok(()),
    }
}

/// The day of an item, a tab and its first line.
fn said(alloc: Global, item: &Item, first: &[u8]) -> Result<Vec<u8>, Memory>
    ensures { IfOk result (λ text. text.items ≡ spec.said item.now first.now) }
{
    let mut out = Vec::new(alloc);
    push_day(&mut out, item)?;
    out.push(b'\t')?;
    out.extend_from_slice(first)?;
    out.push(b'\n')?;
    Ok(out)
}

/// The line of an item: its number, that of its first line, its day and its first line, with tabs between them.
fn item_line(alloc: Global, text: &[u8], number: u64, placed: &Placed) -> Result<Vec<u8>, Memory>
    ensures { IfOk result (λ line. line.items ≡ spec.item_line text.now number placed.now) }
{
    let front = numbers(alloc, number, placed.piece.line)?;
    let back = said(
        alloc,
        &placed.item,
        first_content(from_place(text, placed.piece.at)),
    )?;
    joined(alloc, front.as_slice(), back.as_slice())
}

/// Puts the line of an item.
fn push_line(
    alloc: Global,
    out: &mut Vec<u8>,
    text: &[u8],
    number: u64,
    placed: &Placed,
) -> Result<(), Memory>
    ensures { OnOk result (out.new.items ≡ out.old.items
        ++ spec.item_line text.now number placed.now) }
{
    let line = item_line(alloc, text, number, placed)?;
    out.extend_from_slice(line.as_slice())?;
    Ok(())
}

/// Puts the lines of items, which are numbered from 1.
#[tactic(auto, using(crate::proofs::ItemLines::lines_more, crate::proofs::ItemLines::lines_done))]
fn push_lines(alloc: Global, out: &mut Vec<u8>, text: &[u8], items: &[Placed]) -> Result<(), Memory>
    ensures { OnOk result (out.new.items ≡ out.old.items
        ++ spec.lines_from text.now 1 items.now) }
{
    let mut number = 1;
    for placed in items {
        push_line(alloc, out, text, number, placed)?;
        number += 1;
    }
    Ok(())
}

/// The lines of the items of a text.
fn items_text(alloc: Global, text: &[u8], items: &[Placed]) -> Result<Bytes, Memory>
    ensures { IfOk result (λ lines. lines ≡ spec.lines_from text.now 1 items.now) }
{
    let mut out = Vec::new(alloc);
    push_lines(alloc, &mut out, text, items)?;
    Ok(Bytes::from_vec(out))
}

/// The lines of the items of a text that loads.
fn listed(alloc: Global, text: &[u8], kept: &Kept) -> Result<Bytes, Refusal>
    ensures found { Finds result (Ok (spec.items_made text.now kept.now.items kept.now.book)) }
    ensures kind { IsOfReport result }
    ensures quiet { IsQuiet result }
{
    let lines = items_text(alloc, text, kept.items.as_slice())?;
    Ok(lines)
}

/// The items of a text, a line each, with a year for dates without one.
pub(crate) fn items_on<R: Threads + Sync, L: Ledger>(
    rt: &R,
    alloc: Global,
    text: &[u8],
    year: Option<u16>,
    steps: &mut Steps<L>,
) -> Result<Bytes, Refusal>
    requires size { length text.now ≤ text_limit }
    ensures found { Finds result (judged_text (spec.items_made text.now) year text.now) }
    ensures kind { IsOfReport result }
    ensures quiet { IsQuiet result }
{
    let kept = load_kept(rt, alloc, text, year, steps)?;
    let found = listed(alloc, text, &kept);
    // The program ends after its answer, so a large journal isn't taken apart first.
    std::mem::forget(kept);
    found
}
