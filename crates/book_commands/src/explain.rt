//! What is wrong with a text, and how it is mended.
ghost use Rattle.std.specs.Prelude.{◌≡◌, ◌≤◌, [], Ok, IfErr, IfOk, OnOk, length};
ghost use Rattle.hl_base.specs.Items.{items_of};
ghost use Rattle.hl_base.specs.Limits.{text_limit};
ghost use Rattle.balancing.specs.Load.{load};
ghost use Rattle.explanations.specs.Explained.{explained};
ghost use Rattle.journal_reader.specs.Items.{items_in};
ghost use Rattle.journal_reader.specs.Whole.{AreWithin};
ghost use Rattle.refusals.specs.Errors.{fault_status};
ghost use Rattle.refusals.specs.Outcomes.{written};
ghost use Rattle.refusals.specs.Refusing.{IsOfReport, IsOfText, Refuses};
ghost use Rattle.book_commands.specs.Answers.{Finds, IsQuiet, RefusesText};
ghost use Rattle.book_commands.specs.TextFaults as spec;

use balancing::{CheckFault, check};
use book::{Book, Fault, Items};
use error_lines::past_limit;
use explanations::explain;
use hl_base::{Bytes, ITEM_LIMIT, Piece, Steps, cut_items};
use journal_reader::ReadFault;
use parallel_reading::read_items;
use refusals::{Refusal, status_for};
use std::alloc::Global;
use std::sync::ledger::Ledger;
use std::thread::Threads;

/// The refusal of a text with a fault, with the line of the fault and how it is mended.
fn explain_fault(alloc: Global, text: &[u8], fault: &Fault) -> Refusal
    ensures lines { Refuses result (fault_status fault.now.cause) (explained text.now fault.now) }
    ensures kind { IsOfText result }
{
    let status = status_for(&fault.cause);
    match explain(alloc, text, fault) {
        Ok(line) => Refusal::Line { status, line },
        Err(_) => Refusal::Memory,
    }
}

/// The items of a text, with a year for dates without one, or what is wrong with the first line that doesn't read.
fn read_or_explain<R: Threads + Sync, L: Ledger>(
    rt: &R,
    alloc: Global,
    text: &[u8],
    pieces: &[Piece],
    year: Option<u16>,
    steps: &mut Steps<L>,
) -> Result<Items, Refusal>
    requires pieces { pieces.now ≡ items_of text.now }
    requires within { AreWithin text.now pieces.now }
    ensures items { IfOk result (λ items. items_in year text.now ≡ Ok items) }
    ensures refused { IfErr result (λ r.
        RefusesText r (spec.explained_read text.now (items_in year text.now))) }
{
    match read_items(rt, alloc, text, pieces, year, steps) {
        Ok(items) => Ok(items),
        Err(ReadFault::Read(fault)) => Err(explain_fault(alloc, text, &fault)),
        Err(ReadFault::Memory) => Err(Refusal::Memory),
    }
}

/// The book of a text's items, or what is wrong with the first entry that doesn't load.
fn book_or_explain(alloc: Global, text: &[u8], items: Items) -> Result<Book, Refusal>
    ensures loads { OnOk result (spec.explained_load text.now (load items) ≡ Ok (written [])) }
    ensures refused { IfErr result (λ r.
        RefusesText r (spec.explained_load text.now (load items))) }
{
    match check(alloc, items) {
        Ok(book) => Ok(book),
        Err(CheckFault::Journal(fault)) => Err(explain_fault(alloc, text, &fault)),
        Err(CheckFault::Memory) => Err(Refusal::Memory),
    }
}

/// The items of a text within the limit of bytes, with a year for dates without one, or what is wrong with the first line that
/// doesn't read.
fn items_or_explain<R: Threads + Sync, L: Ledger>(
    rt: &R,
    alloc: Global,
    text: &[u8],
    year: Option<u16>,
    steps: &mut Steps<L>,
) -> Result<Items, Refusal>
    requires size { length text.now ≤ text_limit }
    ensures items { IfOk result (λ items.
        spec.explained_text year text.now ≡ spec.explained_load text.now (load items)) }
    ensures refused { IfErr result (λ r. RefusesText r (spec.explained_text year text.now)) }
{
    let pieces = cut_items(alloc, text)?;
    let count = pieces.len() as u64;
    if count > ITEM_LIMIT {
        let line = past_limit(alloc, count, ITEM_LIMIT)?;
        return Err(Refusal::Line { status: 7, line });
    }
    read_or_explain(rt, alloc, text, pieces.as_slice(), year, steps)
}

/// The book of a text within the limit of bytes, with a year for dates without one, or what is wrong with it.
fn load_or_explain<R: Threads + Sync, L: Ledger>(
    rt: &R,
    alloc: Global,
    text: &[u8],
    year: Option<u16>,
    steps: &mut Steps<L>,
) -> Result<Book, Refusal>
    requires size { length text.now ≤ text_limit }
    ensures loads { OnOk result (spec.explained_text year text.now ≡ Ok (written [])) }
    ensures refused { IfErr result (λ r. RefusesText r (spec.explained_text year text.now)) }
{
    let items = items_or_explain(rt, alloc, text, year, steps)?;
    book_or_explain(alloc, text, items)
}

/// Nothing for a text that loads, with a year for dates without one. Else its first fault, with the line and how it is mended.
pub(crate) fn explain_on<R: Threads + Sync, L: Ledger>(
    rt: &R,
    alloc: Global,
    text: &[u8],
    year: Option<u16>,
    steps: &mut Steps<L>,
) -> Result<Bytes, Refusal>
    requires size { length text.now ≤ text_limit }
    ensures found { Finds result (spec.explained_text year text.now) }
    ensures kind { IsOfReport result }
    ensures quiet { IsQuiet result }
{
    let book = load_or_explain(rt, alloc, text, year, steps)?;
    // The program ends after its answer, so a large journal isn't taken apart first.
    std::mem::forget(book);
    Ok(Bytes::new(alloc))
}
