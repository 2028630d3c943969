//! Reads the items of a text by several threads.
ghost use denote.Param.Send.{IsSync};
ghost use Rattle.std.specs.Prelude.{◌≡◌, ◌+◌, ◌≤◌, [], false, Ok, OnOk};
ghost use Rattle.hl_base.specs.Gives.{Gives};
ghost use Rattle.hl_base.specs.Pieces.{bytes_in};
ghost use Rattle.entry_reader.specs.Causes.{cause_in};
ghost use Rattle.journal_reader.specs.Items as spec;
ghost use Rattle.journal_reader.specs.Whole.{AreWithin};
ghost use Rattle.parallel_reading.specs.Runs.{both, first_part, has_head, items_at, read_alike, second_part};

use crate::head::cut_behind_heads;
use crate::run::{Run, joined, read_run};
use book::{Items, Placed};
use entry_reader::{Context, ReadFault, context_behind};
use hl_base::{List, Piece, Steps};
use std::alloc::Global;
use std::sync::ledger::Ledger;
use std::thread::{Threads, available_parallelism, join};

/// The fewest pieces for which threads are made: fewer are read before the threads would have begun.
const MANY_PIECES: usize = 4_096;

/// The first three fifths of a run, and the others. The thread that asks reads the first part of the first: it is at work at
/// once and over the heap that is there, so it has the most, and the one that is made last the least.
#[tactic(auto, using(crate::proofs::Runs::front_within, crate::proofs::Runs::back_within))]
fn parts<'a>(text: &[u8], pieces: &'a [Piece]) -> (&'a [Piece], &'a [Piece])
    requires { AreWithin text.now pieces.now }
    ensures first { result.0.now ≡ first_part pieces.now }
    ensures second { result.1.now ≡ second_part pieces.now }
    ensures within { AreWithin text.now result.0.now × AreWithin text.now result.1.now }
{
    pieces.split_at(pieces.len() / 5 * 3)
}

/// What the two parts of a run say, by two threads.
fn read_parts<R: Threads>(
    rt: &R,
    alloc: Global,
    text: &[u8],
    pieces: &[Piece],
    context: &Context,
) -> (Run, Run)
    requires { AreWithin text.now pieces.now }
    ensures first { Gives (λ v. v.items) cause_in result.0
        (read_alike context.now text.now (first_part pieces.now)) }
    ensures second { Gives (λ v. v.items) cause_in result.1
        (read_alike context.now text.now (second_part pieces.now)) }
{
    let (front, back) = parts(text, pieces);
    join(
        rt,
        || -> Run
            requires { AreWithin text.now front.now }
            ensures { Gives (λ v. v.items) cause_in result
                (read_alike context.entry.now text.entry.now front.entry.now) }
        { read_run(alloc, text, front, context) },
        || -> Run
            requires { AreWithin text.now back.now }
            ensures { Gives (λ v. v.items) cause_in result
                (read_alike context.entry.now text.entry.now back.entry.now) }
        { read_run(alloc, text, back, context) },
    )
}

/// What the parts of a run's parts say, by four threads.
fn read_four_parts<R: Threads + Sync>(
    rt: &R,
    alloc: Global,
    text: &[u8],
    pieces: &[Piece],
    context: &Context,
) -> ((Run, Run), (Run, Run))
    requires { AreWithin text.now pieces.now }
    ensures first { Gives (λ v. v.items) cause_in result.0.0
        (read_alike context.now text.now (first_part (first_part pieces.now))) }
    ensures second { Gives (λ v. v.items) cause_in result.0.1
        (read_alike context.now text.now (second_part (first_part pieces.now))) }
    ensures third { Gives (λ v. v.items) cause_in result.1.0
        (read_alike context.now text.now (first_part (second_part pieces.now))) }
    ensures fourth { Gives (λ v. v.items) cause_in result.1.1
        (read_alike context.now text.now (second_part (second_part pieces.now))) }
{
    let (front, back) = parts(text, pieces);
    join(
        rt,
        || -> (Run, Run)
            requires { IsSync R.row × AreWithin text.now front.now }
            ensures first { Gives (λ v. v.items) cause_in result.0
                (read_alike context.entry.now text.entry.now (first_part front.entry.now)) }
            ensures second { Gives (λ v. v.items) cause_in result.1
                (read_alike context.entry.now text.entry.now (second_part front.entry.now)) }
        { read_parts(rt, alloc, text, front, context) },
        || -> (Run, Run)
            requires { IsSync R.row × AreWithin text.now back.now }
            ensures third { Gives (λ v. v.items) cause_in result.0
                (read_alike context.entry.now text.entry.now (first_part back.entry.now)) }
            ensures fourth { Gives (λ v. v.items) cause_in result.1
                (read_alike context.entry.now text.entry.now (second_part back.entry.now)) }
        { read_parts(rt, alloc, text, back, context) },
    )
}

/// Some items, and behind them what pieces of a text say, each in this context, by four threads. A part's vector is let go as
/// soon as its items stand behind the others.
fn read_by_four<R: Threads + Sync>(
    rt: &R,
    alloc: Global,
    text: &[u8],
    pieces: &[Piece],
    context: &Context,
    items: Vec<Placed>,
) -> Run
    requires { AreWithin text.now pieces.now }
    ensures { Gives (λ v. v.items) cause_in result
        (both (Ok items.items) (read_alike context.now text.now pieces.now)) }
{
    let ((first, second), (third, fourth)) = read_four_parts(rt, alloc, text, pieces, context);
    let begun = joined(Ok(items), first);
    let half = joined(begun, second);
    let most = joined(half, third);
    joined(most, fourth)
}

/// Some items, and behind them what the pieces behind theirs say, of which none is a directive, a price or a rule: so each is
/// read in the context of the first. The items' vector gets room for all at once.
fn read_behind<R: Threads + Sync>(
    rt: &R,
    alloc: Global,
    text: &[u8],
    pieces: &[Piece],
    year: Option<u16>,
    mut items: Vec<Placed>,
) -> Run
    requires within { AreWithin text.now pieces.now }
    requires alike { has_head text.now pieces.now ≡ false }
    ensures { Gives (λ v. v.items) cause_in result
        (both (Ok items.items)
        (spec.reading_from year (items_at items.items) text.now pieces.now)) }
{
    items.reserve_exact(pieces.len())?;
    let context = context_behind(alloc, year, items.as_slice())?;
    read_by_four(rt, alloc, text, pieces, &context, items)
}

/// Counts the bytes of some pieces.
fn count_bytes<L: Ledger>(pieces: &[Piece], steps: &mut Steps<L>)
    ensures { steps.new ≡ record steps.old {
      bytes_read = steps.old.bytes_read
          + bytes_in pieces.now;
    } }
{
    for piece in pieces {
        steps.read_bytes(piece.len);
    }
}

/// Whether there is more than one processor, as far as the system tells.
fn has_processors<R: Threads>(rt: &R) -> bool {
    match available_parallelism(rt) {
        Ok(count) => count.get() > 1,
        Err(_) => false,
    }
}

/// Whether threads are made for so many pieces.
fn are_shared<R: Threads>(rt: &R, count: usize) -> bool {
    count >= MANY_PIECES && has_processors(rt)
}

/// The items of a text that is cut into these pieces, in order, with a year for the dates that are written without one, as
/// `journal_reader::read_items` reads them; or the fault of the first that doesn't read. Where there are several processors
/// and many pieces behind the last directive, price or rule, four threads read these at once: none of them says how another is
/// read. It waits for no one but these threads, which read and do nothing else.
pub fn read_items<R: Threads + Sync, L: Ledger>(
    rt: &R,
    alloc: Global,
    text: &[u8],
    pieces: &[Piece],
    year: Option<u16>,
    steps: &mut Steps<L>,
) -> Result<Items, ReadFault>
    requires { AreWithin text.now pieces.now }
    ensures value { Gives (λ items.
        items) cause_in result (spec.reading_from year [] text.now pieces.now) }
    ensures read { OnOk result (steps.new.bytes_read ≡ steps.old.bytes_read + bytes_in pieces.now) }
    ensures bound { steps.new.bytes_read ≤ steps.old.bytes_read + bytes_in pieces.now }
    ensures others { steps.new ≡ record steps.old { bytes_read = steps.new.bytes_read } }
{
    let (front, back) = cut_behind_heads(text, pieces);
    if !are_shared(rt, back.len()) {
        return journal_reader::read_items(alloc, text, pieces, year, steps);
    }
    let before = journal_reader::read_items(alloc, text, front, year, steps)?;
    count_bytes(back, steps);
    let items = read_behind(rt, alloc, text, back, year, before.into_vec())?;
    Ok(List::from_vec(items))
}
