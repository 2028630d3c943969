//! Checks of a journal in their order.
ghost use Rattle.std.specs.Prelude.{◌≡◌, ◌≤◌, List, None, Ok, IfErr, OnOk, length};
ghost use Rattle.hl_base.specs.Limits.{text_limit};
ghost use Rattle.book.specs.declared.item.Placed.{Placed};
ghost use Rattle.book_care.specs.Breaks.{IsFault};
ghost use Rattle.refusals.specs.Refusing.{IsOfReport};
ghost use Rattle.book_commands.specs.Answers.{Finds, IsQuiet};
ghost use Rattle.book_commands.specs.Journals.{IsCheckedOf};
ghost use Rattle.book_commands.specs.Texts.{judged_text};
ghost use Rattle.book_commands.specs.Works as spec;

use crate::fault_lines::refuse_strict;
use crate::journal::{Checked, load_checked};
use book_care::{Check, StrictFault, strict_by};
use hl_base::{Bytes, Steps};
use refusals::Refusal;
use std::alloc::Global;
use std::sync::ledger::Ledger;
use std::thread::Threads;

/// Whether a journal passes the checks, or what the first says that fails.
#[tactic(auto, using(crate::proofs::Checking::broken_more, crate::proofs::Checking::broken_none))]
fn passes(alloc: Global, checks: &[Check], checked: &Checked) -> Result<(), StrictFault>
    ensures holds { OnOk result
        (spec.first_kept checks.now checked.now.declarations checked.now.book.txns ≡ None) }
    ensures fault { IfErr result
        (IsFault (spec.first_kept checks.now checked.now.declarations checked.now.book.txns)) }
{
    let mut left = checks;
    while let Some((check, rest)) = left.split_first() {
        strict_by(alloc, &checked.declarations, &checked.book, *check)?;
        left = rest;
    }
    Ok(())
}

/// What the checks of a journal answer: nothing, or why it fails; so over any items that declare its names.
fn strict_checked(alloc: Global, checks: &[Check], checked: &Checked) -> Result<Bytes, Refusal>
    ensures found { (items : List Placed) → IsCheckedOf items checked.now
        → Finds result (Ok (spec.strict_made checks.now items checked.now.book)) }
    ensures kind { IsOfReport result }
    ensures quiet { IsQuiet result }
{
    match passes(alloc, checks, checked) {
        Ok(()) => Ok(Bytes::new(alloc)),
        Err(fault) => Err(refuse_strict(alloc, &fault)),
    }
}

/// What the checks of a text answer, with a year for dates without one.
pub(crate) fn strict_on<R: Threads + Sync, L: Ledger>(
    rt: &R,
    alloc: Global,
    checks: &[Check],
    text: &[u8],
    year: Option<u16>,
    steps: &mut Steps<L>,
) -> Result<Bytes, Refusal>
    requires size { length text.now ≤ text_limit }
    ensures found { Finds result (judged_text (spec.strict_made checks.now) year text.now) }
    ensures kind { IsOfReport result }
    ensures quiet { IsQuiet result }
{
    let checked = load_checked(rt, alloc, text, year, steps)?;
    let found = strict_checked(alloc, checks, &checked);
    // The program ends after its answer, so a large journal isn't taken apart first.
    std::mem::forget(checked);
    found
}
