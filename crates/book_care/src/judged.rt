//! Whether the lines of an entry can be written at the end of a text.
ghost use Rattle.std.specs.Prelude.{◌≡◌, not, None, IfOk, OnOk, IfErr};
ghost use Rattle.std.specs.List.{find};
ghost use Rattle.std.specs.Option.{option_copied};
ghost use Rattle.book_care.specs.Judged as spec;
ghost use Rattle.book_care.specs.Judged.{IsFault};
ghost use Rattle.book_care.specs.Reads as reads;

use crate::context_end::has_default;
use crate::faults::CloseFault;
use crate::lines::Line;
use crate::reading_back::reads_back;
use book::Items;
use entry_reader::Context;
use hl_base::{Memory, Text};
use std::alloc::Global;

/// The first line whose account doesn't read back.
#[tactic(auto, using(crate::proofs::Loops::renamed_here, crate::proofs::Loops::renamed_more, crate::proofs::Loops::renamed_none))]
fn first_renamed<'a, 'b>(
    alloc: Global,
    context: &Context,
    lines: &'b [Line<'a>],
) -> Result<Option<&'b Line<'a>>, Memory>
    ensures { IfOk result (λ found. option_copied found
        ≡ find (λ moved. not (reads.reads_back context.now moved.account)) lines.now) }
{
    for line in lines {
        if !reads_back(alloc, context, line.account())? {
            return Ok(Some(line));
        }
    }
    Ok(None)
}

/// Whether a line has no symbol.
fn is_bare(line: &Line) -> bool
    ensures { result ≡ spec.is_bare line.now }
{
    line.symbol().as_bytes().is_empty()
}

/// Whether a line has more than 18 decimals.
fn is_fine(line: &Line) -> bool
    ensures { result ≡ spec.is_fine line.now }
{
    18 < line.value().decimals()
}

/// The first line without a symbol.
#[tactic(auto, using(crate::proofs::Loops::bare_here, crate::proofs::Loops::bare_more, crate::proofs::Loops::bare_none))]
fn first_bare<'a, 'b>(lines: &'b [Line<'a>]) -> Option<&'b Line<'a>>
    ensures { option_copied result ≡ find spec.is_bare lines.now }
{
    for line in lines {
        if is_bare(line) {
            return Some(line);
        }
    }
    None
}

/// The first line with more than 18 decimals.
#[tactic(auto, using(crate::proofs::Loops::fine_here, crate::proofs::Loops::fine_more, crate::proofs::Loops::fine_none))]
fn first_fine<'a, 'b>(lines: &'b [Line<'a>]) -> Option<&'b Line<'a>>
    ensures { option_copied result ≡ find spec.is_fine lines.now }
{
    for line in lines {
        if is_fine(line) {
            return Some(line);
        }
    }
    None
}

/// A copy of a text.
fn copied(alloc: Global, text: &Text) -> Result<Text, Memory>
    ensures { IfOk result (λ copy. copy ≡ text.now) }
{
    Text::copied(alloc, text.as_str())
}

/// Whether each account reads back.
fn none_renamed(alloc: Global, context: &Context, lines: &[Line]) -> Result<(), CloseFault>
    ensures holds { OnOk result (spec.renamed context.now lines.now ≡ None) }
    ensures fault { IfErr result (IsFault (spec.renamed context.now lines.now)) }
{
    match first_renamed(alloc, context, lines)? {
        Some(line) => Err(CloseFault::Renamed {
            account: copied(alloc, line.account())?,
        }),
        None => Ok(()),
    }
}

/// Whether each amount has a symbol, where the text ends with a default commodity.
fn none_bare(
    alloc: Global,
    items: &Items,
    context: &Context,
    lines: &[Line],
) -> Result<(), CloseFault>
    requires { context.now ≡ reads.context_at_end items.now }
    ensures holds { OnOk result (spec.bare context.now lines.now ≡ None) }
    ensures fault { IfErr result (IsFault (spec.bare context.now lines.now)) }
{
    if !has_default(items) {
        return Ok(());
    }
    match first_bare(lines) {
        Some(line) => Err(CloseFault::Bare {
            account: copied(alloc, line.account())?,
        }),
        None => Ok(()),
    }
}

/// Whether no amount has more than 18 decimals.
fn none_fine(alloc: Global, lines: &[Line]) -> Result<(), CloseFault>
    ensures holds { OnOk result (spec.fine lines.now ≡ None) }
    ensures fault { IfErr result (IsFault (spec.fine lines.now)) }
{
    match first_fine(lines) {
        Some(line) => {
            let account = copied(alloc, line.account())?;
            let symbol = copied(alloc, line.symbol())?;
            Err(CloseFault::Fine { account, symbol })
        }
        None => Ok(()),
    }
}

/// Whether the lines of an entry can be written at the end of a text; else the first reason against it.
#[tactic(auto, using(crate::proofs::Judging::first_told, crate::proofs::Judging::next_told, crate::proofs::Judging::none_told))]
pub(crate) fn judge(
    alloc: Global,
    items: &Items,
    context: &Context,
    lines: &[Line],
) -> Result<(), CloseFault>
    requires { context.now ≡ reads.context_at_end items.now }
    ensures holds { OnOk result (spec.line_fault context.now lines.now ≡ None) }
    ensures fault { IfErr result (IsFault (spec.line_fault context.now lines.now)) }
{
    none_renamed(alloc, context, lines)?;
    none_bare(alloc, items, context, lines)?;
    none_fine(alloc, lines)
}
