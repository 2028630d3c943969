//! The answer of a report to a text with what its rules make, or beside their goals.
ghost use Rattle.std.specs.Prelude.{◌≤◌, Ok, length};
ghost use Rattle.hl_base.specs.Limits.{text_limit};
ghost use Rattle.hl_time.specs.Calendar.{IsDay};
ghost use Rattle.refusals.specs.Refusing.{IsOfReport};
ghost use Rattle.report_options.specs.Options.{IsValid};
ghost use Rattle.book_commands.specs.Answers.{Finds, TellsReport, TellsWork, told_by};
ghost use Rattle.book_commands.specs.Journals.{IsJournalOf};
ghost use Rattle.book_commands.specs.Texts.{judged_text};
ghost use Rattle.book_commands.specs.Works.{report_made};
ghost use Rattle.book_commands.specs.declared.work.Work.TheVariants as works;

use crate::journal::{Whole, load_whole};
use crate::today::Today;
use hl_base::{Bytes, Steps};
use hl_time::Day;
use plan_commands::report_of;
use query::Maker;
use refusals::{Refusal, refuse_plan};
use report_commands::{Asked, Material};
use std::alloc::Global;
use std::sync::ledger::Ledger;
use std::thread::Threads;

/// What is asked of the items of a text and what they make, on a day.
fn planned_whole<M: Maker>(
    alloc: Global,
    asked: &Asked,
    whole: &Whole,
    day: Day,
    maker: &mut M,
) -> Result<Bytes, Refusal>
    requires day { IsDay day.0 }
    requires valid { IsValid asked.now.options }
    requires made { IsJournalOf whole.now.items whole.now.journal }
    ensures found { Finds result
        (Ok (report_made asked.now day.0 whole.now.items whole.now.journal.book)) }
    ensures kind { IsOfReport result }
    ensures maker { TellsReport asked.now day.0 whole.now.items whole.now.journal.book
        (told_by M.Maker maker.old maker.new) result }
{
    let journal = &whole.journal;
    let material = Material {
        book: &journal.book,
        styles: &journal.styles,
        types: &journal.types,
        prices: &journal.prices,
        day,
    };
    match report_of(alloc, asked, &whole.items, &material, maker) {
        Ok(text) => Ok(text),
        Err(fault) => Err(refuse_plan(alloc, fault)),
    }
}

/// What is asked of a text, on a day.
pub(crate) fn planned_on<R: Threads + Sync, M: Maker, L: Ledger>(
    rt: &R,
    alloc: Global,
    asked: &Asked,
    text: &[u8],
    today: Today,
    maker: &mut M,
    steps: &mut Steps<L>,
) -> Result<Bytes, Refusal>
    requires size { length text.now ≤ text_limit }
    requires day { IsDay today.day.0 }
    requires valid { IsValid asked.now.options }
    ensures found { Finds result (judged_text (report_made asked.now today.day.0) today.year
        text.now) }
    ensures kind { IsOfReport result }
    ensures maker { TellsWork today.day.0 today.year (works.Report asked.now) text.now
        (told_by M.Maker maker.old maker.new) result }
{
    let whole = load_whole(rt, alloc, text, today.year, steps)?;
    let found = planned_whole(alloc, asked, &whole, today.day, maker);
    // The program ends after its report, so a large journal isn't taken apart first.
    std::mem::forget(whole);
    found
}
