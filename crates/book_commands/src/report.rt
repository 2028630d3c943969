//! The answer of a report to a text.
ghost use Rattle.std.specs.Prelude.{◌≡◌, ◌≤◌, List, Ok, false, length};
ghost use Rattle.hl_base.specs.Limits.{text_limit};
ghost use Rattle.hl_time.specs.Calendar.{IsDay};
ghost use Rattle.book.specs.declared.item.Placed.{Placed};
ghost use Rattle.plan_commands.specs.Reports.{asks_rules};
ghost use Rattle.refusals.specs.Refusing.{IsOfReport};
ghost use Rattle.report_options.specs.Options.{IsValid};
ghost use Rattle.book_commands.specs.Answers.{Finds, TellsWords, TellsWork, told_by};
ghost use Rattle.book_commands.specs.Journals.{IsJournalOf};
ghost use Rattle.book_commands.specs.Texts.{judged_text};
ghost use Rattle.book_commands.specs.Works.{report_made};
ghost use Rattle.book_commands.specs.declared.work.Work.TheVariants as works;

use crate::journal::{Journal, load_journal};
use crate::planned::planned_on;
use crate::today::Today;
use hl_base::{Bytes, Steps};
use hl_time::Day;
use plan_commands::asks_rules;
use query::Maker;
use refusals::{Refusal, refuse_report};
use report_commands::{Asked, Material, report_of};
use std::alloc::Global;
use std::sync::ledger::Ledger;
use std::thread::Threads;

/// What is asked of a journal, on a day, without rules and budgets, over any items that make it.
fn report_journal<M: Maker>(
    alloc: Global,
    asked: &Asked,
    journal: &Journal,
    day: Day,
    maker: &mut M,
) -> Result<Bytes, Refusal>
    requires day { IsDay day.0 }
    requires valid { IsValid asked.now.options }
    requires plain { asks_rules asked.now.options ≡ false }
    ensures found { (items : List Placed) → IsJournalOf items journal.now
        → Finds result (Ok (report_made asked.now day.0 items journal.now.book)) }
    ensures kind { IsOfReport result }
    ensures maker { (items : List Placed) → IsJournalOf items journal.now
        → TellsWords day.0 asked.now.words (told_by M.Maker maker.old maker.new) result }
{
    let material = Material {
        book: &journal.book,
        styles: &journal.styles,
        types: &journal.types,
        prices: &journal.prices,
        day,
    };
    match report_of(alloc, asked, &material, maker) {
        Ok(text) => Ok(text),
        Err(fault) => Err(refuse_report(alloc, fault)),
    }
}

/// What is asked of a text, on a day, without rules and budgets: once its book is made its items aren't needed any more.
fn plain_on<R: Threads + Sync, M: Maker, L: Ledger>(
    rt: &R,
    alloc: Global,
    asked: &Asked,
    text: &[u8],
    today: Today,
    maker: &mut M,
    steps: &mut Steps<L>,
) -> Result<Bytes, Refusal>
    requires size { length text.now ≤ text_limit }
    requires day { IsDay today.day.0 }
    requires valid { IsValid asked.now.options }
    requires plain { asks_rules asked.now.options ≡ false }
    ensures found { Finds result (judged_text (report_made asked.now today.day.0) today.year
        text.now) }
    ensures kind { IsOfReport result }
    ensures maker { TellsWork today.day.0 today.year (works.Report asked.now) text.now
        (told_by M.Maker maker.old maker.new) result }
{
    let journal = load_journal(rt, alloc, text, today.year, steps)?;
    let found = report_journal(alloc, asked, &journal, today.day, maker);
    // The program ends after its report, so a large journal isn't taken apart first.
    std::mem::forget(journal);
    found
}

/// What is asked of a text, on a day.
pub(crate) fn report_on<R: Threads + Sync, M: Maker, L: Ledger>(
    rt: &R,
    alloc: Global,
    asked: &Asked,
    text: &[u8],
    today: Today,
    maker: &mut M,
    steps: &mut Steps<L>,
) -> Result<Bytes, Refusal>
    requires size { length text.now ≤ text_limit }
    requires day { IsDay today.day.0 }
    requires valid { IsValid asked.now.options }
    ensures found { Finds result (judged_text (report_made asked.now today.day.0) today.year
        text.now) }
    ensures kind { IsOfReport result }
    ensures maker { TellsWork today.day.0 today.year (works.Report asked.now) text.now
        (told_by M.Maker maker.old maker.new) result }
{
    if asks_rules(&asked.options) {
        planned_on(rt, alloc, asked, text, today, maker, steps)
    } else {
        plain_on(rt, alloc, asked, text, today, maker, steps)
    }
}
