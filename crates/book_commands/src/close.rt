//! The entries that close accounts and open them again, as text.
ghost use Rattle.std.specs.Prelude.{◌≡◌, ◌≤◌, ◌<◌, ℕ, List, Ok, IfOk, length};
ghost use Rattle.hl_base.specs.Limits.{text_limit};
ghost use Rattle.hl_time.specs.Calendar.{IsDay, last_day};
ghost use Rattle.book.specs.Bounds.{TurnoverFits};
ghost use Rattle.book.specs.Postings.{postings_of};
ghost use Rattle.book_care.specs.Reads as reads;
ghost use Rattle.book.specs.declared.item.Book.{Book};
ghost use Rattle.book.specs.declared.item.Placed.{Placed};
ghost use Rattle.query.specs.Made.{IsQueryOf};
ghost use Rattle.refusals.specs.Refusing.{IsOfReport};
ghost use Rattle.book_commands.specs.Answers.{Finds, IsQuiet, TellsWords, told_by};
ghost use Rattle.book_commands.specs.Closed.{IsClosingOf};
ghost use Rattle.book_commands.specs.Texts.{judged_text};
ghost use Rattle.book_commands.specs.Works as spec;
ghost use Rattle.book_commands.specs.declared.work.CloseAsked.{CloseAsked as CloseAskedOf};

use crate::entries::pair_text;
use crate::fault_lines::refuse_close;
use crate::journal::{Kept, load_kept};
use crate::today::Today;
use crate::work::{CloseAsked, Entries};
use book::Txn;
use book_care::{Closing, close_entries};
use entry_reader::context_behind;
use hl_base::{Bytes, Memory, Steps};
use hl_time::Day;
use query::{Maker, Query, Types, make_query};
use refusals::{Refusal, refuse_report};
use report_commands::WordsFault;
use std::alloc::Global;
use std::sync::ledger::Ledger;
use std::thread::Threads;

/// The entries that are asked for, as they are read at the end of the text.
fn closing_text(
    alloc: Global,
    closing: &Closing,
    chosen: Entries,
    entries: &Option<(Txn, Txn)>,
) -> Result<Bytes, Memory>
    ensures { IfOk result (λ text.
        text ≡ spec.pair_text (reads.context_at_end closing.now.items.now) chosen entries.now) }
{
    let context = context_behind(alloc, None, closing.items.as_slice())?;
    pair_text(alloc, &context, chosen, entries)
}

/// What is answered of what is closed: the entries that are asked for, or why they can't be made.
fn answer_closing(alloc: Global, closing: &Closing, chosen: Entries) -> Result<Bytes, Refusal>
    requires fits { TurnoverFits (postings_of closing.now.book.now.txns) }
    requires day { closing.now.on.0 < last_day }
    ensures found { (asked : CloseAskedOf) (day : ℕ) (items : List Placed) (book : Book)
        → chosen ≡ asked.entries → IsClosingOf asked day items book closing.now
        → Finds result (Ok (spec.close_made asked day items book)) }
    ensures kind { IsOfReport result }
    ensures quiet { IsQuiet result }
{
    match close_entries(alloc, closing) {
        Ok(entries) => Ok(closing_text(alloc, closing, chosen, &entries)?),
        Err(fault) => Err(refuse_close(alloc, &fault)),
    }
}

/// What is asked to be closed of a journal, by the query of its words.
fn close_by(
    alloc: Global,
    asked: &CloseAsked,
    kept: &Kept,
    day: Day,
    query: &Query,
) -> Result<Bytes, Refusal>
    requires fits { TurnoverFits (postings_of kept.now.book.txns) }
    requires query { IsQueryOf day.0 asked.now.words query.now }
    ensures found { Finds result (Ok
        (spec.close_made asked.now day.0 kept.now.items kept.now.book)) }
    ensures kind { IsOfReport result }
    ensures quiet { IsQuiet result }
{
    let types = Types::new(alloc, &kept.items)?;
    let closing = Closing {
        items: &kept.items,
        book: &kept.book,
        query,
        types: &types,
        on: asked.on.day(),
        into: &asked.into,
    };
    answer_closing(alloc, &closing, asked.entries)
}

/// What is asked to be closed of a journal, on a day: the query of its words is made first.
fn close_kept<M: Maker>(
    alloc: Global,
    asked: &CloseAsked,
    kept: &Kept,
    day: Day,
    maker: &mut M,
) -> Result<Bytes, Refusal>
    requires day { IsDay day.0 }
    requires fits { TurnoverFits (postings_of kept.now.book.txns) }
    ensures found { Finds result (Ok
        (spec.close_made asked.now day.0 kept.now.items kept.now.book)) }
    ensures kind { IsOfReport result }
    ensures maker { TellsWords day.0 asked.now.words (told_by M.Maker maker.old maker.new) result }
{
    match make_query(alloc, asked.words.as_slice(), day, maker) {
        Ok(query) => close_by(alloc, asked, kept, day, &query),
        Err(fault) => Err(refuse_report(alloc, WordsFault::from(fault))),
    }
}

/// What is asked to be closed of a text, on a day.
pub(crate) fn close_on<R: Threads + Sync, M: Maker, L: Ledger>(
    rt: &R,
    alloc: Global,
    asked: &CloseAsked,
    text: &[u8],
    today: Today,
    maker: &mut M,
    steps: &mut Steps<L>,
) -> Result<Bytes, Refusal>
    requires size { length text.now ≤ text_limit }
    requires day { IsDay today.day.0 }
    ensures found { Finds result (judged_text (spec.close_made asked.now today.day.0) today.year
        text.now) }
    ensures kind { IsOfReport result }
    ensures maker { TellsWords today.day.0 asked.now.words (told_by M.Maker maker.old maker.new)
        result }
{
    let kept = load_kept(rt, alloc, text, today.year, steps)?;
    let found = close_kept(alloc, asked, &kept, today.day, maker);
    // The program ends after its answer, so a large journal isn't taken apart first.
    std::mem::forget(kept);
    found
}
