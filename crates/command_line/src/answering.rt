//! What a command answers to the text of the input, of a file or of a store, before anything is written.
ghost use Rattle.std.specs.Prelude.{◌≡◌, ◌≢◌, ◌&&◌, Err, false, length, nat_lt};
ghost use Rattle.hl_base.specs.Limits.{text_limit};
ghost use Rattle.hl_time.specs.Calendar.{IsDay};
ghost use Rattle.refusals.specs.Errors.{limit_line};
ghost use Rattle.refusals.specs.Refusing.{IsOfReport, IsOfText, Refuses};
ghost use Rattle.book_commands.specs.Answers.{Finds, TellsWork, told_by};
ghost use Rattle.book_commands.specs.Works.{IsWorkable, judge};
ghost use Rattle.command_line.specs.Runs.{AnswersText};
ghost use Rattle.command_line.specs.Scenes.{SourceIsSound, scene, soundness};
ghost use Rattle.command_line.specs.Sources.{default_year, has_limit, judge_within};

use crate::outside::Outside;
use crate::source::read_text;
use book_commands::{Today, Work, answer_text};
use command_words::{Origin, TextTask};
use error_lines::past_limit;
use hl_base::{Bytes, Shelf, Sink, Source, Steps, TEXT_LIMIT};
use hl_time::{Day, civil_of};
use query::Maker;
use refusals::Refusal;
use std::alloc::Global;
use std::sync::ledger::Ledger;
use std::thread::Threads;

/// The year of dates that have none: that of the day, and none in a store.
fn year_for(origin: &Origin, day: Day) -> Option<u16>
    requires { IsDay day.0 }
    ensures { result ≡ default_year origin.now day.0 }
{
    match origin {
        Origin::Input | Origin::File(_) => Some(civil_of(day).year),
        Origin::Store(_) => None,
    }
}

/// Whether a text has a limit: one of which more is asked than itself.
fn has_limit(work: &Work) -> bool
    ensures { result ≡ has_limit work.now }
{
    match work {
        Work::Text => false,
        _ => true,
    }
}

/// Whether a text has more bytes than it may have.
fn is_past_limit(work: &Work, text: &[u8]) -> bool
    ensures { result ≡ (has_limit work.now && nat_lt text_limit (length text.now)) }
{
    has_limit(work) && text.len() as u64 > TEXT_LIMIT
}

/// The refusal of a text with so many bytes.
fn past_bytes(alloc: Global, count: u64) -> Refusal
    ensures line { Refuses result 7 (limit_line count text_limit) }
    ensures kind { IsOfText result }
{
    match past_limit(alloc, count, TEXT_LIMIT) {
        Ok(line) => Refusal::Line { status: 7, line },
        Err(_) => Refusal::Memory,
    }
}

/// What is answered to a text within its limit.
fn answer_within<M: Maker, R: Threads + Sync, L: Ledger>(
    rt: &R,
    alloc: Global,
    task: &TextTask,
    text: &[u8],
    day: Day,
    maker: &mut M,
    steps: &mut Steps<L>,
) -> Result<Bytes, Refusal>
    requires day { IsDay day.0 }
    requires valid { IsWorkable task.now.work }
    requires within { (has_limit task.now.work && nat_lt text_limit (length text.now)) ≡ false }
    ensures found { Finds result
        (judge day.0 (default_year task.now.origin day.0) task.now.work text.now) }
    ensures kind { IsOfReport result }
    ensures maker { TellsWork day.0 (default_year task.now.origin day.0) task.now.work text.now
        (told_by M.Maker maker.old maker.new) result }
{
    let today = Today {
        day,
        year: year_for(&task.origin, day),
    };
    answer_text(rt, alloc, &task.work, text, today, maker, steps)
}

/// What is answered to a text that was read, before anything is written.
fn answer_read<M: Maker, R: Threads + Sync, L: Ledger>(
    rt: &R,
    alloc: Global,
    task: &TextTask,
    text: &[u8],
    day: Day,
    maker: &mut M,
    steps: &mut Steps<L>,
) -> Result<Bytes, Refusal>
    requires day { IsDay day.0 }
    requires valid { IsWorkable task.now.work }
    ensures found { Finds result
        (judge_within day.0 (default_year task.now.origin day.0) task.now.work text.now) }
    ensures kind { IsOfReport result }
    ensures maker { TellsWork day.0 (default_year task.now.origin day.0) task.now.work text.now
        (told_by M.Maker maker.old maker.new) result }
{
    if is_past_limit(&task.work, text) {
        return Err(past_bytes(alloc, text.len() as u64));
    }
    answer_within(rt, alloc, task, text, day, maker, steps)
}

/// What is answered to a text, before anything is written.
pub(crate) fn answer<J: Source, O: Sink, E: Sink, S: Shelf, M: Maker, R: Threads + Sync, L: Ledger>(
    rt: &R,
    alloc: Global,
    task: &TextTask,
    day: Day,
    outside: &mut Outside<J, O, E, S, M>,
    steps: &mut Steps<L>,
) -> Result<Bytes, Refusal>
    requires day { IsDay day.0 }
    requires valid { IsWorkable task.now.work }
    ensures answers { AnswersText task.now day.0 result
        (scene J.Source O.Sink E.Sink S.Shelf M.Maker outside.old)
        (scene J.Source O.Sink E.Sink S.Shelf M.Maker outside.new) }
    ensures sound { SourceIsSound task.now.origin
        (soundness J.Source O.Sink E.Sink S.Shelf outside.old)
        → result ≢ Err Refusal.ReadFault }
    ensures output { outside.new.streams.output ≡ outside.old.streams.output }
    ensures err { outside.new.err ≡ outside.old.err }
{
    let text = read_text(alloc, &task.origin, outside)?;
    answer_read(
        rt,
        alloc,
        task,
        text.as_slice(),
        day,
        &mut outside.maker,
        steps,
    )
}
