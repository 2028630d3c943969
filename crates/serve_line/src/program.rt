//! The program's run over its words, its objects and a house.
ghost use Rattle.std.specs.Prelude.{◌≡◌, true, false, codes};
ghost use Rattle.std.specs.Str.{bytes_eq};
ghost use Rattle.hl_time.specs.Calendar.{IsDay};
ghost use Rattle.refusals.specs.Errors.{usage_line};
ghost use Rattle.refusals.specs.Refusing.{Refuses};
ghost use Rattle.shared_desk.specs.Stays.{kit_told};
ghost use Rattle.serve_line.specs.Runs.{AnswersOrMemory, RunsOther, RunsServe};
ghost use Rattle.serve_line.specs.Words.{is_serve, serve_read};
ghost use Rattle.serve_line.specs.declared.words.NoReading.TheVariants as no_readings;

use crate::ends::end_serve;
use crate::laws::histories_are_answered;
use crate::words::{NoReading, read_serve};
use command_line::{Outside, Status, run_waiting};
use desk_team::House;
use error_lines::usage;
use hl_base::{Memory, Shelf, Sink, Source, Steps, Text};
use hl_time::Day;
use query::Maker;
use refusals::Refusal;
use serve_commands::{Ended, serve};
use std::alloc::Global;
use std::sync::Wait;
use std::sync::ledger::Ledger;
use std::thread::Threads;
use web_messages::page::Page;

/// The objects of a run, the house at whose doors it may serve a store, and the page that it may show there.
#[derive(Drop)]
pub struct Site<J, O, E, S, M, H> {
    pub outside: Outside<J, O, E, S, M>,
    pub house: H,
    pub page: Page,
}

/// Whether a word is `serve`.
fn names_serve(word: &Text) -> bool
    ensures { result ≡ bytes_eq word.now (codes "serve") }
{
    word.as_bytes() == b"serve".as_slice()
}

/// Whether the words are those of `serve`.
fn asks_serve(words: &[Text]) -> bool
    ensures { result ≡ is_serve words.now }
{
    match words {
        [] => false,
        [word, ..] => names_serve(word),
    }
}

/// The refusal of words that have no reading.
fn refuse_usage(alloc: Global) -> Refusal
    ensures { Refuses result 2 usage_line }
{
    match usage(alloc, "") {
        Ok(line) => Refusal::Line { status: 2, line },
        Err(Memory) => Refusal::Memory,
    }
}

/// The refusal of words of `serve` that ask for nothing.
fn refuse_words(alloc: Global, no_reading: NoReading) -> Refusal
    ensures usage { Refuses result 2 usage_line }
    ensures memory { no_reading ≡ no_readings.Memory → result ≡ Refusal.Memory }
{
    match no_reading {
        NoReading::Usage => refuse_usage(alloc),
        NoReading::Memory => Refusal::Memory,
    }
}

/// What is answered to the words of `serve`: the store that they name is served until all workers have ended, with the page of the
/// site where they ask for it.
fn answer_serve<
    J: Source,
    O: Sink,
    E: Sink,
    S: Shelf,
    M: Maker,
    H: House,
    W: Threads + Wait + Sync,
    L: Ledger,
>(
    rt: &W,
    alloc: Global,
    words: &[Text],
    site: &mut Site<J, O, E, S, M, H>,
    steps: &mut Steps<L>,
) -> Result<Ended, Refusal>
    ensures { AnswersOrMemory S.Shelf S.Disk.Disk (kit_told H.Door.Door H.Clock.Clock H.Maker.Maker)
        H.Door.Link.coming H.Door.Link.sent H.told (serve_read site.old.page words.now) site.old
        site.new result }
{
    histories_are_answered::<S::Disk>();
    match read_serve(alloc, &site.page, words) {
        Ok(asked) => serve(
            rt,
            alloc,
            asked,
            &mut site.outside.shelf,
            &mut site.house,
            steps,
        ),
        Err(no_reading) => Err(refuse_words(alloc, no_reading)),
    }
}

/// Runs `serve`, and writes what is said when all workers have ended, or why nothing was served.
fn run_serve<
    J: Source,
    O: Sink,
    E: Sink,
    S: Shelf,
    M: Maker,
    H: House,
    W: Threads + Wait + Sync,
    L: Ledger,
>(
    rt: &W,
    alloc: Global,
    words: &[Text],
    site: &mut Site<J, O, E, S, M, H>,
    steps: &mut Steps<L>,
) -> Status
    ensures { RunsServe O.Sink E.Sink S.Shelf S.Disk.Disk
        (kit_told H.Door.Door H.Clock.Clock H.Maker.Maker)
        H.Door.Link.coming H.Door.Link.sent H.told (serve_read site.old.page words.now) result.0
        site.old site.new }
{
    let answer = answer_serve(rt, alloc, words, site, steps);
    end_serve(&mut site.outside, &answer)
}

/// Runs what other words ask for; the house isn't asked.
fn run_other<
    J: Source,
    O: Sink,
    E: Sink,
    S: Shelf,
    M: Maker,
    H: House,
    W: Threads + Wait + Sync,
    L: Ledger,
>(
    rt: &W,
    alloc: Global,
    words: &[Text],
    day: Day,
    site: &mut Site<J, O, E, S, M, H>,
    steps: &mut Steps<L>,
) -> Status
    requires { IsDay day.0 }
    ensures { RunsOther J.Source O.Sink E.Sink S.Shelf S.Disk.Disk M.Maker words.now day result.0
        site.old site.new }
{
    run_waiting(rt, alloc, words, day, &mut site.outside, steps)
}

/// Runs the program. Where the first word is `serve`, the store that the words name is opened and served at the doors of the house
/// until all workers have ended, and closed; the line `revision R, requests N, refused K` is the output, and the status is 0, or 9
/// where a call of a door failed. It is 2 where the words have no reading, 9 where the house didn't bind or hand out its kits, 4
/// where the line couldn't be written, 6 where memory ran out, and else that of another command over a store that isn't opened.
/// What a request is answered sets no status. Any other words are run as `command_line` runs them, and the house isn't asked.
pub fn run_program<
    J: Source,
    O: Sink,
    E: Sink,
    S: Shelf,
    M: Maker,
    H: House,
    W: Threads + Wait + Sync,
    L: Ledger,
>(
    rt: &W,
    alloc: Global,
    words: &[Text],
    day: Day,
    site: &mut Site<J, O, E, S, M, H>,
    steps: &mut Steps<L>,
) -> Status
    requires { IsDay day.0 }
    ensures served { is_serve words.now ≡ true → RunsServe O.Sink E.Sink S.Shelf S.Disk.Disk
        (kit_told H.Door.Door H.Clock.Clock H.Maker.Maker) H.Door.Link.coming H.Door.Link.sent
        H.told
        (serve_read site.old.page words.now) result.0 site.old site.new }
    ensures other { is_serve words.now ≡ false
        → RunsOther J.Source O.Sink E.Sink S.Shelf S.Disk.Disk M.Maker
        words.now day result.0 site.old site.new }
{
    if asks_serve(words) {
        run_serve(rt, alloc, words, site, steps)
    } else {
        run_other(rt, alloc, words, day, site, steps)
    }
}
