//! A run of `serve` in which no call is to fail: what the contract of `run_program` says of its status.
ghost use Rattle.std.specs.Prelude.{◌≡◌, ◌⊎◌, ◌==◌, [], true, IfSome, Ok, codes};
ghost use Rattle.std.specs.Str.{bytes_eq};
ghost use Rattle.shared_desk.specs.Stays.{kit_told};
ghost use Rattle.serve_commands.specs.Lines.{most_of_a_tally};
ghost use Rattle.command_line.specs.Complete.{IsDone};
ghost use Rattle.serve_line.specs.Runs.{WasntOpened};
ghost use Rattle.serve_line.specs.Words.{is_serve, serve_read};
ghost use Rattle.serve_rows.specs.Rooms.{HasRoomTo, IsSound, most_of_a_fault};

use crate::case::{Case, site_of};
use command_line::Status;
use desk_team::House;
use hl_base::{Memory, Shelf, Sink, Source, Steps, Text};
use hl_time::Day;
use query::Maker;
use serve_commands::Serving;
use serve_line::{Site, read_serve, run_program};
use std::alloc::Global;
use std::marker::Brand;
use std::sync::Wait;
use std::sync::ledger::{Blank, Ledger};
use std::thread::Threads;
use web_messages::page::Page;

/// Whether a word is `serve`.
fn is_named(word: &Text) -> bool
    ensures { result ≡ bytes_eq word.now (codes "serve") }
{
    word.as_bytes() == b"serve".as_slice()
}

/// Whether the words are those of `serve`.
fn begins(words: &[Text]) -> bool
    ensures { result ≡ is_serve words.now }
{
    match words {
        [] => false,
        [word, ..] => is_named(word),
    }
}

/// Whether one worker is asked for.
fn has_one_worker(asked: &Serving) -> bool
    ensures { result ≡ (asked.now.crew.workers == 1) }
{
    asked.crew.workers == 1
}

/// What is asked for, where it is one worker.
fn with_one_worker(asked: Serving) -> Option<Serving>
    ensures { IfSome result (λ kept. (kept ≡ asked) × (kept.crew.workers ≡ 1)) }
{
    if has_one_worker(&asked) {
        Some(asked)
    } else {
        None
    }
}

/// What the words of `serve` ask for, where it is one worker.
fn read_one(alloc: Global, page: &Page, words: &[Text]) -> Option<Serving>
    ensures { IfSome result (λ asked. (serve_read page.now words.now ≡ Ok asked)
        × (asked.crew.workers ≡ 1)) }
{
    match read_serve(alloc, page, words) {
        Ok(asked) => with_one_worker(asked),
        Err(_) => None,
    }
}

/// What words ask for, where they are those of `serve` and ask for one worker.
fn asked_by(alloc: Global, page: &Page, words: &[Text]) -> Option<Serving>
    ensures { IfSome result (λ asked. (is_serve words.now ≡ true)
        × (serve_read page.now words.now ≡ Ok asked) × (asked.crew.workers ≡ 1)) }
{
    if begins(words) {
        read_one(alloc, page, words)
    } else {
        None
    }
}

/// Runs `serve` over a house that has a kit for each worker, of which no call is to fail, nor one of a door, and over outputs
/// with room. The status is 0, or 6 where memory ran out, unless the store wasn't opened; and the house counts no fault.
fn run_soundly<
    J: Source,
    O: Sink,
    E: Sink,
    S: Shelf,
    M: Maker,
    H: House,
    W: Threads + Wait + Sync,
    L: Ledger,
>(
    rt: &W,
    alloc: Global,
    words: &[Text],
    asked: &Serving,
    site: &mut Site<J, O, E, S, M, H>,
    steps: &mut Steps<L>,
) -> Status
    requires serve { is_serve words.now ≡ true }
    requires asked { serve_read site.old.page words.now ≡ Ok asked.now }
    requires house { IsSound (H.told site.old.house) asked.now.crew.workers }
    requires output { HasRoomTo O.Sink site.old.outside.streams.output most_of_a_tally }
    requires error { HasRoomTo E.Sink site.old.outside.err most_of_a_fault }
    ensures done { IsDone result.0 ⊎ WasntOpened S.Shelf S.Disk.Disk
        (kit_told H.Door.Door H.Clock.Clock H.Maker.Maker) H.Door.Link.coming H.Door.Link.sent
        H.told asked.now site.old site.new }
    ensures quiet { (H.told site.new.house).faults ≡ (H.told site.old.house).faults }
{
    run_program(rt, alloc, words, Day(739_052), site, steps)
}

/// The exit status of the case, where the words are those of `serve` and ask for one worker.
fn counted<L: Ledger, W: Threads + Wait + Sync>(
    rt: &W,
    alloc: Global,
    blank: Blank,
    case: &Case,
    words: &[Text],
) -> Result<Option<u8>, Memory>
    requires name { blank.name ≡ L.name }
    requires parts { blank.parts ≡ L.parts }
    requires three { blank.parts ≡ 3 }
    requires none { (case.now.house_fails.now ≡ []) × (case.now.door_fails.now ≡ []) }
{
    let mut site = site_of(alloc, case)?;
    let Some(asked) = asked_by(alloc, &site.page, words) else {
        return Ok(None);
    };
    let mut steps = Steps::<L>::start(blank);
    let status = run_soundly(rt, alloc, words, &asked, &mut site, &mut steps);
    Ok(Some(status.0))
}

/// The exit status of `serve` with these words over memory where no call is to fail, if they ask for one worker.
pub fn status_of<W: Threads + Wait + Sync>(
    rt: &W,
    alloc: Global,
    words: &[Text],
    bytes: &[u8],
) -> Result<Option<u8>, Memory> {
    let case = Case {
        words: &[],
        bytes,
        house_fails: &[],
        door_fails: &[],
    };
    counted::<Brand, W>(rt, alloc, Blank::new(3), &case, words)
}
