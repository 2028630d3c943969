//! One connection over the input and the output: to a journal in memory, or to a store.
ghost use Rattle.std.specs.Prelude.{◌≡◌, [], IfErr, length};
ghost use Rattle.hl_time.specs.Calendar.{IsDay};
ghost use Rattle.command_line.specs.Scenes.{scene};
ghost use Rattle.command_line.specs.StoreTasks.{IsOfStored};
ghost use Rattle.command_line.specs.Talks as spec;

use crate::outside::Outside;
use crate::program::{Status, say};
use crate::source::read_text;
use crate::store_tasks::refuse_journal;
use command_words::{Origin, Talking};
use hl_base::{Shelf, Sink, Source, Steps, Text};
use hl_time::Day;
use query::Maker;
use refusals::Refusal;
use std::alloc::Global;
use std::sync::Wait;
use std::sync::ledger::Ledger;
use std::thread::Threads;
use talk_commands::{StoreTalk, Terms, talk_from, talk_store};
use web_desk::{ConnEnd, Way};

/// One connection to a journal in memory that begins as a text.
fn talk_text<J: Source, O: Sink, E: Sink, S: Shelf, M: Maker, W: Threads + Wait + Sync, L: Ledger>(
    rt: &W,
    alloc: Global,
    text: &[u8],
    terms: Terms,
    outside: &mut Outside<J, O, E, S, M>,
    steps: &mut Steps<L>,
) -> Result<ConnEnd, Refusal>
    requires { IsDay terms.day.0 }
    ensures talks { spec.TalkedText (scene J.Source O.Sink E.Sink S.Shelf M.Maker)
        M.Maker text.now terms.allow terms.day outside.old outside.new result }
    ensures kind { IfErr result IsOfStored }
{
    match talk_from(
        rt,
        alloc,
        text,
        terms,
        &mut outside.streams,
        &mut outside.maker,
        steps,
    ) {
        Ok(end) => Ok(end),
        Err(refusal) => Err(refuse_journal(alloc, &Text::new(alloc), &refusal)),
    }
}

/// One connection to a journal in memory that begins as the text of a file.
fn talk_file<J: Source, O: Sink, E: Sink, S: Shelf, M: Maker, W: Threads + Wait + Sync, L: Ledger>(
    rt: &W,
    alloc: Global,
    name: Text,
    terms: Terms,
    outside: &mut Outside<J, O, E, S, M>,
    steps: &mut Steps<L>,
) -> Result<ConnEnd, Refusal>
    requires { IsDay terms.day.0 }
    ensures talks { spec.TalkedFile (scene J.Source O.Sink E.Sink S.Shelf M.Maker)
        S.Shelf M.Maker name terms.allow terms.day outside.old outside.new result }
    ensures kind { IfErr result IsOfStored }
{
    let source = Origin::File(name);
    match read_text(alloc, &source, outside) {
        Ok(text) => talk_text(rt, alloc, text.as_slice(), terms, outside, steps),
        Err(refusal) => Err(refusal),
    }
}

/// One connection to a store.
fn talk_over<J: Source, O: Sink, E: Sink, S: Shelf, M: Maker, W: Wait, L: Ledger>(
    rt: &W,
    alloc: Global,
    talk: &StoreTalk,
    outside: &mut Outside<J, O, E, S, M>,
    steps: &mut Steps<L>,
) -> Result<ConnEnd, Refusal>
    requires { IsDay talk.now.terms.day.0 }
    ensures talks { spec.TalkedStore (scene J.Source O.Sink E.Sink S.Shelf M.Maker)
        S.Shelf S.Disk.Disk M.Maker talk.now.store talk.now.terms.allow talk.now.terms.day
        outside.old outside.new result }
    ensures kind { IfErr result IsOfStored }
{
    match talk_store(
        rt,
        alloc,
        talk,
        &mut outside.shelf,
        &mut outside.streams,
        &mut outside.maker,
        steps,
    ) {
        Ok(end) => Ok(end),
        Err(refusal) => Err(refuse_journal(alloc, &talk.store, &refusal)),
    }
}

/// One connection over the input and the output, on a day: how it ended, or why there was none.
pub(crate) fn talk<
    J: Source,
    O: Sink,
    E: Sink,
    S: Shelf,
    M: Maker,
    W: Threads + Wait + Sync,
    L: Ledger,
>(
    rt: &W,
    alloc: Global,
    what: Talking,
    day: Day,
    outside: &mut Outside<J, O, E, S, M>,
    steps: &mut Steps<L>,
) -> Result<ConnEnd, Refusal>
    requires { IsDay day.0 }
    ensures talks { spec.TalkedOver (scene J.Source O.Sink E.Sink S.Shelf M.Maker)
        S.Shelf S.Disk.Disk M.Maker what.origin what.allow day outside.old outside.new result }
    ensures kind { IfErr result IsOfStored }
{
    let Talking { origin, allow } = what;
    let terms = Terms { allow, day };
    match origin {
        Origin::Input => talk_text(rt, alloc, &[], terms, outside, steps),
        Origin::File(name) => talk_file(rt, alloc, name, terms, outside, steps),
        Origin::Store(store) => {
            let talk = StoreTalk { store, terms };
            talk_over(rt, alloc, &talk, outside, steps)
        }
    }
}

/// The exit status of a read or a write that failed, with its line.
fn tell_fault<E: Sink>(err: &mut E, way: Way) -> Status
    ensures told { spec.TellsEnd (ConnEnd.LinkFault way) result.0
        (E.written err.old) (E.written err.new) (E.faults err.old) (E.faults err.new) }
    ensures sound { E.HasRoom err.old (length (spec.end_line (ConnEnd.LinkFault way)))
        → result.0 ≡ spec.end_status (ConnEnd.LinkFault way) }
{
    match way {
        Way::Read => say(err, 3, b"error: read fault\n"),
        Way::Write => say(err, 4, b"error: write fault\n"),
    }
}

/// The exit status of an end. Where it isn't a good one its line is written.
pub(crate) fn tell_end<E: Sink>(err: &mut E, end: ConnEnd) -> Status
    ensures told { spec.TellsEnd end result.0
        (E.written err.old) (E.written err.new) (E.faults err.old) (E.faults err.new) }
    ensures sound { E.HasRoom err.old (length (spec.end_line end))
        → result.0 ≡ spec.end_status end }
{
    match end {
        ConnEnd::Closed => Status(0),
        ConnEnd::LinkFault { way } => tell_fault(err, way),
        ConnEnd::Memory => say(err, 6, b"error: memory\n"),
        ConnEnd::BadHead { .. }
        | ConnEnd::HeadTooLong
        | ConnEnd::BodyTooLong { .. }
        | ConnEnd::CutOff { .. }
        | ConnEnd::Spent
        | ConnEnd::HeadCut { .. } => say(err, 1, b"error: connection\n"),
    }
}
