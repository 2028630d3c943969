//! The program's run over its words, its input, its files and its outputs.
ghost use Rattle.std.specs.Prelude.{◌≡◌, ◌≢◌, ◌⊎◌, ◌≤◌, codes, false, length};
ghost use Rattle.std.specs.Str.{bytes_eq};
ghost use Rattle.hl_base.specs.Causes.{Rose};
ghost use Rattle.hl_time.specs.Calendar.{IsDay};
ghost use Rattle.book_commands.specs.Works.{IsWorkable};
ghost use Rattle.command_line.specs.Answers.{IsStatus, Says, Wrote, WrotePrefix, line_of, status_of};
ghost use Rattle.command_words.specs.Commands.{IsReadable, task_of};
ghost use Rattle.command_words.specs.Connections.{IsPlain, talks};
ghost use Rattle.command_line.specs.Complete.{Completes, CompletesTask};
ghost use Rattle.refusals.specs.Errors.{write_fault_line};
ghost use Rattle.command_line.specs.Runs.{RunsText, TextSoundly, Runs, RunsSoundly, RunsTask, TaskSoundly};
ghost use Rattle.command_line.specs.Scenes.{scene, soundness};
ghost use Rattle.command_line.specs.Samples.{RunsSample};
ghost use Rattle.command_line.specs.StoreRuns.{RunsStored};
ghost use Rattle.command_line.specs.Talks.{RunsTalk};
ghost use Rattle.command_line.specs.Tasks.{Stores, StoresTask};

use crate::answering::answer;
use crate::help::{help_of, version_text};
use crate::outside::Outside;
use crate::sample::answer_sample;
use crate::store_tasks::answer_stored;
use crate::talk::{talk, tell_end};
use command_words::{StoreTask, Talking, Task, TextTask, read_words, refuse_words};
use hl_base::{Shelf, Sink, Source, Steps, Text, write_all};
use hl_time::Day;
use query::Maker;
use refusals::Refusal;
use std::alloc::Global;
use std::sync::Wait;
use std::sync::ledger::Ledger;
use std::thread::Threads;

/// An exit status.
#[derive(Clone, Copy, Debug, PartialEq, Eq)]
pub struct Status(pub u8);

/// The exit status of a refusal, and the line that says why.
fn status_and_line(refusal: &Refusal) -> (u8, &[u8])
    ensures status { result.0 ≡ status_of refusal.now }
    ensures line { result.1.now ≡ line_of refusal.now }
{
    match refusal {
        Refusal::Line { status, line } => (*status, line.as_slice()),
        Refusal::Pattern { line, .. } => (1, line.as_slice()),
        Refusal::ReadFault => (3, b"error: read fault\n"),
        Refusal::DiskFault => (5, b"error: disk fault\n"),
        Refusal::Memory => (6, b"error: memory\n"),
    }
}

/// Writes a line that says why a run doesn't end well; where it can't be written the status is 4.
pub fn say<E: Sink>(err: &mut E, status: u8, line: &[u8]) -> Status
    ensures told { Says result.0 status line.now
        (E.written err.old) (E.written err.new) (E.faults err.old) (E.faults err.new) }
    ensures sound { E.HasRoom err.old (length line.now) → result.0 ≡ status }
{
    match write_all(err, line) {
        Ok(()) => Status(status),
        Err(_) => Status(4),
    }
}

/// Writes the line that says why there is no output; where it can't be written the status is 4.
pub fn refuse<E: Sink>(err: &mut E, refusal: &Refusal) -> Status
    ensures told { Says result.0 (status_of refusal.now) (line_of refusal.now)
        (E.written err.old) (E.written err.new) (E.faults err.old) (E.faults err.new) }
    ensures sound { E.HasRoom err.old (length (line_of refusal.now))
        → result.0 ≡ status_of refusal.now }
{
    let (status, line) = status_and_line(refusal);
    say(err, status, line)
}

/// Writes a command's output; where it can't all be written, the error line says so and the status is 4.
fn finish<O: Sink, E: Sink>(out: &mut O, err: &mut E, output: &[u8]) -> Status
    ensures statuses { (result.0 ≡ 0) ⊎ (result.0 ≡ 4) }
    ensures written { result.0 ≡ 0 → Wrote (O.written out.old) (O.written out.new) output.now }
    ensures quiet { result.0 ≡ 0 → E.written err.new ≡ E.written err.old }
    ensures prefix { WrotePrefix (O.written out.old) (O.written out.new) output.now }
    ensures rose { result.0 ≡ 4 → Rose (O.faults out.old) (O.faults out.new) }
    ensures said { result.0 ≡ 4 → Says result.0 4 write_fault_line
        (E.written err.old) (E.written err.new) (E.faults err.old) (E.faults err.new) }
    ensures sound { O.HasRoom out.old (length output.now) → result.0 ≡ 0 }
{
    match write_all(out, output) {
        Ok(()) => Status(0),
        Err(_) => say(err, 4, b"error: write fault\n"),
    }
}

/// Runs what is asked of a text: reads it, and writes the output or the line that says why there is none.
fn run_text<J: Source, O: Sink, E: Sink, S: Shelf, M: Maker, R: Threads + Sync, L: Ledger>(
    rt: &R,
    alloc: Global,
    task: &TextTask,
    day: Day,
    outside: &mut Outside<J, O, E, S, M>,
    steps: &mut Steps<L>,
) -> Status
    requires day { IsDay day.0 }
    requires valid { IsWorkable task.now.work }
    ensures statuses { IsStatus result.0 }
    ensures runs { RunsText task.now day.0 result.0
        (scene J.Source O.Sink E.Sink S.Shelf M.Maker outside.old)
        (scene J.Source O.Sink E.Sink S.Shelf M.Maker outside.new) }
    ensures sound { TextSoundly task.now day.0 result.0
        (scene J.Source O.Sink E.Sink S.Shelf M.Maker outside.old)
        (soundness J.Source O.Sink E.Sink S.Shelf outside.old) }
{
    match answer(rt, alloc, task, day, outside, steps) {
        Ok(output) => finish(
            &mut outside.streams.output,
            &mut outside.err,
            output.as_slice(),
        ),
        Err(refusal) => refuse(&mut outside.err, &refusal),
    }
}

/// Runs what is asked of a store that changes: makes it or edits it, and writes the output or the line that says why not.
fn run_stored<J: Source, O: Sink, E: Sink, S: Shelf, M: Maker, L: Ledger>(
    alloc: Global,
    task: StoreTask,
    day: Day,
    outside: &mut Outside<J, O, E, S, M>,
    steps: &mut Steps<L>,
) -> Status
    requires day { IsDay day.0 }
    ensures statuses { IsStatus result.0 }
    ensures read { result.0 ≢ 2 }
    ensures stored { RunsStored J.Source (scene J.Source O.Sink E.Sink S.Shelf M.Maker)
        (soundness J.Source O.Sink E.Sink S.Shelf) S.Shelf S.Disk.Disk M.Maker task day result.0
        outside.old outside.new }
{
    match answer_stored(alloc, task, day, outside, steps) {
        Ok(output) => finish(
            &mut outside.streams.output,
            &mut outside.err,
            output.as_slice(),
        ),
        Err(refusal) => refuse(&mut outside.err, &refusal),
    }
}

/// Runs one connection over the input and the output, and tells how it ended, or why there was none.
fn run_talk<J: Source, O: Sink, E: Sink, S: Shelf, M: Maker, W: Threads + Wait + Sync, L: Ledger>(
    rt: &W,
    alloc: Global,
    what: Talking,
    day: Day,
    outside: &mut Outside<J, O, E, S, M>,
    steps: &mut Steps<L>,
) -> Status
    requires day { IsDay day.0 }
    ensures statuses { IsStatus result.0 }
    ensures read { result.0 ≢ 2 }
    ensures talked { RunsTalk (scene J.Source O.Sink E.Sink S.Shelf M.Maker)
        (soundness J.Source O.Sink E.Sink S.Shelf) S.Shelf S.Disk.Disk M.Maker what day result.0
        outside.old outside.new }
{
    match talk(rt, alloc, what, day, outside, steps) {
        Ok(end) => tell_end(&mut outside.err, end),
        Err(refusal) => refuse(&mut outside.err, &refusal),
    }
}

/// Tells a sample, or why there is none.
fn run_sample<J: Source, O: Sink, E: Sink, S: Shelf, M: Maker, R: Threads + Sync, L: Ledger>(
    rt: &R,
    alloc: Global,
    count: u64,
    outside: &mut Outside<J, O, E, S, M>,
    steps: &mut Steps<L>,
) -> Status
    requires few { count ≤ 100000 }
    ensures statuses { IsStatus result.0 }
    ensures read { result.0 ≢ 2 }
    ensures sampled { RunsSample (scene J.Source O.Sink E.Sink S.Shelf M.Maker)
        (soundness J.Source O.Sink E.Sink S.Shelf) count result.0 outside.old outside.new }
{
    match answer_sample(rt, alloc, count, steps) {
        Ok(output) => finish(
            &mut outside.streams.output,
            &mut outside.err,
            output.as_slice(),
        ),
        Err(refusal) => refuse(&mut outside.err, &refusal),
    }
}

/// Runs what is asked for that is no connection: it waits for nobody.
fn run_task<J: Source, O: Sink, E: Sink, S: Shelf, M: Maker, R: Threads + Sync, L: Ledger>(
    rt: &R,
    alloc: Global,
    task: Task,
    day: Day,
    outside: &mut Outside<J, O, E, S, M>,
    steps: &mut Steps<L>,
) -> Status
    requires day { IsDay day.0 }
    requires valid { IsReadable task }
    requires plain { IsPlain task }
    ensures statuses { IsStatus result.0 }
    ensures runs { RunsTask day.0 result.0
        (scene J.Source O.Sink E.Sink S.Shelf M.Maker outside.old)
        (scene J.Source O.Sink E.Sink S.Shelf M.Maker outside.new) task }
    ensures sound { TaskSoundly day.0 result.0
        (scene J.Source O.Sink E.Sink S.Shelf M.Maker outside.old)
        (soundness J.Source O.Sink E.Sink S.Shelf outside.old) task }
    ensures complete { CompletesTask day.0 result.0
        (scene J.Source O.Sink E.Sink S.Shelf M.Maker outside.old)
        (scene J.Source O.Sink E.Sink S.Shelf M.Maker outside.new) task }
    ensures stored { StoresTask J.Source (scene J.Source O.Sink E.Sink S.Shelf M.Maker)
        (soundness J.Source O.Sink E.Sink S.Shelf) S.Shelf S.Disk.Disk M.Maker day result.0
        outside.old outside.new task }
{
    match task {
        Task::Over(given) => run_text(rt, alloc, &given, day, outside, steps),
        Task::Stored(what) => run_stored(alloc, what, day, outside, steps),
        Task::Talk(_) => unreachable!(),
        Task::Sample(count) => run_sample(rt, alloc, count, outside, steps),
        Task::Help(subject) => finish(
            &mut outside.streams.output,
            &mut outside.err,
            help_of(subject).as_bytes(),
        ),
        Task::Version => finish(
            &mut outside.streams.output,
            &mut outside.err,
            version_text().as_bytes(),
        ),
    }
}

/// Runs what is asked for: only a connection may wait.
fn run_any_task<
    J: Source,
    O: Sink,
    E: Sink,
    S: Shelf,
    M: Maker,
    W: Threads + Wait + Sync,
    L: Ledger,
>(
    rt: &W,
    alloc: Global,
    task: Task,
    day: Day,
    outside: &mut Outside<J, O, E, S, M>,
    steps: &mut Steps<L>,
) -> Status
    requires day { IsDay day.0 }
    requires valid { IsReadable task }
    ensures statuses { IsStatus result.0 }
    ensures runs { RunsTask day.0 result.0
        (scene J.Source O.Sink E.Sink S.Shelf M.Maker outside.old)
        (scene J.Source O.Sink E.Sink S.Shelf M.Maker outside.new) task }
    ensures sound { TaskSoundly day.0 result.0
        (scene J.Source O.Sink E.Sink S.Shelf M.Maker outside.old)
        (soundness J.Source O.Sink E.Sink S.Shelf outside.old) task }
    ensures complete { CompletesTask day.0 result.0
        (scene J.Source O.Sink E.Sink S.Shelf M.Maker outside.old)
        (scene J.Source O.Sink E.Sink S.Shelf M.Maker outside.new) task }
    ensures stored { StoresTask J.Source (scene J.Source O.Sink E.Sink S.Shelf M.Maker)
        (soundness J.Source O.Sink E.Sink S.Shelf) S.Shelf S.Disk.Disk M.Maker day result.0
        outside.old outside.new task }
{
    match task {
        Task::Talk(what) => run_talk(rt, alloc, what, day, outside, steps),
        other => run_task(rt, alloc, other, day, outside, steps),
    }
}

/// Whether a word is `talk`.
fn names_talk(word: &Text) -> bool
    ensures { result ≡ bytes_eq word.now (codes "talk") }
{
    word.as_bytes() == b"talk".as_slice()
}

/// Whether the words are those of a connection: the first is `talk`.
pub fn asks_talk(words: &[Text]) -> bool
    ensures { result ≡ talks words.now }
{
    match words {
        [] => false,
        [word, ..] => names_talk(word),
    }
}

/// Runs the program over words whose first isn't `talk`, as `run_waiting` does over any: it waits for nobody. Threads that read a
/// text are its own, and are joined within the call.
pub fn run<J: Source, O: Sink, E: Sink, S: Shelf, M: Maker, R: Threads + Sync, L: Ledger>(
    rt: &R,
    alloc: Global,
    words: &[Text],
    day: Day,
    outside: &mut Outside<J, O, E, S, M>,
    steps: &mut Steps<L>,
) -> Status
    requires day { IsDay day.0 }
    requires plain { talks words.now ≡ false }
    ensures statuses { IsStatus result.0 }
    ensures runs { Runs words.now day.0 result.0
        (scene J.Source O.Sink E.Sink S.Shelf M.Maker outside.old)
        (scene J.Source O.Sink E.Sink S.Shelf M.Maker outside.new) (task_of day.0 words.now) }
    ensures sound { RunsSoundly words.now day.0 result.0
        (scene J.Source O.Sink E.Sink S.Shelf M.Maker outside.old)
        (soundness J.Source O.Sink E.Sink S.Shelf outside.old) (task_of day.0 words.now) }
    ensures complete { Completes day.0 result.0
        (scene J.Source O.Sink E.Sink S.Shelf M.Maker outside.old)
        (scene J.Source O.Sink E.Sink S.Shelf M.Maker outside.new) (task_of day.0 words.now) }
    ensures stored { Stores J.Source (scene J.Source O.Sink E.Sink S.Shelf M.Maker)
        (soundness J.Source O.Sink E.Sink S.Shelf) S.Shelf S.Disk.Disk M.Maker day result.0
        outside.old outside.new (task_of day.0 words.now) }
{
    match read_words(alloc, words, day) {
        Ok(task) => run_task(rt, alloc, task, day, outside, steps),
        Err(fault) => refuse(&mut outside.err, &refuse_words(alloc, words, &fault)),
    }
}

/// Runs what words ask for that may be those of a connection.
fn run_words<J: Source, O: Sink, E: Sink, S: Shelf, M: Maker, W: Threads + Wait + Sync, L: Ledger>(
    rt: &W,
    alloc: Global,
    words: &[Text],
    day: Day,
    outside: &mut Outside<J, O, E, S, M>,
    steps: &mut Steps<L>,
) -> Status
    requires { IsDay day.0 }
    ensures statuses { IsStatus result.0 }
    ensures runs { Runs words.now day.0 result.0
        (scene J.Source O.Sink E.Sink S.Shelf M.Maker outside.old)
        (scene J.Source O.Sink E.Sink S.Shelf M.Maker outside.new) (task_of day.0 words.now) }
    ensures sound { RunsSoundly words.now day.0 result.0
        (scene J.Source O.Sink E.Sink S.Shelf M.Maker outside.old)
        (soundness J.Source O.Sink E.Sink S.Shelf outside.old) (task_of day.0 words.now) }
    ensures complete { Completes day.0 result.0
        (scene J.Source O.Sink E.Sink S.Shelf M.Maker outside.old)
        (scene J.Source O.Sink E.Sink S.Shelf M.Maker outside.new) (task_of day.0 words.now) }
    ensures stored { Stores J.Source (scene J.Source O.Sink E.Sink S.Shelf M.Maker)
        (soundness J.Source O.Sink E.Sink S.Shelf) S.Shelf S.Disk.Disk M.Maker day result.0
        outside.old outside.new (task_of day.0 words.now) }
{
    match read_words(alloc, words, day) {
        Ok(task) => run_any_task(rt, alloc, task, day, outside, steps),
        Err(fault) => refuse(&mut outside.err, &refuse_words(alloc, words, &fault)),
    }
}

/// Runs the program: reads what the words ask for, and writes the answer or the line that says why there is none.
/// The status is 0 where all was done; 1 where the text has a fault, the query, a rule or the range of a report refuses, a
/// check fails, accounts can't be closed, a time log isn't read, or a connection ended badly; 2 where the words have no
/// reading; 3 where the input, the file or the store couldn't be read; 4 where an output couldn't be written; 5 where a
/// disk of the store failed; 6 where memory ran out; 7 where the text, what rules make or a report is past a limit; and 8
/// where there is no file or no store of that name. Dates without a year have that of the day, and in a store they don't
/// read. `talk` answers the requests of one connection over the input and the output, to a journal in memory that begins as the
/// text of a file or empty, or to a store; what a request is answered sets no status, but how the connection ends does. Its words
/// alone may wait: for the lock under which the journal lies, of which nobody else has a pass. All other words are run by `run`,
/// which waits for nobody. No file is changed but those of a store: one that is read keeps its image.
pub fn run_waiting<
    J: Source,
    O: Sink,
    E: Sink,
    S: Shelf,
    M: Maker,
    W: Threads + Wait + Sync,
    L: Ledger,
>(
    rt: &W,
    alloc: Global,
    words: &[Text],
    day: Day,
    outside: &mut Outside<J, O, E, S, M>,
    steps: &mut Steps<L>,
) -> Status
    requires { IsDay day.0 }
    ensures statuses { IsStatus result.0 }
    ensures runs { Runs words.now day.0 result.0
        (scene J.Source O.Sink E.Sink S.Shelf M.Maker outside.old)
        (scene J.Source O.Sink E.Sink S.Shelf M.Maker outside.new) (task_of day.0 words.now) }
    ensures sound { RunsSoundly words.now day.0 result.0
        (scene J.Source O.Sink E.Sink S.Shelf M.Maker outside.old)
        (soundness J.Source O.Sink E.Sink S.Shelf outside.old) (task_of day.0 words.now) }
    ensures complete { Completes day.0 result.0
        (scene J.Source O.Sink E.Sink S.Shelf M.Maker outside.old)
        (scene J.Source O.Sink E.Sink S.Shelf M.Maker outside.new) (task_of day.0 words.now) }
    ensures stored { Stores J.Source (scene J.Source O.Sink E.Sink S.Shelf M.Maker)
        (soundness J.Source O.Sink E.Sink S.Shelf) S.Shelf S.Disk.Disk M.Maker day result.0
        outside.old outside.new (task_of day.0 words.now) }
{
    if asks_talk(words) {
        run_words(rt, alloc, words, day, outside, steps)
    } else {
        run(rt, alloc, words, day, outside, steps)
    }
}
