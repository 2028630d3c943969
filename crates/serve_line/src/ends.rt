//! What is written when a store was served, or wasn't.
ghost use Rattle.std.specs.Prelude.{◌≡◌, true, false, length};
ghost use Rattle.command_line.specs.Answers.{Says};
ghost use Rattle.serve_line.specs.Runs.{EndsServe, EndsSoundly, IsWritten, door_fault_line, end_status, sinks, sinks_of};

use command_line::{Outside, Status, refuse, say};
use hl_base::{Shelf, Sink, Source, write_all};
use query::Maker;
use refusals::Refusal;
use serve_commands::Ended;

/// Says that a call of a door failed, where one did.
fn say_end<E: Sink>(err: &mut E, failed: bool) -> Status
    ensures well { failed ≡ false → (result.0 ≡ 0) × (E.written err.new ≡ E.written err.old) }
    ensures fault { failed ≡ true → Says result.0 9 door_fault_line
        (E.written err.old) (E.written err.new) (E.faults err.old) (E.faults err.new) }
    ensures sound { (failed ≡ true → E.HasRoom err.old (length door_fault_line))
        → result.0 ≡ end_status failed }
{
    if failed {
        say(err, 9, b"error: door fault\n")
    } else {
        Status(0)
    }
}

/// Writes what is said of a store that was served. Where a call of a door failed the status is 9, and where the line can't be
/// written it is 4.
fn finish<O: Sink, E: Sink>(out: &mut O, err: &mut E, ended: &Ended) -> Status
    ensures written { IsWritten ended.now.failed ended.now.line result.0
        (sinks O.Sink E.Sink out.old err.old) (sinks O.Sink E.Sink out.new err.new) }
    ensures sound { O.HasRoom out.old (length ended.now.line)
        → (ended.now.failed ≡ true → E.HasRoom err.old (length door_fault_line))
        → result.0 ≡ end_status ended.now.failed }
{
    match write_all(out, ended.line.as_slice()) {
        Ok(()) => say_end(err, ended.failed),
        Err(_) => say(err, 4, b"error: write fault\n"),
    }
}

/// Writes what is answered to the words of `serve`.
pub(crate) fn end_serve<J: Source, O: Sink, E: Sink, S: Shelf, M: Maker>(
    outside: &mut Outside<J, O, E, S, M>,
    answer: &Result<Ended, Refusal>,
) -> Status
    ensures ends { EndsServe answer.now result.0
        (sinks_of O.Sink E.Sink outside.old) (sinks_of O.Sink E.Sink outside.new) }
    ensures soundly { EndsSoundly O.Sink E.Sink outside.old.streams.output outside.old.err
        answer.now result.0 }
    ensures stays { outside.new ≡ record outside.old {
      streams = record (outside.old.streams) { output = outside.new.streams.output };
      err = outside.new.err;
    } }
{
    match answer {
        Ok(ended) => finish(&mut outside.streams.output, &mut outside.err, ended),
        Err(refusal) => refuse(&mut outside.err, refusal),
    }
}
