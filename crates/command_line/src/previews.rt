//! What an import would add to a store, and what is said of its rules: it is written, and nothing is stored.
ghost use Rattle.std.specs.Prelude.{◌≡◌, IfErr};
ghost use Rattle.hl_time.specs.Calendar.{IsDay};
ghost use Rattle.store_text.specs.Shelved.{second_name as second_name_of};
ghost use Rattle.store_commands.specs.Replies.{IsEdit};
ghost use Rattle.command_line.specs.Answers.{IsOfFile, IsTextStatus};
ghost use Rattle.command_line.specs.Previewing as spec;
ghost use Rattle.command_line.specs.Scenes.{scene};
ghost use Rattle.command_line.specs.StoreTasks.{IsOfStored};

use crate::files::load_file;
use crate::outside::Outside;
use crate::store_tasks::{answer_reply, load_import, refuse_journal};
use command_words::Importing;
use hl_base::{Bytes, Shelf, Sink, Source, Steps, Text, write_all};
use hl_time::Day;
use query::Maker;
use refusals::Refusal;
use std::alloc::Global;
use std::sync::ledger::Ledger;
use store_commands::{Preview, StoreEdit, import_notices, preview_edit};
use store_making::JournalRefusal;
use store_text::second_name;

/// The most bytes of a file of a store.
const MOST_STORED: u64 = 1_099_511_627_776;

/// The output of a preview: what would be added, or why the edit would be refused.
fn answer_preview(alloc: Global, preview: Preview) -> Result<Bytes, Refusal>
    requires { spec.IsEditPreview preview }
    ensures told { spec.ToldPreview preview result }
    ensures kind { IfErr result IsOfStored }
{
    match preview {
        Preview::Adds(bytes) => Ok(bytes),
        Preview::Refused(reply) => answer_reply(alloc, &reply),
    }
}

/// The output of a preview of the store of this name, or why the store isn't opened.
fn answer_asked(
    alloc: Global,
    name: &Text,
    asked: Result<Preview, JournalRefusal>,
) -> Result<Bytes, Refusal>
    requires { spec.IsOfEdit asked }
    ensures told { spec.ToldAsked name.now asked result }
    ensures kind { IfErr result IsOfStored }
{
    match asked {
        Ok(preview) => answer_preview(alloc, preview),
        Err(refusal) => Err(refuse_journal(alloc, name, &refusal)),
    }
}

/// Asks what an edit would make of a store with these files.
fn preview_files<J: Source, O: Sink, E: Sink, S: Shelf, M: Maker, L: Ledger>(
    alloc: Global,
    edit: &StoreEdit,
    first: &[u8],
    second: &[u8],
    outside: &mut Outside<J, O, E, S, M>,
    steps: &mut Steps<L>,
) -> Result<Bytes, Refusal>
    requires day { IsDay edit.now.day.0 }
    requires edit { IsEdit edit.now.request }
    ensures previews { spec.PreviewsFiles M.Maker edit.now.store first.now second.now
        edit.now.request edit.now.day outside.old outside.new result }
    ensures kind { IfErr result IsOfStored }
{
    let asked = preview_edit(alloc, first, second, edit, &mut outside.maker, steps);
    answer_asked(alloc, &edit.store, asked)
}

/// No bytes where the status of a line is that of a file that is absent.
fn line_or_none(alloc: Global, status: u8, line: Bytes) -> Result<Bytes, Refusal>
    requires { IsTextStatus status }
    ensures is { result ≡ spec.line_or_none status line }
    ensures kind { IfErr result IsOfFile }
{
    if status == 8 {
        Ok(Bytes::new(alloc))
    } else {
        Err(Refusal::Line { status, line })
    }
}

/// No bytes where a file that is refused is absent.
fn unless_absent(alloc: Global, refusal: Refusal) -> Result<Bytes, Refusal>
    requires { IsOfFile refusal }
    ensures is { result ≡ spec.unless_absent refusal }
    ensures kind { IfErr result IsOfFile }
{
    match refusal {
        Refusal::Line { status, line } => line_or_none(alloc, status, line),
        Refusal::Pattern { what, line } => Err(Refusal::Pattern { what, line }),
        Refusal::ReadFault => Err(Refusal::ReadFault),
        Refusal::DiskFault => Err(Refusal::DiskFault),
        Refusal::Memory => Err(Refusal::Memory),
    }
}

/// No bytes where there is no such file.
fn or_none(alloc: Global, read: Result<Bytes, Refusal>) -> Result<Bytes, Refusal>
    requires { IfErr read IsOfFile }
    ensures is { result ≡ spec.or_none read }
    ensures kind { IfErr result IsOfFile }
{
    match read {
        Ok(bytes) => Ok(bytes),
        Err(refusal) => unless_absent(alloc, refusal),
    }
}

/// Loads the second file of a store, which may be absent, and asks what an edit would make of the store.
fn preview_named<J: Source, O: Sink, E: Sink, S: Shelf, M: Maker, L: Ledger>(
    alloc: Global,
    edit: &StoreEdit,
    first: &[u8],
    beside: &Text,
    outside: &mut Outside<J, O, E, S, M>,
    steps: &mut Steps<L>,
) -> Result<Bytes, Refusal>
    requires day { IsDay edit.now.day.0 }
    requires edit { IsEdit edit.now.request }
    ensures previews { spec.LoadsAny S.Shelf spec.most_stored beside.now (λ second.
        spec.PreviewsFiles M.Maker edit.now.store first.now second edit.now.request edit.now.day)
        outside.old outside.new result }
    ensures kind { IfErr result IsOfStored }
{
    let read = load_file(alloc, beside, MOST_STORED, &mut outside.shelf);
    match or_none(alloc, read) {
        Ok(second) => preview_files(alloc, edit, first, second.as_slice(), outside, steps),
        Err(refusal) => Err(refusal),
    }
}

/// Asks what an edit would make of a store with this first file.
fn preview_beside<J: Source, O: Sink, E: Sink, S: Shelf, M: Maker, L: Ledger>(
    alloc: Global,
    edit: &StoreEdit,
    first: &[u8],
    outside: &mut Outside<J, O, E, S, M>,
    steps: &mut Steps<L>,
) -> Result<Bytes, Refusal>
    requires day { IsDay edit.now.day.0 }
    requires edit { IsEdit edit.now.request }
    ensures previews { spec.OrMemory (spec.LoadsAny S.Shelf spec.most_stored
        (second_name_of edit.now.store) (λ second. spec.PreviewsFiles M.Maker
        edit.now.store first.now second edit.now.request edit.now.day))
        outside.old outside.new result }
    ensures kind { IfErr result IsOfStored }
{
    match second_name(alloc, &edit.store) {
        Ok(beside) => preview_named(alloc, edit, first, &beside, outside, steps),
        Err(_) => Err(Refusal::Memory),
    }
}

/// Loads the files of a store, and asks what an edit would make of it.
fn preview_store<J: Source, O: Sink, E: Sink, S: Shelf, M: Maker, L: Ledger>(
    alloc: Global,
    edit: &StoreEdit,
    outside: &mut Outside<J, O, E, S, M>,
    steps: &mut Steps<L>,
) -> Result<Bytes, Refusal>
    requires day { IsDay edit.now.day.0 }
    requires edit { IsEdit edit.now.request }
    ensures previews { spec.PreviewsStore S.Shelf M.Maker edit.now.store edit.now.request
        edit.now.day outside.old outside.new result }
    ensures kind { IfErr result IsOfStored }
{
    match load_file(alloc, &edit.store, MOST_STORED, &mut outside.shelf) {
        Ok(first) => preview_beside(alloc, edit, first.as_slice(), outside, steps),
        Err(refusal) => Err(refusal),
    }
}

/// Writes what is said of the rules of an import. Where a write fails, nothing more is said.
fn note<E: Sink>(err: &mut E, lines: &[u8])
    ensures { spec.Notes lines.now (E.written err.old) (E.written err.new)
        (E.faults err.old) (E.faults err.new) }
{
    match write_all(err, lines) {
        Ok(()) | Err(_) => {}
    }
}

/// Says these lines of the rules of an import, and asks what it would make of a store.
fn preview_noted<J: Source, O: Sink, E: Sink, S: Shelf, M: Maker, L: Ledger>(
    alloc: Global,
    edit: &StoreEdit,
    notices: &[u8],
    outside: &mut Outside<J, O, E, S, M>,
    steps: &mut Steps<L>,
) -> Result<Bytes, Refusal>
    requires day { IsDay edit.now.day.0 }
    requires edit { IsEdit edit.now.request }
    ensures previews { spec.NotesThen (scene J.Source O.Sink E.Sink S.Shelf M.Maker) notices.now
        (spec.PreviewsStore S.Shelf M.Maker edit.now.store edit.now.request edit.now.day)
        outside.old outside.new result }
    ensures kind { IfErr result IsOfStored }
{
    note(&mut outside.err, notices);
    preview_store(alloc, edit, outside, steps)
}

/// Says what there is to say of the rules of an import, and asks what it would make of a store.
fn preview_loaded<J: Source, O: Sink, E: Sink, S: Shelf, M: Maker, L: Ledger>(
    alloc: Global,
    edit: &StoreEdit,
    outside: &mut Outside<J, O, E, S, M>,
    steps: &mut Steps<L>,
) -> Result<Bytes, Refusal>
    requires day { IsDay edit.now.day.0 }
    requires edit { IsEdit edit.now.request }
    ensures previews { spec.PreviewsNoted (scene J.Source O.Sink E.Sink S.Shelf M.Maker) S.Shelf
        M.Maker edit.now.store edit.now.request edit.now.day outside.old outside.new result }
    ensures kind { IfErr result IsOfStored }
{
    match import_notices(alloc, &edit.request) {
        Ok(notices) => preview_noted(alloc, edit, notices.as_slice(), outside, steps),
        Err(_) => Err(Refusal::Memory),
    }
}

/// What importing a file would add to a store. The file is loaded first, then its rules, and then the files of the store, of
/// which none is changed. Before these the columns that the rules refer to and don't name are written to the error output.
pub(crate) fn preview_import<J: Source, O: Sink, E: Sink, S: Shelf, M: Maker, L: Ledger>(
    alloc: Global,
    what: Importing,
    day: Day,
    outside: &mut Outside<J, O, E, S, M>,
    steps: &mut Steps<L>,
) -> Result<Bytes, Refusal>
    requires { IsDay day.0 }
    ensures previews { spec.PreviewsImport (scene J.Source O.Sink E.Sink S.Shelf M.Maker) S.Shelf
        M.Maker what day outside.old outside.new result }
    ensures kind { IfErr result IsOfStored }
{
    match load_import(alloc, what, day, &mut outside.shelf) {
        Ok(asked) => preview_loaded(alloc, &asked, outside, steps),
        Err(refusal) => Err(refusal),
    }
}
