//! What is answered to a command that makes a store or edits one.
ghost use Rattle.std.specs.Prelude.{◌≡◌, ◌≢◌, ◌<◌, ◌-◌, ◌^◌, ◌+◌, ℕ, List, Some, None, Err, IfErr, IfOk, IsTrue, length};
ghost use Rattle.hl_base.specs.Causes.{Rose};
ghost use Rattle.hl_time.specs.Calendar.{IsDay};
ghost use Rattle.store_making.specs.Lines.{line_of, status_of};
ghost use Rattle.store_commands.specs.Replies.{IsEdit, IsEditReply, line_of as reply_line_of, status_of as reply_status_of};
ghost use Rattle.command_line.specs.Scenes.{scene};
ghost use Rattle.command_line.specs.StoreRuns.{AnswersStored};
ghost use Rattle.command_line.specs.StoreTasks as spec;

use crate::bank_faults::explain_bank_file;
use crate::files::load_file;
use crate::frames::{feed, follow};
use crate::outside::Outside;
use crate::previews::preview_import;
use crate::source::read_text;
use command_words::{Importing, Making, Origin, Replacing, StoreTask};
use desk::{Reply, Request};
use hl_base::{Bytes, Memory, Shelf, Sink, Source, Steps, Text};
use hl_time::Day;
use query::Maker;
use refusals::Refusal;
use std::alloc::Global;
use std::sync::ledger::Ledger;
use store_commands::{Replacement, StoreEdit, edit_store, replace_store, reply_status};
use store_making::{JournalRefusal, init_store, journal_line, journal_status};

/// The most bytes of a file that is imported, and of its rules.
pub(crate) const MOST_IMPORTED: u64 = 8_388_608;

/// The refusal of a journal, of a store of this name.
pub(crate) fn refuse_journal(alloc: Global, name: &Text, refusal: &JournalRefusal) -> Refusal
    ensures refused { spec.RefusedAs (status_of refusal.now) (line_of name.now refusal.now) result }
    ensures kind { spec.IsOfStored result }
{
    let status = journal_status(refusal);
    match journal_line(alloc, name, refusal) {
        Ok(line) => Refusal::Line { status, line },
        Err(Memory) => Refusal::Memory,
    }
}

/// A store of a text.
fn make_store<S: Shelf, L: Ledger>(
    alloc: Global,
    what: &Making,
    text: &[u8],
    shelf: &mut S,
    steps: &mut Steps<L>,
) -> Result<Bytes, Refusal>
    ensures made { spec.MadeOf S.Shelf S.Disk.Disk what.now text.now shelf.old shelf.new result }
    ensures kind { IfErr result spec.IsOfStored }
{
    match init_store(alloc, &what.store, text, what.limit, shelf, steps) {
        Ok(()) => Ok(Bytes::new(alloc)),
        Err(refusal) => Err(refuse_journal(alloc, &what.store, &refusal)),
    }
}

/// A store of the text of the input or of a file.
fn init<J: Source, O: Sink, E: Sink, S: Shelf, M: Maker, L: Ledger>(
    alloc: Global,
    what: &Making,
    outside: &mut Outside<J, O, E, S, M>,
    steps: &mut Steps<L>,
) -> Result<Bytes, Refusal>
    ensures inits { spec.InitsStore (scene J.Source O.Sink E.Sink S.Shelf M.Maker)
        S.Shelf S.Disk.Disk what.now outside.old outside.new result }
    ensures kind { IfErr result spec.IsOfStored }
{
    match read_text(alloc, &what.source, outside) {
        Ok(text) => make_store(alloc, what, text.as_slice(), &mut outside.shelf, steps),
        Err(refusal) => Err(refusal),
    }
}

/// The line of a reply with this status: the output where that is 0, and else why the edit is refused.
fn told_line(status: u8, line: Bytes) -> Result<Bytes, Refusal>
    ensures { spec.ToldLine status line result }
{
    if status == 0 {
        Ok(line)
    } else {
        Err(Refusal::Line { status, line })
    }
}

/// What is said of a reply.
pub(crate) fn answer_reply(alloc: Global, reply: &Reply) -> Result<Bytes, Refusal>
    requires { IsEditReply reply.now }
    ensures told { spec.ToldLine (reply_status_of reply.now) (reply_line_of reply.now) result }
    ensures kind { IfErr result spec.IsOfStored }
{
    let status = reply_status(reply);
    match reply.line(alloc) {
        Ok(line) => told_line(status, line),
        Err(Memory) => Err(Refusal::Memory),
    }
}

/// Asks a store for an edit.
fn edit<J: Source, O: Sink, E: Sink, S: Shelf, M: Maker, L: Ledger>(
    alloc: Global,
    what: &StoreEdit,
    outside: &mut Outside<J, O, E, S, M>,
    steps: &mut Steps<L>,
) -> Result<Bytes, Refusal>
    requires day { IsDay what.now.day.0 }
    requires edit { IsEdit what.now.request }
    ensures edits { spec.EditedBy S.Shelf S.Disk.Disk M.Maker
        what.now.store what.now.request what.now.day outside.old outside.new result }
    ensures kind { IfErr result spec.IsOfStored }
{
    match edit_store(alloc, what, &mut outside.shelf, &mut outside.maker, steps) {
        Ok(reply) => answer_reply(alloc, &reply),
        Err(refusal) => Err(refuse_journal(alloc, &what.store, &refusal)),
    }
}

/// Adds the entry that the input is to the store of a name.
fn add<J: Source, O: Sink, E: Sink, S: Shelf, M: Maker, L: Ledger>(
    alloc: Global,
    store: Text,
    day: Day,
    outside: &mut Outside<J, O, E, S, M>,
    steps: &mut Steps<L>,
) -> Result<Bytes, Refusal>
    requires { IsDay day.0 }
    ensures adds { spec.AddsEntry (scene J.Source O.Sink E.Sink S.Shelf M.Maker)
        S.Shelf S.Disk.Disk M.Maker store day outside.old outside.new result }
    ensures kind { IfErr result spec.IsOfStored }
{
    match read_text(alloc, &Origin::Input, outside) {
        Ok(entry) => {
            let request = Request::Add { entry };
            let what = StoreEdit {
                store,
                request,
                day,
            };
            edit(alloc, &what, outside, steps)
        }
        Err(refusal) => Err(refusal),
    }
}

/// The edit that imports the bytes of a file, whose rules are loaded.
fn load_rules<S: Shelf>(
    alloc: Global,
    what: Importing,
    csv: Bytes,
    day: Day,
    shelf: &mut S,
) -> Result<StoreEdit, Refusal>
    requires { IsDay day.0 }
    ensures loads { spec.LoadsRules S.Shelf what day csv shelf.old shelf.new result }
    ensures day { IfOk result (λ edit. IsDay edit.day.0) }
    ensures edit { IfOk result (λ edit. IsEdit edit.request) }
    ensures kind { IfErr result spec.IsOfStored }
{
    let Importing {
        store,
        file,
        rules,
        name,
    } = what;
    drop(file);
    match load_file(alloc, &rules, MOST_IMPORTED, shelf) {
        Ok(rules) => {
            let request = Request::Import { name, rules, csv };
            Ok(StoreEdit {
                store,
                request,
                day,
            })
        }
        Err(refusal) => Err(refusal),
    }
}

/// The edit that imports a file into a store. The file is loaded before its rules.
pub(crate) fn load_import<S: Shelf>(
    alloc: Global,
    what: Importing,
    day: Day,
    shelf: &mut S,
) -> Result<StoreEdit, Refusal>
    requires { IsDay day.0 }
    ensures loads { spec.LoadsEdit S.Shelf what day shelf.old shelf.new result }
    ensures day { IfOk result (λ edit. IsDay edit.day.0) }
    ensures edit { IfOk result (λ edit. IsEdit edit.request) }
    ensures kind { IfErr result spec.IsOfStored }
{
    match load_file(alloc, &what.file, MOST_IMPORTED, shelf) {
        Ok(csv) => load_rules(alloc, what, csv, day, shelf),
        Err(refusal) => Err(refusal),
    }
}

/// Imports a file into a store.
fn import<J: Source, O: Sink, E: Sink, S: Shelf, M: Maker, L: Ledger>(
    alloc: Global,
    what: Importing,
    day: Day,
    outside: &mut Outside<J, O, E, S, M>,
    steps: &mut Steps<L>,
) -> Result<Bytes, Refusal>
    requires { IsDay day.0 }
    ensures imports { spec.ImportsFile S.Shelf S.Disk.Disk M.Maker what day outside.old outside.new
        result }
    ensures kind { IfErr result spec.IsOfStored }
{
    match load_import(alloc, what, day, &mut outside.shelf) {
        Ok(asked) => edit(alloc, &asked, outside, steps),
        Err(refusal) => Err(refusal),
    }
}

/// Puts a text in the place of a store's.
fn replace_by<J: Source, O: Sink, E: Sink, S: Shelf, M: Maker, L: Ledger>(
    alloc: Global,
    what: &Replacing,
    text: Bytes,
    day: Day,
    outside: &mut Outside<J, O, E, S, M>,
    steps: &mut Steps<L>,
) -> Result<Bytes, Refusal>
    requires { IsDay day.0 }
    ensures replaces { spec.ReplacedBy S.Shelf S.Disk.Disk M.Maker what.now text day outside.old
        outside.new result }
    ensures kind { IfErr result spec.IsOfStored }
{
    let base = what.base;
    let edit = Replacement { text, base, day };
    match replace_store(
        alloc,
        &what.store,
        edit,
        &mut outside.shelf,
        &mut outside.maker,
        steps,
    ) {
        Ok(reply) => answer_reply(alloc, &reply),
        Err(refusal) => Err(refuse_journal(alloc, &what.store, &refusal)),
    }
}

/// Puts the text of the input or of a file in the place of a store's. It is read before the store is taken.
fn replace<J: Source, O: Sink, E: Sink, S: Shelf, M: Maker, L: Ledger>(
    alloc: Global,
    what: &Replacing,
    day: Day,
    outside: &mut Outside<J, O, E, S, M>,
    steps: &mut Steps<L>,
) -> Result<Bytes, Refusal>
    requires { IsDay day.0 }
    ensures replaces { spec.ReplacesText (scene J.Source O.Sink E.Sink S.Shelf M.Maker)
        S.Shelf S.Disk.Disk M.Maker what.now day outside.old outside.new result }
    ensures kind { IfErr result spec.IsOfStored }
{
    match read_text(alloc, &what.source, outside) {
        Ok(text) => replace_by(alloc, what, text, day, outside, steps),
        Err(refusal) => Err(refusal),
    }
}

/// What is answered to a command that makes a store, edits one, explains a file of a bank, or is over frames, before anything
/// is written.
pub(crate) fn answer_stored<J: Source, O: Sink, E: Sink, S: Shelf, M: Maker, L: Ledger>(
    alloc: Global,
    task: StoreTask,
    day: Day,
    outside: &mut Outside<J, O, E, S, M>,
    steps: &mut Steps<L>,
) -> Result<Bytes, Refusal>
    requires { IsDay day.0 }
    ensures answers { AnswersStored J.Source (scene J.Source O.Sink E.Sink S.Shelf M.Maker)
        S.Shelf S.Disk.Disk M.Maker task day outside.old outside.new result }
    ensures kind { IfErr result spec.IsOfStored }
{
    match task {
        StoreTask::Init(what) => init(alloc, &what, outside, steps),
        StoreTask::Add(store) => add(alloc, store, day, outside, steps),
        StoreTask::Import(what) => import(alloc, what, day, outside, steps),
        StoreTask::Preview(what) => preview_import(alloc, what, day, outside, steps),
        StoreTask::Explain(what) => explain_bank_file(alloc, &what, outside),
        StoreTask::Replace(what) => replace(alloc, &what, day, outside, steps),
        StoreTask::Feed(name) => feed(alloc, &name, outside),
        StoreTask::Follow(what) => follow(alloc, &what, outside),
    }
}
