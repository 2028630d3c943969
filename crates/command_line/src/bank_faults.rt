//! Why a bank's file isn't imported: the error line of the import, with the lines that explain it.
ghost use Rattle.std.specs.Prelude.{◌≡◌, ◌++◌, IfErr, IfOk};
ghost use Rattle.store_commands.specs.Replies.{IsEditReply, csv_line, line_of, status_of};
ghost use Rattle.command_line.specs.BankFiles as spec;
ghost use Rattle.command_line.specs.StoreTasks.{IsOfStored, Loads, RefusedAs, most_imported};

use crate::files::load_file;
use crate::outside::Outside;
use crate::store_tasks::MOST_IMPORTED;
use bank_explanations::{Explanation, explain_file};
use command_words::Explaining;
use desk::{CsvFault, Reply};
use hl_base::{Bytes, Memory, Shelf, Sink, Source, Text};
use query::Maker;
use refusals::Refusal;
use std::alloc::Global;
use store_commands::reply_status;

/// The line of a reply, with lines below it.
fn line_above(alloc: Global, reply: &Reply, lines: &Bytes) -> Result<Bytes, Memory>
    requires { IsEditReply reply.now }
    ensures { IfOk result (λ text. text ≡ line_of reply.now ++ lines.now) }
{
    let line = reply.line(alloc)?;
    let mut text = line.into_vec();
    text.extend_from_slice(lines.as_slice())?;
    Ok(Bytes::from_vec(text))
}

/// The refusal that a reply is, with lines below its own.
fn refuse_above(alloc: Global, reply: &Reply, lines: &Bytes) -> Refusal
    requires { IsEditReply reply.now }
    ensures refused { RefusedAs (status_of reply.now) (line_of reply.now ++ lines.now) result }
    ensures kind { IsOfStored result }
{
    let status = reply_status(reply);
    match line_above(alloc, reply, lines) {
        Ok(line) => Refusal::Line { status, line },
        Err(Memory) => Refusal::Memory,
    }
}

/// The refusal of a file that becomes no entries, with the lines that explain it.
fn refuse_csv(alloc: Global, fault: CsvFault, lines: Bytes) -> Refusal
    ensures refused { RefusedAs 1 (csv_line fault ++ lines) result }
    ensures kind { IsOfStored result }
{
    refuse_above(alloc, &Reply::Csv(fault), &lines)
}

/// The refusal that an explanation is: the error line of an import, and the lines that explain it.
fn refuse_explained(alloc: Global, explanation: Explanation) -> Refusal
    ensures refused { RefusedAs 1 (spec.explanation_lines explanation) result }
    ensures kind { IsOfStored result }
{
    match explanation {
        Explanation::Rules { fault, lines } => refuse_csv(alloc, CsvFault::Rules(fault), lines),
        Explanation::Record { fault, lines } => refuse_csv(alloc, CsvFault::Convert(fault), lines),
    }
}

/// What is said of a file that becomes entries, or of what is wrong with it.
fn answer_found(alloc: Global, found: Option<Explanation>) -> Result<Bytes, Refusal>
    ensures told { spec.ToldFound found result }
    ensures kind { IfErr result IsOfStored }
{
    match found {
        None => Ok(Bytes::new(alloc)),
        Some(explanation) => Err(refuse_explained(alloc, explanation)),
    }
}

/// What is said of a file that was judged.
fn answer_explained(
    alloc: Global,
    found: Result<Option<Explanation>, Memory>,
) -> Result<Bytes, Refusal>
    ensures told { spec.ToldExplained found result }
    ensures kind { IfErr result IsOfStored }
{
    match found {
        Ok(found) => answer_found(alloc, found),
        Err(Memory) => Err(Refusal::Memory),
    }
}

/// What is wrong with the bytes of a file by the bytes of its rules.
fn explain_bytes<J: Source, O: Sink, E: Sink, S: Shelf, M: Maker>(
    alloc: Global,
    rules: &[u8],
    csv: &[u8],
    outside: &mut Outside<J, O, E, S, M>,
) -> Result<Bytes, Refusal>
    ensures explains { spec.ExplainsBytes M.Maker csv.now rules.now outside.old outside.new result }
    ensures kind { IfErr result IsOfStored }
{
    let found = explain_file(alloc, rules, csv, &mut outside.maker);
    answer_explained(alloc, found)
}

/// Loads the rules of a file, and says what is wrong with its bytes.
fn explain_by<J: Source, O: Sink, E: Sink, S: Shelf, M: Maker>(
    alloc: Global,
    name: &Text,
    csv: &[u8],
    outside: &mut Outside<J, O, E, S, M>,
) -> Result<Bytes, Refusal>
    ensures explains { Loads S.Shelf most_imported name.now (spec.ExplainsBytes M.Maker csv.now)
        outside.old outside.new result }
    ensures kind { IfErr result IsOfStored }
{
    match load_file(alloc, name, MOST_IMPORTED, &mut outside.shelf) {
        Ok(rules) => explain_bytes(alloc, rules.as_slice(), csv, outside),
        Err(refusal) => Err(refusal),
    }
}

/// Loads a file of a bank, and then its rules, and says what is wrong with it; nothing where it becomes entries.
pub(crate) fn explain_bank_file<J: Source, O: Sink, E: Sink, S: Shelf, M: Maker>(
    alloc: Global,
    what: &Explaining,
    outside: &mut Outside<J, O, E, S, M>,
) -> Result<Bytes, Refusal>
    ensures explains { spec.ExplainsBankFile S.Shelf M.Maker what.now outside.old outside.new
        result }
    ensures kind { IfErr result IsOfStored }
{
    match load_file(alloc, &what.file, MOST_IMPORTED, &mut outside.shelf) {
        Ok(csv) => explain_by(alloc, &what.rules, csv.as_slice(), outside),
        Err(refusal) => Err(refusal),
    }
}
