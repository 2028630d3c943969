//! The words of `explain`, over a journal or over a file of a bank.
ghost use Rattle.std.specs.Prelude.{◌≡◌, IfOk};
ghost use Rattle.hl_base.specs.Gives.{Gives};
ghost use Rattle.command_words.specs.Commands.{IsReadable};
ghost use Rattle.command_words.specs.ExplainWords as spec;
ghost use Rattle.command_words.specs.StoreWords.{name_alone};
ghost use Rattle.command_words.specs.Usage.{usage_cause};

use crate::said::Named;
use crate::store_words::{name_alone, rules_or_default};
use crate::talk_words::misplaced;
use crate::task::{Explaining, Origin, StoreTask, Task, TextTask};
use crate::usage::UsageFault;
use book_commands::Work;
use hl_base::Text;
use std::alloc::Global;

/// The first fault of a journal.
fn explaining_text(origin: Origin) -> Task
    ensures task { result ≡ spec.explaining_text origin }
    ensures valid { IsReadable result }
{
    let work = Work::Explain;
    Task::Over(TextTask { origin, work })
}

/// The first fault of a journal, where no rules of a file are given: they need the name of the file.
fn explain_text(origin: Origin, rules: Option<Text>) -> Result<Task, UsageFault>
    ensures answer { Gives (λ task. task) usage_cause result (spec.explain_text origin rules) }
    ensures valid { IfOk result IsReadable }
{
    match rules {
        Some(_) => Err(UsageFault::Missing),
        None => Ok(explaining_text(origin)),
    }
}

/// Why a file of a bank isn't imported.
fn explaining_file(file: Text, rules: Text) -> Task
    ensures task { result ≡ spec.explaining_file file rules }
    ensures valid { IsReadable result }
{
    Task::Stored(StoreTask::Explain(Explaining { file, rules }))
}

/// Why the file of a bank that some words name isn't imported.
fn explain_named(
    alloc: Global,
    rules: Option<Text>,
    file: &Text,
    rest: &[Text],
) -> Result<Task, UsageFault>
    ensures answer { Gives (λ task. task) usage_cause result
        (spec.explain_of rules (name_alone file.now rest.now)) }
    ensures valid { IfOk result IsReadable }
{
    let file = name_alone(alloc, file, rest)?;
    let rules = rules_or_default(alloc, rules, &file)?;
    Ok(explaining_file(file, rules))
}

/// Whether no journal is named, neither the input, by `-`, nor another one.
pub(crate) fn is_unnamed(journal: &Named) -> bool
    ensures { result ≡ spec.is_unnamed journal.now }
{
    match journal {
        Named::Unnamed => true,
        Named::File(_) | Named::Store { .. } | Named::Both { .. } => false,
    }
}

/// Why the file of a bank that some words name isn't imported; it has no place beside a journal that is named.
fn explain_file(
    alloc: Global,
    unnamed: bool,
    rules: Option<Text>,
    file: &Text,
    rest: &[Text],
) -> Result<Task, UsageFault>
    ensures answer { Gives (λ task. task) usage_cause result
        (spec.explain_file unnamed rules file.now rest.now) }
    ensures valid { IfOk result IsReadable }
{
    if unnamed {
        explain_named(alloc, rules, file, rest)
    } else {
        misplaced(alloc, file)
    }
}

/// The first fault of a journal, or why the file of a bank that the words name isn't imported.
pub(crate) fn explain_task(
    alloc: Global,
    unnamed: bool,
    origin: Origin,
    rules: Option<Text>,
    words: &[Text],
) -> Result<Task, UsageFault>
    ensures answer { Gives (λ task. task) usage_cause result
        (spec.explain_task unnamed origin rules words.now) }
    ensures valid { IfOk result IsReadable }
{
    match words {
        [] => explain_text(origin, rules),
        [file, rest @ ..] => explain_file(alloc, unnamed, rules, file, rest),
    }
}
