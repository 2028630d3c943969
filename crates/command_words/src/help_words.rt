//! The words behind `--help`.
ghost use Rattle.std.specs.Prelude.{◌≡◌, IfOk, codes};
ghost use Rattle.std.specs.Str.{bytes_eq};
ghost use Rattle.hl_base.specs.Gives.{Gives};
ghost use Rattle.command_words.specs.Commands.{IsReadable};
ghost use Rattle.command_words.specs.HelpWords as spec;
ghost use Rattle.command_words.specs.Usage.{usage_cause};

use crate::chores::{Chore, chore_named};
use crate::talk_words::{misplaced, task_alone};
use crate::task::{Subject, Task};
use crate::usage::UsageFault;
use hl_base::Text;
use report_options::{Command, command_named};
use std::alloc::Global;

/// Whether a word is `serve`.
fn is_serve(word: &Text) -> bool
    ensures { result ≡ bytes_eq word.now (codes "serve") }
{
    word.as_bytes() == b"serve".as_slice()
}

/// A report, or `serve`.
fn report_subject(word: &Text, command: Option<Command>) -> Option<Subject>
    ensures { result ≡ spec.report_subject word.now command }
{
    match command {
        Some(command) => Some(Subject::Report(command)),
        None => {
            if is_serve(word) {
                Some(Subject::Serve)
            } else {
                None
            }
        }
    }
}

/// A command that is no report, or one that the word names.
fn named_subject(word: &Text, chore: Option<Chore>) -> Option<Subject>
    ensures { result ≡ spec.named_subject word.now chore }
{
    match chore {
        Some(chore) => Some(Subject::Other(chore)),
        None => report_subject(word, command_named(word.as_str())),
    }
}

/// The command that a word names.
fn subject_named(word: &Text) -> Option<Subject>
    ensures { result ≡ spec.subject_named word.now }
{
    named_subject(word, chore_named(word.as_bytes()))
}

/// Help.
fn help(subject: Subject) -> Task
    ensures task { result ≡ spec.help subject }
    ensures valid { IsReadable result }
{
    Task::Help(subject)
}

/// Help on what a word names, behind which no other word has a place.
fn help_on(
    alloc: Global,
    word: &Text,
    subject: Option<Subject>,
    rest: &[Text],
) -> Result<Task, UsageFault>
    ensures answer { Gives (λ task. task) usage_cause result
        (spec.help_on word.now subject rest.now) }
    ensures valid { IfOk result IsReadable }
{
    match subject {
        Some(subject) => task_alone(alloc, help(subject), rest),
        None => misplaced(alloc, word),
    }
}

/// Help on the command that the next word names, or on the program.
pub(crate) fn help_task(alloc: Global, words: &[Text]) -> Result<Task, UsageFault>
    ensures answer { Gives (λ task. task) usage_cause result (spec.help_task words.now) }
    ensures valid { IfOk result IsReadable }
{
    match words {
        [] => Ok(help(Subject::Program)),
        [word, rest @ ..] => help_on(alloc, word, subject_named(word), rest),
    }
}
