//! What the words of the program ask for.
ghost use Rattle.std.specs.Prelude.{◌≡◌, ◌∷◌, IfOk, codes};
ghost use Rattle.std.specs.Str.{bytes_eq};
ghost use Rattle.hl_base.specs.Gives.{Gives};
ghost use Rattle.hl_time.specs.Calendar.{IsDay};
ghost use Rattle.plan_commands.specs.Commands.{given_of};
ghost use Rattle.report_commands.specs.declared.fault.WordsFault.TheVariants as words_fault;
ghost use Rattle.report_options.specs.Options.{IsValid};
ghost use Rattle.refusals.specs.Refusing.{Refuses};
ghost use Rattle.command_words.specs.Chores as chores;
ghost use Rattle.command_words.specs.Commands as spec;
ghost use Rattle.command_words.specs.Usage.{usage_cause};
ghost use Rattle.command_words.specs.declared.usage.UsageFault.TheVariants as usages;

use crate::chore_tasks::{chore_task, file_origin, store_origin};
use crate::chores::chore_named;
use crate::help_words::help_task;
use crate::talk_words::task_alone;
use crate::task::{Origin, Task, TextTask};
use crate::usage::UsageFault;
use book_commands::Work;
use hl_base::{Bytes, Memory, Text};
use hl_time::Day;
use plan_commands::read_program_report;
use refusals::{Refusal, words_line};
use report_commands::{Asked, WordsFault};
use report_options::Given;
use std::alloc::Global;

/// Whether a word is `--help`.
fn is_help(word: &Text) -> bool
    ensures { result ≡ bytes_eq word.now (codes "--help") }
{
    word.as_bytes() == b"--help".as_slice()
}

/// Whether a word is `--version`.
fn is_version(word: &Text) -> bool
    ensures { result ≡ bytes_eq word.now (codes "--version") }
{
    word.as_bytes() == b"--version".as_slice()
}

/// Where the journal is that is named; a file and a store aren't both.
fn given_origin(given: Given) -> Origin
    ensures { result ≡ spec.given_origin given }
{
    let Given { file, store } = given;
    match store {
        Some(name) => store_origin(name),
        None => match file {
            Some(name) => file_origin(name),
            None => Origin::Input,
        },
    }
}

/// A report over the journal that is named.
fn report_given(given: Given, asked: Asked) -> Task
    requires { IsValid asked.options }
    ensures task { result ≡ spec.report_given given asked }
    ensures valid { spec.IsReadable result }
{
    let origin = given_origin(given);
    let work = Work::Report(asked);
    Task::Over(TextTask { origin, work })
}

/// The report that the words ask for.
fn report_task(alloc: Global, words: &[Text], day: Day) -> Result<Task, UsageFault>
    requires { IsDay day.0 }
    ensures answer { Gives (λ task. task) usage_cause result
        (spec.report_task (given_of day.0 words.now)) }
    ensures valid { IfOk result spec.IsReadable }
{
    let (given, asked) = read_program_report(alloc, words, day)?;
    Ok(report_given(given, asked))
}

/// What a command asks for that is no report, or a report.
fn text_words(
    alloc: Global,
    word: &Text,
    rest: &[Text],
    words: &[Text],
    day: Day,
) -> Result<Task, UsageFault>
    requires day { IsDay day.0 }
    requires all { words.now ≡ word.now ∷ rest.now }
    ensures answer { Gives (λ task. task) usage_cause result
        (spec.chore_or_report (chores.chore_named word.now) day.0 word.now rest.now) }
    ensures valid { IfOk result spec.IsReadable }
{
    match chore_named(word.as_bytes()) {
        Some(chore) => chore_task(alloc, chore, rest),
        None => report_task(alloc, words, day),
    }
}

/// What the first word asks for, with those behind it.
fn task_at(
    alloc: Global,
    word: &Text,
    rest: &[Text],
    words: &[Text],
    day: Day,
) -> Result<Task, UsageFault>
    requires day { IsDay day.0 }
    requires all { words.now ≡ word.now ∷ rest.now }
    ensures answer { Gives (λ task. task) usage_cause result
        (spec.task_at day.0 word.now rest.now) }
    ensures valid { IfOk result spec.IsReadable }
{
    if is_help(word) {
        help_task(alloc, rest)
    } else if is_version(word) {
        task_alone(alloc, Task::Version, rest)
    } else {
        text_words(alloc, word, rest, words, day)
    }
}

/// What the words ask for on a day: something of a text or of a store, a connection, a sample, or what the program says of
/// itself.
pub fn read_words(alloc: Global, words: &[Text], day: Day) -> Result<Task, UsageFault>
    requires { IsDay day.0 }
    ensures answer { Gives (λ task. task) usage_cause result (spec.task_of day.0 words.now) }
    ensures valid { IfOk result spec.IsReadable }
{
    match words {
        [] => Err(UsageFault::Words(WordsFault::NoCommand {
            word: Text::new(alloc),
        })),
        [word, rest @ ..] => task_at(alloc, word, rest, words, day),
    }
}

/// The line of what is wrong with words.
fn fault_line(alloc: Global, fault: &UsageFault) -> Result<Bytes, Memory>
    ensures { IfOk result (λ line. line ≡ spec.line_of_usage fault.now) }
{
    match fault {
        UsageFault::Words(fault) => words_line(alloc, fault),
        UsageFault::Missing => error_lines::usage(alloc, ""),
    }
}

/// The line of words that have no reading.
fn usage(alloc: Global, words: &[Text], fault: &UsageFault) -> Result<Bytes, Memory>
    ensures { IfOk result (λ line. line ≡ spec.usage_of words.now fault.now) }
{
    match words {
        [] => error_lines::usage(alloc, ""),
        [_, ..] => fault_line(alloc, fault),
    }
}

/// The refusal of words that have no reading.
pub fn refuse_words(alloc: Global, words: &[Text], fault: &UsageFault) -> Refusal
    ensures line { Refuses result 2 (spec.usage_of words.now fault.now) }
    ensures memory { fault.now ≡ usages.Words words_fault.Memory → result ≡ Refusal.Memory }
{
    if matches!(fault, UsageFault::Words(WordsFault::Memory)) {
        return Refusal::Memory;
    }
    match usage(alloc, words, fault) {
        Ok(line) => Refusal::Line { status: 2, line },
        Err(Memory) => Refusal::Memory,
    }
}
