//! The words of a connection and of a sample.
ghost use Rattle.std.specs.Prelude.{◌≡◌, ◌≤◌, IfOk, IfSome};
ghost use Rattle.hl_base.specs.Gives.{Gives};
ghost use Rattle.command_words.specs.Commands.{IsReadable};
ghost use Rattle.command_words.specs.TalkWords as spec;
ghost use Rattle.command_words.specs.Usage.{usage_cause};

use crate::limit::number_of;
use crate::task::{Origin, Talking, Task};
use crate::usage::UsageFault;
use desk::Allow;
use hl_base::Text;
use report_commands::WordsFault;
use sample_text::SAMPLE_LIMIT;
use std::alloc::Global;

/// The fault of a word that has no place.
pub(crate) fn misplaced(alloc: Global, word: &Text) -> Result<Task, UsageFault>
    ensures answer { Gives (λ task. task) usage_cause result (spec.misplaced_task word.now) }
    ensures valid { IfOk result IsReadable }
{
    let word = Text::copied(alloc, word.as_str())?;
    Err(UsageFault::Words(WordsFault::BadOption { word }))
}

/// What is asked for by a word after which no other has a place yet.
pub(crate) fn task_alone(alloc: Global, task: Task, rest: &[Text]) -> Result<Task, UsageFault>
    requires { IsReadable task }
    ensures answer { Gives (λ task. task) usage_cause result (spec.task_alone task rest.now) }
    ensures valid { IfOk result IsReadable }
{
    match rest {
        [] => Ok(task),
        [next, ..] => misplaced(alloc, next),
    }
}

/// What the requests of a connection may do: add, where nothing is said.
fn allow_or_default(allow: Option<Allow>) -> Allow
    ensures { result ≡ spec.allow_or_default allow }
{
    match allow {
        Some(allow) => allow,
        None => Allow::Add,
    }
}

/// A connection to a journal.
pub(crate) fn talk_task(origin: Origin, allow: Option<Allow>) -> Task
    ensures task { result ≡ spec.talk_task origin allow }
    ensures valid { IsReadable result }
{
    let allow = allow_or_default(allow);
    Task::Talk(Talking { origin, allow })
}

/// A sample of so many entries.
fn sample(count: u64) -> Task
    requires { count ≤ 100000 }
    ensures task { result ≡ spec.sample count }
    ensures valid { IsReadable result }
{
    Task::Sample(count)
}

/// A sample of the count that a word writes, if it does.
fn sample_of(
    alloc: Global,
    word: &Text,
    count: Option<u64>,
    rest: &[Text],
) -> Result<Task, UsageFault>
    requires { IfSome count (λ n. n ≤ 100000) }
    ensures answer { Gives (λ task.
        task) usage_cause result (spec.sample_of word.now count rest.now) }
    ensures valid { IfOk result IsReadable }
{
    match count {
        Some(count) => task_alone(alloc, sample(count), rest),
        None => misplaced(alloc, word),
    }
}

/// A sample of as many entries as the words say, from 1 to 100,000.
pub(crate) fn sample_task(alloc: Global, words: &[Text]) -> Result<Task, UsageFault>
    ensures answer { Gives (λ task. task) usage_cause result (spec.sample_task words.now) }
    ensures valid { IfOk result IsReadable }
{
    match words {
        [] => Err(UsageFault::Missing),
        [word, rest @ ..] => {
            let count = number_of(SAMPLE_LIMIT, word.as_bytes());
            sample_of(alloc, word, count, rest)
        }
    }
}
