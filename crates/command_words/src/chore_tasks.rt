//! What the words behind a command that is no report ask for.
ghost use Rattle.std.specs.Prelude.{◌≡◌, IfOk};
ghost use Rattle.hl_base.specs.Gives.{Gives};
ghost use Rattle.book_commands.specs.Works.{IsWorkable};
ghost use Rattle.command_words.specs.Commands as spec;
ghost use Rattle.command_words.specs.Usage.{usage_cause};

use crate::chores::Chore;
use crate::explain_words::{explain_task, is_unnamed};
use crate::said::{Named, Said, read_said};
use crate::store_words::{
    add_task, export_task, feed_task, follow_task, import_task, init_task, items_task, replace_task,
};
use crate::talk_words::{sample_task, talk_task};
use crate::task::{Origin, Task, TextTask};
use crate::usage::UsageFault;
use book_care::Check;
use book_commands::{CloseAsked, ClosingDay, Entries, LogForm, Work};
use hl_base::{List, Memory, Text};
use report_commands::WordsFault;
use std::alloc::Global;

/// A name that isn't that of the input.
fn name_of_journal(name: Text) -> Option<Text>
    ensures { result ≡ spec.name_of_journal name }
{
    if name.as_bytes() == b"-".as_slice() {
        None
    } else {
        Some(name)
    }
}

/// The file of a name, or the input.
pub(crate) fn file_origin(name: Text) -> Origin
    ensures { result ≡ spec.file_origin name }
{
    match name_of_journal(name) {
        Some(name) => Origin::File(name),
        None => Origin::Input,
    }
}

/// The store of a name, or the input.
pub(crate) fn store_origin(name: Text) -> Origin
    ensures { result ≡ spec.store_origin name }
{
    match name_of_journal(name) {
        Some(name) => Origin::Store(name),
        None => Origin::Input,
    }
}

/// Where the journal is that is named. A file and a store exclude each other.
fn origin_of(journal: Named) -> Result<Origin, UsageFault>
    ensures { Gives (λ origin. origin) usage_cause result (spec.origin_of journal) }
{
    match journal {
        Named::Unnamed => Ok(Origin::Input),
        Named::File(name) => Ok(file_origin(name)),
        Named::Store { name, .. } => Ok(store_origin(name)),
        Named::Both { earlier, later } => Err(UsageFault::Words(WordsFault::Conflict {
            a: earlier,
            b: later,
        })),
    }
}

/// What is asked of a text.
fn text_task(origin: Origin, work: Work) -> Task
    requires { IsWorkable work }
    ensures task { result ≡ spec.text_task origin work }
    ensures valid { spec.IsReadable result }
{
    Task::Over(TextTask { origin, work })
}

/// The form of a log.
fn log_form(dot: bool) -> LogForm
    ensures { result ≡ spec.log_form dot }
{
    if dot { LogForm::Dot } else { LogForm::Clock }
}

/// Some checks of a text; one at least has to be named.
#[tactic(auto, using(crate::proofs::Choosing::strict_none, crate::proofs::Choosing::strict_some))]
fn strict_task(origin: Origin, checks: List<Check>) -> Result<Task, UsageFault>
    ensures answer { Gives (λ task. task) usage_cause result (spec.strict_task origin checks) }
    ensures valid { IfOk result spec.IsReadable }
{
    if checks.len() == 0 {
        return Err(UsageFault::Missing);
    }
    Ok(text_task(origin, Work::Strict(checks)))
}

/// The account that takes the balances: `equity:closing` where none is given.
fn into_or_default(alloc: Global, into: Option<Text>) -> Result<Text, Memory>
    ensures { IfOk result (λ account. account ≡ spec.into_or_default into) }
{
    match into {
        Some(account) => Ok(account),
        None => Text::copied(alloc, "equity:closing"),
    }
}

/// One word.
fn one_word(alloc: Global, word: &str) -> Result<List<Text>, Memory>
    ensures { IfOk result (λ words. words ≡ spec.one_word word.now) }
{
    let mut words = Vec::new(alloc);
    words.push(Text::copied(alloc, word)?)?;
    Ok(List::from_vec(words))
}

/// The words of the query: `type:AL` where there are none.
#[tactic(auto, using(crate::proofs::Choosing::words_none, crate::proofs::Choosing::words_some))]
fn words_or_default(alloc: Global, words: List<Text>) -> Result<List<Text>, Memory>
    ensures { IfOk result (λ all. all ≡ spec.words_or_default words) }
{
    if words.len() == 0 {
        return one_word(alloc, "type:AL");
    }
    Ok(words)
}

/// The entries of a closing that are asked for: both where neither is, or each.
fn entries_of(closing: bool, opening: bool) -> Entries
    ensures { result ≡ spec.entries_of closing opening }
{
    match (closing, opening) {
        (true, false) => Entries::Closing,
        (false, true) => Entries::Opening,
        (true, true) | (false, false) => Entries::Both,
    }
}

/// Closing entries of a text; their day has to be given.
fn close_task(
    origin: Origin,
    entries: Entries,
    on: Option<ClosingDay>,
    into: Text,
    words: List<Text>,
) -> Result<Task, UsageFault>
    ensures answer { Gives (λ task.
        task) usage_cause result (spec.close_task origin entries on into words) }
    ensures valid { IfOk result spec.IsReadable }
{
    match on {
        Some(on) => {
            let asked = CloseAsked {
                entries,
                on,
                into,
                words,
            };
            Ok(text_task(origin, Work::Close(asked)))
        }
        None => Err(UsageFault::Missing),
    }
}

/// What a command asks for by what was said.
fn task_said(alloc: Global, chore: Chore, said: Said) -> Result<Task, UsageFault>
    ensures answer { Gives (λ task. task) usage_cause result (spec.task_said chore said) }
    ensures valid { IfOk result spec.IsReadable }
{
    let Said {
        dot,
        journal,
        on,
        into,
        closing,
        opening,
        limit,
        base,
        rules,
        remembered,
        dry,
        allow,
        checks,
        words,
    } = said;
    let unnamed = is_unnamed(&journal);
    let origin = origin_of(journal)?;
    match chore {
        Chore::Hours => Ok(text_task(origin, Work::Hours(log_form(dot)))),
        Chore::Strict => strict_task(origin, checks),
        Chore::Close => {
            let into = into_or_default(alloc, into)?;
            let words = words_or_default(alloc, words)?;
            close_task(origin, entries_of(closing, opening), on, into, words)
        }
        Chore::Explain => explain_task(alloc, unnamed, origin, rules, words.as_slice()),
        Chore::Init => init_task(alloc, origin, limit, words.as_slice()),
        Chore::Add => add_task(alloc, words.as_slice()),
        Chore::Import => import_task(alloc, dry, rules, remembered, words.as_slice()),
        Chore::Replace => replace_task(alloc, origin, base, words.as_slice()),
        Chore::Talk => Ok(talk_task(origin, allow)),
        Chore::Sample => sample_task(alloc, words.as_slice()),
        Chore::Export => export_task(alloc, words.as_slice()),
        Chore::Items => items_task(alloc, words.as_slice()),
        Chore::Feed => feed_task(alloc, words.as_slice()),
        Chore::Follow => follow_task(alloc, limit, words.as_slice()),
    }
}

/// What the words behind a command ask for.
pub(crate) fn chore_task(alloc: Global, chore: Chore, words: &[Text]) -> Result<Task, UsageFault>
    ensures answer { Gives (λ task. task) usage_cause result (spec.chore_task chore words.now) }
    ensures valid { IfOk result spec.IsReadable }
{
    let said = read_said(alloc, chore, words)?;
    task_said(alloc, chore, said)
}
