//! The words of commands over a store.
ghost use Rattle.std.specs.Prelude.{◌≡◌, IfOk};
ghost use Rattle.hl_base.specs.Gives.{Gives};
ghost use Rattle.command_words.specs.Commands.{IsReadable};
ghost use Rattle.command_words.specs.StoreWords as spec;
ghost use Rattle.command_words.specs.Usage.{usage_cause};

use crate::limit::MOST_LIMIT;
use crate::task::{Following, Importing, Making, Origin, Replacing, StoreTask, Task, TextTask};
use crate::usage::UsageFault;
use book_commands::Work;
use hl_base::{Memory, Text};
use report_commands::WordsFault;
use std::alloc::Global;

/// The fault of a word that has no place.
fn misplaced(alloc: Global, word: &Text) -> Result<Text, UsageFault>
    ensures { Gives (λ name. name) usage_cause result (spec.misplaced_name word.now) }
{
    let word = Text::copied(alloc, word.as_str())?;
    Err(UsageFault::Words(WordsFault::BadOption { word }))
}

/// A name with no word behind it.
pub(crate) fn name_alone(alloc: Global, name: &Text, rest: &[Text]) -> Result<Text, UsageFault>
    ensures { Gives (λ name. name) usage_cause result (spec.name_alone name.now rest.now) }
{
    match rest {
        [] => Ok(Text::copied(alloc, name.as_str())?),
        [next, ..] => misplaced(alloc, next),
    }
}

/// The one name that some words are.
fn plain_name(alloc: Global, words: &[Text]) -> Result<Text, UsageFault>
    ensures { Gives (λ name. name) usage_cause result (spec.plain_name words.now) }
{
    match words {
        [] => Err(UsageFault::Missing),
        [name, rest @ ..] => name_alone(alloc, name, rest),
    }
}

/// The text of the store of this name.
fn export(name: Text) -> Task
    ensures task { result ≡ spec.export name }
    ensures valid { IsReadable result }
{
    let origin = Origin::Store(name);
    let work = Work::Text;
    Task::Over(TextTask { origin, work })
}

/// The text of the store that the words name.
pub(crate) fn export_task(alloc: Global, words: &[Text]) -> Result<Task, UsageFault>
    ensures answer { Gives (λ task. task) usage_cause result (spec.export_task words.now) }
    ensures valid { IfOk result IsReadable }
{
    let name = plain_name(alloc, words)?;
    Ok(export(name))
}

/// The items of the store of this name.
fn listing(name: Text) -> Task
    ensures task { result ≡ spec.listing name }
    ensures valid { IsReadable result }
{
    let origin = Origin::Store(name);
    let work = Work::Items;
    Task::Over(TextTask { origin, work })
}

/// The items of the store that the words name.
pub(crate) fn items_task(alloc: Global, words: &[Text]) -> Result<Task, UsageFault>
    ensures answer { Gives (λ task. task) usage_cause result (spec.items_task words.now) }
    ensures valid { IfOk result IsReadable }
{
    let name = plain_name(alloc, words)?;
    Ok(listing(name))
}

/// The limit of a store: 2^40 bytes where none is given.
fn limit_or_default(limit: Option<u64>) -> u64
    ensures { result ≡ spec.limit_or_default limit }
{
    match limit {
        Some(limit) => limit,
        None => MOST_LIMIT,
    }
}

/// The store of this name that is to be made of a text.
fn making(store: Text, source: Origin, limit: Option<u64>) -> Task
    ensures task { result ≡ spec.making source limit store }
    ensures valid { IsReadable result }
{
    let limit = limit_or_default(limit);
    Task::Stored(StoreTask::Init(Making {
        store,
        source,
        limit,
    }))
}

/// The store that the words name, which is to be made of a text.
pub(crate) fn init_task(
    alloc: Global,
    source: Origin,
    limit: Option<u64>,
    words: &[Text],
) -> Result<Task, UsageFault>
    ensures answer { Gives (λ task.
        task) usage_cause result (spec.init_task source limit words.now) }
    ensures valid { IfOk result IsReadable }
{
    let store = plain_name(alloc, words)?;
    Ok(making(store, source, limit))
}

/// An entry into the store of this name.
fn adding(store: Text) -> Task
    ensures task { result ≡ spec.adding store }
    ensures valid { IsReadable result }
{
    Task::Stored(StoreTask::Add(store))
}

/// An entry into the store that the words name.
pub(crate) fn add_task(alloc: Global, words: &[Text]) -> Result<Task, UsageFault>
    ensures answer { Gives (λ task. task) usage_cause result (spec.add_task words.now) }
    ensures valid { IfOk result IsReadable }
{
    let store = plain_name(alloc, words)?;
    Ok(adding(store))
}

/// The name of the rules of a file where none is given.
fn rules_beside(alloc: Global, file: &Text) -> Result<Text, Memory>
    ensures { IfOk result (λ rules. rules ≡ spec.rules_beside file.now) }
{
    let mut rules = String::from_str(alloc, file.as_str())?;
    rules.push_str(".rules")?;
    Ok(Text::from_string(rules))
}

/// The name of the rules of a file.
pub(crate) fn rules_or_default(
    alloc: Global,
    rules: Option<Text>,
    file: &Text,
) -> Result<Text, Memory>
    ensures { IfOk result (λ name. name ≡ spec.rules_or_default rules file.now) }
{
    match rules {
        Some(rules) => Ok(rules),
        None => rules_beside(alloc, file),
    }
}

/// The name under which a file is remembered.
fn name_or_default(alloc: Global, name: Option<Text>, file: &Text) -> Result<Text, Memory>
    ensures { IfOk result (λ known. known ≡ spec.name_or_default name file.now) }
{
    match name {
        Some(name) => Ok(name),
        None => Text::copied(alloc, file.as_str()),
    }
}

/// A file that is to be imported into a store.
fn importing(
    alloc: Global,
    store: &Text,
    file: Text,
    rules: Option<Text>,
    name: Option<Text>,
) -> Result<Importing, Memory>
    ensures { IfOk result (λ what. what ≡ spec.importing store.now rules name file) }
{
    let rules = rules_or_default(alloc, rules, &file)?;
    let name = name_or_default(alloc, name, &file)?;
    let store = Text::copied(alloc, store.as_str())?;
    Ok(Importing {
        store,
        file,
        rules,
        name,
    })
}

/// An import, or what it would add.
fn import_or_preview(dry: bool, what: Importing) -> Task
    ensures task { result ≡ spec.import_or_preview dry what }
    ensures valid { IsReadable result }
{
    if dry {
        Task::Stored(StoreTask::Preview(what))
    } else {
        Task::Stored(StoreTask::Import(what))
    }
}

/// The file that some words name, which is to be imported into a store.
fn import_into(
    alloc: Global,
    dry: bool,
    store: &Text,
    rules: Option<Text>,
    name: Option<Text>,
    words: &[Text],
) -> Result<Task, UsageFault>
    ensures answer { Gives (λ task. task) usage_cause result
        (spec.import_of dry store.now rules name (spec.plain_name words.now)) }
    ensures valid { IfOk result IsReadable }
{
    let file = plain_name(alloc, words)?;
    let what = importing(alloc, store, file, rules, name)?;
    Ok(import_or_preview(dry, what))
}

/// The file that the words name behind a store, which is to be imported into that.
pub(crate) fn import_task(
    alloc: Global,
    dry: bool,
    rules: Option<Text>,
    name: Option<Text>,
    words: &[Text],
) -> Result<Task, UsageFault>
    ensures answer { Gives (λ task. task) usage_cause result
        (spec.import_task dry rules name words.now) }
    ensures valid { IfOk result IsReadable }
{
    match words {
        [] => Err(UsageFault::Missing),
        [store, rest @ ..] => import_into(alloc, dry, store, rules, name, rest),
    }
}

/// A text that is to take the place of the one of the store of this name.
fn replacing(store: Text, source: Origin, base: Option<u64>) -> Task
    ensures task { result ≡ spec.replacing source base store }
    ensures valid { IsReadable result }
{
    Task::Stored(StoreTask::Replace(Replacing {
        store,
        source,
        base,
    }))
}

/// A text that is to take the place of the one of the store that the words name.
pub(crate) fn replace_task(
    alloc: Global,
    source: Origin,
    base: Option<u64>,
    words: &[Text],
) -> Result<Task, UsageFault>
    ensures answer { Gives (λ task.
        task) usage_cause result (spec.replace_task source base words.now) }
    ensures valid { IfOk result IsReadable }
{
    let store = plain_name(alloc, words)?;
    Ok(replacing(store, source, base))
}

/// The frames of the store of this name.
fn feeding(store: Text) -> Task
    ensures task { result ≡ spec.feeding store }
    ensures valid { IsReadable result }
{
    Task::Stored(StoreTask::Feed(store))
}

/// The frames of the store that the words name.
pub(crate) fn feed_task(alloc: Global, words: &[Text]) -> Result<Task, UsageFault>
    ensures answer { Gives (λ task. task) usage_cause result (spec.feed_task words.now) }
    ensures valid { IfOk result IsReadable }
{
    let store = plain_name(alloc, words)?;
    Ok(feeding(store))
}

/// The replica of this name, which is to follow.
fn following(replica: Text, limit: Option<u64>) -> Task
    ensures task { result ≡ spec.following limit replica }
    ensures valid { IsReadable result }
{
    let limit = limit_or_default(limit);
    Task::Stored(StoreTask::Follow(Following { replica, limit }))
}

/// The replica that the words name, which is to follow.
pub(crate) fn follow_task(
    alloc: Global,
    limit: Option<u64>,
    words: &[Text],
) -> Result<Task, UsageFault>
    ensures answer { Gives (λ task. task) usage_cause result (spec.follow_task limit words.now) }
    ensures valid { IfOk result IsReadable }
{
    let replica = plain_name(alloc, words)?;
    Ok(following(replica, limit))
}
