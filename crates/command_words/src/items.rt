//! What a word behind such a command says, with its value.
ghost use Rattle.std.specs.Prelude.{◌≡◌, ◌++◌, ◌∷◌, [], IfOk, Option, codes, map, nat_eq};
ghost use Rattle.std.specs.List.{starts_with};
ghost use Rattle.std.specs.Str.{bytes_eq};
ghost use Rattle.hl_base.specs.Gives.{Gives};
ghost use Rattle.report_options.specs.Items as cut;
ghost use Rattle.command_words.specs.Limits.{base_in, limit_in};
ghost use Rattle.command_words.specs.Said as spec;
ghost use Rattle.command_words.specs.Usage.{usage_cause};

use crate::chores::{Chore, Name, allow_named, check_named, has_option, name_of, takes_value};
use crate::limit::{base_of, limit_of};
use crate::usage::UsageFault;
use book::Side;
use book_care::Check;
use book_commands::ClosingDay;
use desk::Allow;
use entry_reader::{ReadFault, read_account};
use hl_base::{Memory, Text};
use hl_time::read_date;
use report_commands::WordsFault;
use report_options::{after_equals, before_equals, has_value, is_long, is_option, left_of};
use std::alloc::Global;

/// What a word says, with its value.
#[derive(Drop)]
pub(crate) enum Item {
    /// A log of quantities.
    Dot,
    /// The name of the file of the text.
    File(Text),
    /// The name of its store, behind this word.
    Store { word: Text, name: Text },
    /// The day of the closing entry.
    On(ClosingDay),
    /// The account that takes the balances.
    Into(Text),
    /// The closing entry.
    Closing,
    /// The opening entry.
    Opening,
    /// The most bytes of each file of a store.
    Limit(u64),
    /// The revision that a text is to follow.
    Base(u64),
    /// The name of the file of the rules.
    Rules(Text),
    /// The name under which an import is remembered.
    Remembered(Text),
    /// An import that stores nothing.
    DryRun,
    /// What requests may do.
    Allow(Allow),
    /// A check.
    Check(Check),
    /// A word of the query, or a name.
    Word(Text),
}

/// The option that a word names.
fn option_name(word: &str) -> Option<Name>
    ensures { result ≡ spec.option_name word.now }
{
    if is_long(word) {
        name_of(before_equals(word).as_bytes())
    } else {
        name_of(word.as_bytes())
    }
}

/// Whether an option has a value that has to be written.
fn needs_value(name: Option<Name>) -> bool
    ensures { result ≡ spec.needs_value name }
{
    match name {
        Some(name) => takes_value(name),
        None => false,
    }
}

/// Whether the next word is the value of this one.
fn takes_next(word: &str) -> bool
    ensures { result ≡ spec.takes_next word.now }
{
    needs_value(option_name(word)) && !has_value(word)
}

/// The fault of a word that has no place.
fn misplaced(alloc: Global, word: &Text) -> Result<Item, UsageFault>
    ensures { Gives (λ item. item) usage_cause result (spec.misplaced_item word.now) }
{
    let word = Text::copied(alloc, word.as_str())?;
    Err(UsageFault::Words(WordsFault::BadOption { word }))
}

/// What is said, or the fault of the word that holds its value.
fn said_or_misplaced(alloc: Global, holder: &Text, item: Option<Item>) -> Result<Item, UsageFault>
    ensures { Gives (λ item. item) usage_cause result (spec.said_or_misplaced holder.now item) }
{
    match item {
        Some(item) => Ok(item),
        None => misplaced(alloc, holder),
    }
}

/// The day of a closing entry, if there is one.
fn on_day(day: Option<ClosingDay>) -> Option<Item>
    ensures { result ≡ spec.on_day day }
{
    match day {
        Some(day) => Some(Item::On(day)),
        None => None,
    }
}

/// The day of a closing entry that a text writes.
#[tactic(auto, unfolding(crate::specs::Said::day_item))]
fn day_item(text: &[u8]) -> Option<Item>
    ensures { result ≡ spec.day_item text.now }
{
    match read_date(text, None) {
        Ok(day) => on_day(ClosingDay::new(day)),
        Err(_) => None,
    }
}

/// The account that a text is, as that of a real posting.
#[tactic(auto, unfolding(crate::specs::Said::account_item))]
fn account_item(alloc: Global, text: &[u8]) -> Result<Option<Item>, Memory>
    ensures { IfOk result (λ item. item ≡ spec.account_item text.now) }
{
    match read_account(alloc, text) {
        Ok((Side::Real, account)) => Ok(Some(Item::Into(account))),
        Ok(_) => Ok(None),
        Err(ReadFault::Read(_)) => Ok(None),
        Err(ReadFault::Memory) => Err(Memory),
    }
}

/// The limit that a text writes.
fn limit_item(text: &[u8]) -> Option<Item>
    ensures { result ≡ spec.limit_item (limit_in text.now) }
{
    match limit_of(text) {
        Some(limit) => Some(Item::Limit(limit)),
        None => None,
    }
}

/// The revision that a text writes.
fn base_item(text: &[u8]) -> Option<Item>
    ensures { result ≡ spec.base_item (base_in text.now) }
{
    match base_of(text) {
        Some(revision) => Some(Item::Base(revision)),
        None => None,
    }
}

/// What requests may do, if a word says that.
fn allow_item(allow: Option<Allow>) -> Option<Item>
    ensures { result ≡ spec.allow_item allow }
{
    match allow {
        Some(allow) => Some(Item::Allow(allow)),
        None => None,
    }
}

/// The name of a store behind a word.
fn store_item(alloc: Global, word: &Text, value: &str) -> Result<Option<Item>, Memory>
    ensures { IfOk result (λ item. item ≡ spec.store_item word.now value.now) }
{
    let word = Text::copied(alloc, word.as_str())?;
    let name = Text::copied(alloc, value)?;
    Ok(Some(Item::Store { word, name }))
}

/// What an option says with a value, by the word that names it.
fn valued(alloc: Global, name: Name, word: &Text, value: &str) -> Result<Option<Item>, Memory>
    ensures { IfOk result (λ item. item ≡ spec.valued name word.now value.now) }
{
    match name {
        Name::Dot | Name::Closing | Name::Opening | Name::DryRun => Ok(None),
        Name::File => Ok(Some(Item::File(Text::copied(alloc, value)?))),
        Name::Store => store_item(alloc, word, value),
        Name::On => Ok(day_item(value.as_bytes())),
        Name::Into => account_item(alloc, value.as_bytes()),
        Name::Limit => Ok(limit_item(value.as_bytes())),
        Name::Base => Ok(base_item(value.as_bytes())),
        Name::Rules => Ok(Some(Item::Rules(Text::copied(alloc, value)?))),
        Name::Remembered => Ok(Some(Item::Remembered(Text::copied(alloc, value)?))),
        Name::Allow => Ok(allow_item(allow_named(value.as_bytes()))),
    }
}

/// What an option says without a value.
fn bare(name: Name) -> Option<Item>
    ensures { result ≡ spec.bare name }
{
    match name {
        Name::Dot => Some(Item::Dot),
        Name::Closing => Some(Item::Closing),
        Name::Opening => Some(Item::Opening),
        Name::DryRun => Some(Item::DryRun),
        Name::File
        | Name::Store
        | Name::On
        | Name::Into
        | Name::Limit
        | Name::Base
        | Name::Rules
        | Name::Remembered
        | Name::Allow => None,
    }
}

/// What an option says with the next word as its value, if there is one.
fn next_valued(alloc: Global, name: Name, word: &Text, rest: &[Text]) -> Result<Item, UsageFault>
    ensures { Gives (λ item. item) usage_cause result
        (spec.next_valued name word.now (spec.next_of rest.now)) }
{
    match rest {
        [] => misplaced(alloc, word),
        [next, ..] => {
            let item = valued(alloc, name, word, next.as_str())?;
            said_or_misplaced(alloc, next, item)
        }
    }
}

/// What an option says: its value is behind `=`, the next word, or not written.
fn option_item(alloc: Global, name: Name, word: &Text, rest: &[Text]) -> Result<Item, UsageFault>
    ensures { Gives (λ item. item) usage_cause result
        (spec.option_item name word.now (spec.next_of rest.now)) }
{
    if has_value(word.as_str()) {
        let item = valued(alloc, name, word, after_equals(word.as_str()))?;
        return said_or_misplaced(alloc, word, item);
    }
    if takes_value(name) {
        next_valued(alloc, name, word, rest)
    } else {
        said_or_misplaced(alloc, word, bare(name))
    }
}

/// What a word says that is read as an option.
fn named_item(alloc: Global, chore: Chore, word: &Text, rest: &[Text]) -> Result<Item, UsageFault>
    ensures { Gives (λ item. item) usage_cause result
        (spec.named_item chore (spec.option_name word.now) word.now (spec.next_of rest.now)) }
{
    match option_name(word.as_str()) {
        Some(name) => {
            if has_option(chore, name) {
                option_item(alloc, name, word, rest)
            } else {
                misplaced(alloc, word)
            }
        }
        None => misplaced(alloc, word),
    }
}

/// A check, if a word names one.
fn checked(alloc: Global, word: &Text, check: Option<Check>) -> Result<Item, UsageFault>
    ensures { Gives (λ item. item) usage_cause result (spec.checked word.now check) }
{
    match check {
        Some(check) => Ok(Item::Check(check)),
        None => misplaced(alloc, word),
    }
}

/// What a word says that is no option.
pub(crate) fn plain_item(alloc: Global, chore: Chore, word: &Text) -> Result<Item, UsageFault>
    ensures { Gives (λ item. item) usage_cause result (spec.plain_item chore word.now) }
{
    match chore {
        Chore::Hours | Chore::Talk => misplaced(alloc, word),
        Chore::Strict => checked(alloc, word, check_named(word.as_bytes())),
        Chore::Close
        | Chore::Explain
        | Chore::Init
        | Chore::Add
        | Chore::Import
        | Chore::Replace
        | Chore::Sample
        | Chore::Export
        | Chore::Items
        | Chore::Feed
        | Chore::Follow => { Ok(Item::Word(Text::copied(alloc, word.as_str())?)) }
    }
}

/// What a word says, before the words that follow it.
#[tactic(auto, using(crate::proofs::Saying::item_option, crate::proofs::Saying::item_plain))]
pub(crate) fn item_of(
    alloc: Global,
    chore: Chore,
    word: &Text,
    rest: &[Text],
) -> Result<Item, UsageFault>
    ensures { Gives (λ item. item) usage_cause result
        (spec.item_of chore (cut.piece_of word.now (spec.next_of rest.now))) }
{
    if is_option(word) {
        named_item(alloc, chore, word, rest)
    } else {
        plain_item(alloc, chore, word)
    }
}

/// What is left behind a word and its value.
pub(crate) fn left_behind<'a>(word: &Text, rest: &'a [Text]) -> &'a [Text]
    ensures { result.now ≡ cut.left_of (spec.takes_next word.now) rest.now }
{
    left_of(takes_next(word.as_str()), rest)
}
