//! Words cut into options with their values, and words of the query.
ghost use Rattle.std.specs.Prelude.{◌≡◌, ◌++◌, ◌∷◌, [], IfOk, IfSome, OnOk, map, nat_eq, codes, Option, All};
ghost use Rattle.std.specs.List.{starts_with};
ghost use Rattle.std.specs.Str.{bytes_eq};
ghost use Rattle.hl_base.specs.Gives.{Gives};
ghost use Rattle.hl_time.specs.Calendar.{IsDay};
ghost use Rattle.report_options.specs.Items as spec;
ghost use Rattle.report_options.specs.Values as values;

use crate::command::{Command, is_sheet};
use crate::fault::OptionFault;
use crate::names::{Name, Place, has_option, name_of, takes_value};
use crate::values::{Value, bare_value, written_value};
use hl_base::{Memory, Text};
use hl_time::Day;
use std::alloc::Global;

/// An option with its value, or a word of the query.
#[derive(Drop)]
pub(crate) struct Item {
    pub word: Text,
    pub name: Name,
    pub value: Value,
}

/// Whether a word ends the options.
pub fn is_end(word: &Text) -> bool
    ensures { result ≡ spec.is_end word.now }
{
    word.as_bytes() == b"--".as_slice()
}

/// Whether a word is read as an option: it begins with `-`.
pub fn is_option(word: &Text) -> bool
    ensures { result ≡ spec.is_option word.now }
{
    word.as_bytes().starts_with(b"-")
}

/// Whether a word is of the long form.
pub fn is_long(word: &str) -> bool
    ensures { result ≡ spec.is_long word.now }
{
    word.as_bytes().starts_with(b"--")
}

fn has_equals(word: &str) -> bool
    ensures { result ≡ spec.has_equals word.now }
{
    word.as_bytes().iter().any(|byte| *byte == b'=')
}

/// Whether a word holds a value, behind `=`.
pub fn has_value(word: &str) -> bool
    ensures { result ≡ spec.has_value word.now }
{
    is_long(word) && has_equals(word)
}

/// What stands before the first `=`.
pub fn before_equals(word: &str) -> &str
    ensures { result.now ≡ spec.before_equals word.now }
{
    match word.split_once('=') {
        Some((head, _)) => head,
        None => word,
    }
}

/// What stands after the first `=`, or nothing.
pub fn after_equals(word: &str) -> &str
    ensures { result.now ≡ spec.after_equals word.now }
{
    match word.split_once('=') {
        Some((_, text)) => text,
        None => "",
    }
}

/// The option that a word names.
fn option_name(word: &str) -> Name
    ensures { result ≡ spec.option_name word.now }
{
    if is_long(word) {
        name_of(before_equals(word).as_bytes())
    } else {
        name_of(word.as_bytes())
    }
}

/// Whether the next word is the value of this one.
fn takes_next(word: &str) -> bool
    ensures { result ≡ spec.takes_next word.now }
{
    takes_value(option_name(word)) && !has_value(word)
}

/// A word of the query.
fn query_word(alloc: Global, word: &Text) -> Result<Item, Memory>
    ensures value { IfOk result (λ item. item ≡ spec.query_word word.now) }
    ensures days { IfOk result (λ item. values.HasDays item.value) }
{
    let word = Text::copied(alloc, word.as_str())?;
    let name = Name::Word;
    let value = Value::Nothing;
    Ok(Item { word, name, value })
}

/// The fault of a word that is no option, or no value.
fn bad_option(alloc: Global, word: &Text) -> Result<Item, OptionFault>
    ensures answer { Gives (λ item. item) spec.fault_cause result (spec.bad_option word.now) }
    ensures days { IfOk result (λ item. values.HasDays item.value) }
{
    let word = Text::copied(alloc, word.as_str())?;
    Err(OptionFault::BadOption { word })
}

/// An option with the value that it has, or the fault of the word that holds the value.
fn with_value(
    alloc: Global,
    word: &Text,
    holder: &Text,
    name: Name,
    value: Option<Value>,
) -> Result<Item, OptionFault>
    requires { IfSome value values.HasDays }
    ensures answer { Gives (λ item. item) spec.fault_cause result
        (spec.with_value word.now holder.now name value) }
    ensures days { IfOk result (λ item. values.HasDays item.value) }
{
    match value {
        Some(value) => {
            let word = Text::copied(alloc, word.as_str())?;
            Ok(Item { word, name, value })
        }
        None => bad_option(alloc, holder),
    }
}

/// An option whose value is the next word, if there is one.
fn next_valued(
    alloc: Global,
    word: &Text,
    rest: &[Text],
    name: Name,
    day: Day,
) -> Result<Item, OptionFault>
    requires { IsDay day.0 }
    ensures answer { Gives (λ item. item) spec.fault_cause result
        (spec.next_valued day.0 word.now name rest.now) }
    ensures days { IfOk result (λ item. values.HasDays item.value) }
{
    match rest {
        [] => with_value(alloc, word, word, name, bare_value(name)),
        [next, ..] => {
            let value = written_value(alloc, day, name, next.as_str())?;
            with_value(alloc, word, next, name, value)
        }
    }
}

/// An option of the command, with its value behind `=`, in the next word or not written.
#[tactic(auto, using(crate::proofs::Cutting::valued_own, crate::proofs::Cutting::valued_next, crate::proofs::Cutting::valued_bare))]
fn valued(alloc: Global, word: &Text, rest: &[Text], day: Day) -> Result<Item, OptionFault>
    requires { IsDay day.0 }
    ensures answer { Gives (λ item. item) spec.fault_cause result
        (spec.valued day.0 word.now (spec.next_of word.now rest.now)) }
    ensures days { IfOk result (λ item. values.HasDays item.value) }
{
    let name = option_name(word.as_str());
    if has_value(word.as_str()) {
        let value = written_value(alloc, day, name, after_equals(word.as_str()))?;
        return with_value(alloc, word, word, name, value);
    }
    if takes_value(name) {
        next_valued(alloc, word, rest, name, day)
    } else {
        with_value(alloc, word, word, name, bare_value(name))
    }
}

/// What a word of a report at a place is, before the words that follow it.
#[tactic(auto, using(crate::proofs::Pieces::item_word, crate::proofs::Pieces::item_option, crate::proofs::Pieces::item_bad))]
fn item_of(
    alloc: Global,
    place: Place,
    command: Command,
    word: &Text,
    rest: &[Text],
    day: Day,
) -> Result<Item, OptionFault>
    requires { IsDay day.0 }
    ensures answer { Gives (λ item. item) spec.fault_cause result
        (spec.item_of place command day.0
        (spec.piece_of word.now (spec.next_of word.now rest.now))) }
    ensures days { IfOk result (λ item. values.HasDays item.value) }
{
    if !is_option(word) {
        return Ok(query_word(alloc, word)?);
    }
    if has_option(place, command, option_name(word.as_str())) {
        valued(alloc, word, rest, day)
    } else {
        bad_option(alloc, word)
    }
}

/// What is left behind a word: the words after it, without the first where it takes that as its value.
pub fn left_of(takes: bool, rest: &[Text]) -> &[Text]
    ensures { result.now ≡ spec.left_of takes rest.now }
{
    if takes {
        match rest {
            [] => rest,
            [_, later @ ..] => later,
        }
    } else {
        rest
    }
}

/// What is left behind a word and its value.
fn left_behind<'a>(word: &Text, rest: &'a [Text]) -> &'a [Text]
    ensures { result.now ≡ spec.left_of (spec.takes_next word.now) rest.now }
{
    left_of(takes_next(word.as_str()), rest)
}

fn push_item(items: &mut Vec<Item>, item: Item) -> Result<(), Memory>
    requires days { All spec.IsDated items.old.items }
    requires dated { values.HasDays item.value }
    ensures pushed { OnOk result (items.new.items ≡ items.old.items ++ item ∷ []) }
    ensures days { All spec.IsDated items.new.items }
{
    items.push(item)?;
    Ok(())
}

/// Puts words of the query behind the items.
#[tactic(auto, using(crate::proofs::Cutting::pushed_more))]
fn push_words(alloc: Global, items: &mut Vec<Item>, words: &[Text]) -> Result<(), Memory>
    requires { All spec.IsDated items.old.items }
    ensures pushed { OnOk result (items.new.items
        ≡ items.old.items ++ map spec.query_word words.now) }
    ensures days { All spec.IsDated items.new.items }
{
    for word in words {
        let item = query_word(alloc, word)?;
        push_item(items, item)?;
    }
    Ok(())
}

/// The items of the words, or the fault of the first that doesn't read.
#[tactic(auto, using(crate::proofs::Cutting::behind_nothing, crate::proofs::Cutting::read_end, crate::proofs::Cutting::read_more, crate::proofs::Cutting::read_bad, crate::proofs::Cutting::read_all, crate::proofs::Cutting::left_shorter))]
fn cut(
    alloc: Global,
    place: Place,
    command: Command,
    words: &[Text],
    day: Day,
) -> Result<Vec<Item>, OptionFault>
    requires { IsDay day.0 }
    ensures answer { Gives (λ items. items.items) spec.fault_cause result
        (spec.items_in place command day.0 words.now) }
    ensures days { IfOk result (λ items. All spec.IsDated items.items) }
{
    let mut items = Vec::new(alloc);
    let mut left = words;
    while let Some((word, rest)) = left.split_first() {
        if is_end(word) {
            push_words(alloc, &mut items, rest)?;
            return Ok(items);
        }
        let item = item_of(alloc, place, command, word, rest, day)?;
        push_item(&mut items, item)?;
        left = left_behind(word, rest);
    }
    Ok(items)
}

/// The command balancesheet as an item.
fn sheet_item(alloc: Global) -> Result<Item, Memory>
    ensures value { IfOk result (λ item. item ≡ spec.sheet_item) }
    ensures days { IfOk result (λ item. values.HasDays item.value) }
{
    let word = Text::copied(alloc, "bs")?;
    let name = Name::Sheet;
    let value = Value::Nothing;
    Ok(Item { word, name, value })
}

/// The items of a command's words at a place; balancesheet itself stands last.
#[tactic(auto, using(crate::proofs::Cutting::with_sheet_last, crate::proofs::Cutting::without_sheet, crate::proofs::Cutting::fault_stays))]
pub(crate) fn read_items(
    alloc: Global,
    place: Place,
    command: Command,
    words: &[Text],
    day: Day,
) -> Result<Vec<Item>, OptionFault>
    requires { IsDay day.0 }
    ensures answer { Gives (λ items. items.items) spec.fault_cause result
        (spec.items_of place command day.0 words.now) }
    ensures days { IfOk result (λ items. All spec.IsDated items.items) }
{
    let mut items = cut(alloc, place, command, words, day)?;
    if is_sheet(command) {
        let item = sheet_item(alloc)?;
        push_item(&mut items, item)?;
    }
    Ok(items)
}
