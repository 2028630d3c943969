//! What the words behind such a command say, one after another.
ghost use Rattle.std.specs.Prelude.{◌≡◌, ◌++◌, ◌∷◌, [], IfOk, Option, codes, map, nat_eq};
ghost use Rattle.hl_base.specs.Gives.{Gives};
ghost use Rattle.command_words.specs.Said as spec;
ghost use Rattle.command_words.specs.Usage.{usage_cause};

use crate::chores::Chore;
use crate::items::{Item, item_of, left_behind, plain_item};
use crate::usage::UsageFault;
use book_care::Check;
use book_commands::ClosingDay;
use desk::Allow;
use hl_base::{List, Memory, Text};
use report_options::is_end;
use std::alloc::Global;

/// The journal that some words name: of an option that is repeated the last.
#[derive(Drop)]
pub(crate) enum Named {
    /// None.
    Unnamed,
    /// A file.
    File(Text),
    /// A store, first behind this word.
    Store { word: Text, name: Text },
    /// A file and a store, by the first two words that exclude each other.
    Both { earlier: Text, later: Text },
}

/// What some words say: of an option that is repeated the last, and checks and other words in their order.
#[derive(Drop)]
pub(crate) struct Said {
    pub dot: bool,
    pub journal: Named,
    pub on: Option<ClosingDay>,
    pub into: Option<Text>,
    pub closing: bool,
    pub opening: bool,
    pub limit: Option<u64>,
    pub base: Option<u64>,
    pub rules: Option<Text>,
    pub remembered: Option<Text>,
    pub dry: bool,
    pub allow: Option<Allow>,
    pub checks: List<Check>,
    pub words: List<Text>,
}

/// Some checks, and one more.
fn with_check(checks: List<Check>, check: Check) -> Result<List<Check>, Memory>
    ensures { IfOk result (λ more. more ≡ checks ++ check ∷ []) }
{
    let mut checks = checks.into_vec();
    checks.push(check)?;
    Ok(List::from_vec(checks))
}

/// Some words, and one more.
fn with_word(words: List<Text>, word: Text) -> Result<List<Text>, Memory>
    ensures { IfOk result (λ more. more ≡ words ++ word ∷ []) }
{
    let mut words = words.into_vec();
    words.push(word)?;
    Ok(List::from_vec(words))
}

/// The journal that is named where a file is named too.
fn with_file(alloc: Global, journal: Named, name: Text) -> Result<Named, Memory>
    ensures { IfOk result (λ now. now ≡ spec.with_file journal name) }
{
    match journal {
        Named::Unnamed | Named::File(_) => Ok(Named::File(name)),
        Named::Store { word, .. } => {
            let later = Text::copied(alloc, "-f")?;
            Ok(Named::Both {
                earlier: word,
                later,
            })
        }
        Named::Both { earlier, later } => Ok(Named::Both { earlier, later }),
    }
}

/// The journal that is named where a store is named too.
fn with_store(alloc: Global, journal: Named, word: Text, name: Text) -> Result<Named, Memory>
    ensures { IfOk result (λ now. now ≡ spec.with_store journal word name) }
{
    match journal {
        Named::Unnamed => Ok(Named::Store { word, name }),
        Named::Store { word: first, .. } => Ok(Named::Store { word: first, name }),
        Named::File(_) => {
            let earlier = Text::copied(alloc, "-f")?;
            Ok(Named::Both {
                earlier,
                later: word,
            })
        }
        Named::Both { earlier, later } => Ok(Named::Both { earlier, later }),
    }
}

/// What was said, and one word more.
fn with_item(alloc: Global, said: Said, item: Item) -> Result<Said, Memory>
    ensures { IfOk result (λ more. more ≡ spec.with_item said item) }
{
    match item {
        Item::Dot => Ok(Said { dot: true, ..said }),
        Item::File(name) => Ok(Said {
            journal: with_file(alloc, said.journal, name)?,
            ..said
        }),
        Item::Store { word, name } => Ok(Said {
            journal: with_store(alloc, said.journal, word, name)?,
            ..said
        }),
        Item::On(day) => Ok(Said {
            on: Some(day),
            ..said
        }),
        Item::Into(account) => Ok(Said {
            into: Some(account),
            ..said
        }),
        Item::Closing => Ok(Said {
            closing: true,
            ..said
        }),
        Item::Opening => Ok(Said {
            opening: true,
            ..said
        }),
        Item::Limit(most) => Ok(Said {
            limit: Some(most),
            ..said
        }),
        Item::Base(revision) => Ok(Said {
            base: Some(revision),
            ..said
        }),
        Item::Rules(name) => Ok(Said {
            rules: Some(name),
            ..said
        }),
        Item::Remembered(name) => Ok(Said {
            remembered: Some(name),
            ..said
        }),
        Item::DryRun => Ok(Said { dry: true, ..said }),
        Item::Allow(level) => Ok(Said {
            allow: Some(level),
            ..said
        }),
        Item::Check(check) => Ok(Said {
            checks: with_check(said.checks, check)?,
            ..said
        }),
        Item::Word(word) => Ok(Said {
            words: with_word(said.words, word)?,
            ..said
        }),
    }
}

/// Nothing was said.
fn unsaid(alloc: Global) -> Said
    ensures { result ≡ spec.unsaid }
{
    Said {
        dot: false,
        journal: Named::Unnamed,
        on: None,
        into: None,
        closing: false,
        opening: false,
        limit: None,
        base: None,
        rules: None,
        remembered: None,
        dry: false,
        allow: None,
        checks: List::new(alloc),
        words: List::new(alloc),
    }
}

/// What was said, and words that aren't options.
#[tactic(auto, using(crate::proofs::Saying::plain_more, crate::proofs::Saying::plain_none))]
fn with_plain(alloc: Global, chore: Chore, said: Said, rest: &[Text]) -> Result<Said, UsageFault>
    ensures { Gives (λ said. said) usage_cause result
        (spec.onto said (spec.plain_items chore rest.now)) }
{
    let mut all = said;
    let mut left = rest;
    while let Some((word, later)) = left.split_first() {
        let item = plain_item(alloc, chore, word)?;
        all = with_item(alloc, all, item)?;
        left = later;
    }
    Ok(all)
}

/// What the words behind a command say, or the fault of the first that has no place.
#[tactic(auto, using(crate::proofs::Saying::read_end, crate::proofs::Saying::read_more, crate::proofs::Saying::read_none, crate::proofs::Saying::left_shorter))]
pub(crate) fn read_said(alloc: Global, chore: Chore, words: &[Text]) -> Result<Said, UsageFault>
    ensures { Gives (λ said. said) usage_cause result (spec.said_by chore words.now) }
{
    let mut said = unsaid(alloc);
    let mut left = words;
    while let Some((word, rest)) = left.split_first() {
        if is_end(word) {
            return with_plain(alloc, chore, said, rest);
        }
        let item = item_of(alloc, chore, word, rest)?;
        said = with_item(alloc, said, item)?;
        left = left_behind(word, rest);
    }
    Ok(said)
}
