//! The commands over a text or a store that are no reports, and their options.
ghost use Rattle.std.specs.Prelude.{◌≡◌, codes};
ghost use Rattle.std.specs.Str.{bytes_eq};
ghost use Rattle.command_words.specs.Chores as spec;

use book_care::Check;
use desk::Allow;

/// A command over a text or a store that is no report.
#[derive(Clone, Copy)]
pub enum Chore {
    /// The hours of a time log.
    Hours,
    /// Checks.
    Strict,
    /// Closing entries.
    Close,
    /// What is wrong with a text, or with a file of a bank.
    Explain,
    /// A store of a text.
    Init,
    /// An entry into a store.
    Add,
    /// A file of a bank into a store.
    Import,
    /// A connection over the input and the output.
    Talk,
    /// A sample.
    Sample,
    /// A text in the place of a store's.
    Replace,
    /// The text of a store.
    Export,
    /// The items of a store.
    Items,
    /// The frames of a store.
    Feed,
    /// A replica that follows frames.
    Follow,
}

/// An option of these commands.
#[derive(Clone, Copy)]
pub(crate) enum Name {
    Dot,
    File,
    Store,
    On,
    Into,
    Closing,
    Opening,
    Limit,
    Base,
    Rules,
    Remembered,
    DryRun,
    Allow,
}

fn is_same(a: &[u8], b: &[u8]) -> bool
    ensures { result ≡ bytes_eq a.now b.now }
{
    a == b
}

/// The command that a word names.
#[tactic(auto, unfolding(crate::specs::Chores::chore_named))]
pub(crate) fn chore_named(word: &[u8]) -> Option<Chore>
    ensures { result ≡ spec.chore_named word.now }
{
    if is_same(word, b"hours") {
        Some(Chore::Hours)
    } else if is_same(word, b"strict") {
        Some(Chore::Strict)
    } else if is_same(word, b"close") {
        Some(Chore::Close)
    } else if is_same(word, b"explain") {
        Some(Chore::Explain)
    } else if is_same(word, b"init") {
        Some(Chore::Init)
    } else if is_same(word, b"add") {
        Some(Chore::Add)
    } else if is_same(word, b"import") {
        Some(Chore::Import)
    } else if is_same(word, b"talk") {
        Some(Chore::Talk)
    } else if is_same(word, b"sample") {
        Some(Chore::Sample)
    } else if is_same(word, b"replace") {
        Some(Chore::Replace)
    } else if is_same(word, b"export") {
        Some(Chore::Export)
    } else if is_same(word, b"items") {
        Some(Chore::Items)
    } else if is_same(word, b"feed") {
        Some(Chore::Feed)
    } else if is_same(word, b"follow") {
        Some(Chore::Follow)
    } else {
        None
    }
}

/// The check that a word names.
#[tactic(auto, unfolding(crate::specs::Chores::check_named))]
pub(crate) fn check_named(word: &[u8]) -> Option<Check>
    ensures { result ≡ spec.check_named word.now }
{
    if is_same(word, b"accounts") {
        Some(Check::Accounts)
    } else if is_same(word, b"commodities") {
        Some(Check::Commodities)
    } else if is_same(word, b"payees") {
        Some(Check::Payees)
    } else if is_same(word, b"tags") {
        Some(Check::Tags)
    } else if is_same(word, b"ordereddates") {
        Some(Check::OrderedDates)
    } else {
        None
    }
}

/// What requests may do, as a word says it.
#[tactic(auto, unfolding(crate::specs::Chores::allow_named))]
pub fn allow_named(word: &[u8]) -> Option<Allow>
    ensures { result ≡ spec.allow_named word.now }
{
    if is_same(word, b"view") {
        Some(Allow::View)
    } else if is_same(word, b"add") {
        Some(Allow::Add)
    } else if is_same(word, b"edit") {
        Some(Allow::Edit)
    } else {
        None
    }
}

/// The option that a word names, without a value behind `=`.
#[tactic(auto, unfolding(crate::specs::Chores::name_of))]
pub(crate) fn name_of(word: &[u8]) -> Option<Name>
    ensures { result ≡ spec.name_of word.now }
{
    if is_same(word, b"--dot") {
        Some(Name::Dot)
    } else if is_same(word, b"-f") {
        Some(Name::File)
    } else if is_same(word, b"--store") {
        Some(Name::Store)
    } else if is_same(word, b"--on") {
        Some(Name::On)
    } else if is_same(word, b"--into") {
        Some(Name::Into)
    } else if is_same(word, b"--close") {
        Some(Name::Closing)
    } else if is_same(word, b"--open") {
        Some(Name::Opening)
    } else if is_same(word, b"--limit") {
        Some(Name::Limit)
    } else if is_same(word, b"--base") {
        Some(Name::Base)
    } else if is_same(word, b"--rules") {
        Some(Name::Rules)
    } else if is_same(word, b"--name") {
        Some(Name::Remembered)
    } else if is_same(word, b"--dry-run") {
        Some(Name::DryRun)
    } else if is_same(word, b"--allow") {
        Some(Name::Allow)
    } else {
        None
    }
}

/// Whether a value has to be written.
pub(crate) fn takes_value(name: Name) -> bool
    ensures { result ≡ spec.takes_value name }
{
    match name {
        Name::Dot => false,
        Name::Closing => false,
        Name::Opening => false,
        Name::DryRun => false,
        Name::File
        | Name::Store
        | Name::On
        | Name::Into
        | Name::Limit
        | Name::Base
        | Name::Rules
        | Name::Remembered
        | Name::Allow => true,
    }
}

/// Whether a command has an option.
pub(crate) fn has_option(chore: Chore, name: Name) -> bool
    ensures { result ≡ spec.has_option chore name }
{
    match name {
        Name::File => matches!(
            chore,
            Chore::Hours
                | Chore::Strict
                | Chore::Close
                | Chore::Explain
                | Chore::Init
                | Chore::Replace
                | Chore::Talk
        ),
        Name::Dot => matches!(chore, Chore::Hours),
        Name::Store => matches!(
            chore,
            Chore::Strict | Chore::Close | Chore::Explain | Chore::Talk
        ),
        Name::On | Name::Into | Name::Closing | Name::Opening => matches!(chore, Chore::Close),
        Name::Limit => matches!(chore, Chore::Init | Chore::Follow),
        Name::Base => matches!(chore, Chore::Replace),
        Name::Rules => matches!(chore, Chore::Explain | Chore::Import),
        Name::Remembered | Name::DryRun => matches!(chore, Chore::Import),
        Name::Allow => matches!(chore, Chore::Talk),
    }
}
