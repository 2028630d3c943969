//! The options by their names, and the commands that have them.
ghost use Rattle.std.specs.Prelude.{◌≡◌, codes};
ghost use Rattle.report_options.specs.Names as spec;

use crate::command::{Command, has_columns};
use crate::texts::{is_either, is_same};

/// Where the words of a report stand.
#[derive(Clone, Copy)]
pub(crate) enum Place {
    /// Behind the program's name, where they name the journal too.
    Program,
    /// In a request, over the journal that is served.
    Request,
}

/// What a word is by its name.
#[derive(Clone, Copy)]
pub(crate) enum Name {
    /// No option.
    Word,
    /// The command balancesheet, which stands last as `bs`.
    Sheet,
    Begin,
    End,
    Period,
    Depth,
    Exchange,
    Value,
    Forecast,
    Daily,
    Weekly,
    Monthly,
    Quarterly,
    Yearly,
    Unmarked,
    Pending,
    Cleared,
    Real,
    Empty,
    Cost,
    Market,
    Auto,
    Historical,
    Cumulative,
    Change,
    Budget,
    Explicit,
    Flat,
    Tree,
    Average,
    RowTotal,
    NoTotal,
    SortAmount,
    File,
    Store,
}

/// The commands that have an option.
#[derive(Clone, Copy)]
pub(crate) enum Reach {
    Nowhere,
    /// All but check.
    Reports,
    /// Those with columns.
    Columns,
    /// These, register and accounts.
    Depths,
    /// Those with columns, and register.
    Values,
    /// Balance and register.
    Sums,
    Balance,
    Print,
    /// All, in words of the program.
    Program,
}

/// The option of periods, and behind it those of intervals.
pub(crate) const PERIODS: [Name; 6] = [
    Name::Period,
    Name::Daily,
    Name::Weekly,
    Name::Monthly,
    Name::Quarterly,
    Name::Yearly,
];

/// The options of intervals.
pub(crate) fn intervals() -> &'static [Name]
    ensures { result.now ≡ spec.intervals }
{
    &PERIODS[1..]
}

/// The options of lines, columns and totals.
#[tactic(auto, unfolding(crate::specs::Names::layout_name))]
fn layout_name(word: &[u8]) -> Name
    ensures { result ≡ spec.layout_name word.now }
{
    if is_either(word, b"-l", b"--flat") {
        Name::Flat
    } else if is_either(word, b"-t", b"--tree") {
        Name::Tree
    } else if is_either(word, b"-A", b"--average") {
        Name::Average
    } else if is_either(word, b"-T", b"--row-total") {
        Name::RowTotal
    } else if is_either(word, b"-N", b"--no-total") {
        Name::NoTotal
    } else if is_either(word, b"-S", b"--sort-amount") {
        Name::SortAmount
    } else if is_either(word, b"-x", b"--explicit") {
        Name::Explicit
    } else {
        Name::Word
    }
}

/// The options of amounts and sums, and those above.
#[tactic(auto, unfolding(crate::specs::Names::sum_name))]
fn sum_name(word: &[u8]) -> Name
    ensures { result ≡ spec.sum_name word.now }
{
    if is_either(word, b"-B", b"--cost") {
        Name::Cost
    } else if is_either(word, b"-V", b"--market") {
        Name::Market
    } else if is_either(word, b"-H", b"--historical") {
        Name::Historical
    } else if is_same(word, b"--cumulative") {
        Name::Cumulative
    } else if is_same(word, b"--change") {
        Name::Change
    } else if is_same(word, b"--budget") {
        Name::Budget
    } else if is_same(word, b"--auto") {
        Name::Auto
    } else {
        layout_name(word)
    }
}

/// The options of what is shown, and those above.
#[tactic(auto, unfolding(crate::specs::Names::shown_name))]
fn shown_name(word: &[u8]) -> Name
    ensures { result ≡ spec.shown_name word.now }
{
    if is_either(word, b"-U", b"--unmarked") {
        Name::Unmarked
    } else if is_either(word, b"-P", b"--pending") {
        Name::Pending
    } else if is_either(word, b"-C", b"--cleared") {
        Name::Cleared
    } else if is_either(word, b"-R", b"--real") {
        Name::Real
    } else if is_either(word, b"-E", b"--empty") {
        Name::Empty
    } else {
        sum_name(word)
    }
}

/// The options of intervals, and those above.
#[tactic(auto, unfolding(crate::specs::Names::interval_name))]
fn interval_name(word: &[u8]) -> Name
    ensures { result ≡ spec.interval_name word.now }
{
    if is_either(word, b"-D", b"--daily") {
        Name::Daily
    } else if is_either(word, b"-W", b"--weekly") {
        Name::Weekly
    } else if is_either(word, b"-M", b"--monthly") {
        Name::Monthly
    } else if is_either(word, b"-Q", b"--quarterly") {
        Name::Quarterly
    } else if is_either(word, b"-Y", b"--yearly") {
        Name::Yearly
    } else {
        shown_name(word)
    }
}

/// The option that a word names, without a value behind `=`.
#[tactic(auto, unfolding(crate::specs::Names::name_of))]
pub(crate) fn name_of(word: &[u8]) -> Name
    ensures { result ≡ spec.name_of word.now }
{
    if is_either(word, b"-b", b"--begin") {
        Name::Begin
    } else if is_either(word, b"-e", b"--end") {
        Name::End
    } else if is_either(word, b"-p", b"--period") {
        Name::Period
    } else if is_same(word, b"--depth") {
        Name::Depth
    } else if is_either(word, b"-X", b"--exchange") {
        Name::Exchange
    } else if is_same(word, b"--value") {
        Name::Value
    } else if is_same(word, b"--forecast") {
        Name::Forecast
    } else if is_same(word, b"-f") {
        Name::File
    } else if is_same(word, b"--store") {
        Name::Store
    } else {
        interval_name(word)
    }
}

/// Whether an option has a value that must be written.
pub(crate) fn takes_value(name: Name) -> bool
    ensures { result ≡ spec.takes_value name }
{
    match name {
        Name::Begin | Name::End | Name::Period | Name::Depth | Name::Exchange | Name::Value => true,
        Name::File | Name::Store => true,
        _ => false,
    }
}

/// The commands that have an option.
fn reach_of(name: Name) -> Reach
    ensures { result ≡ spec.reach_of name }
{
    match name {
        Name::Word | Name::Sheet => Reach::Nowhere,
        Name::Begin | Name::End | Name::Period => Reach::Reports,
        Name::Unmarked | Name::Pending | Name::Cleared | Name::Real => Reach::Reports,
        Name::Auto | Name::Forecast => Reach::Reports,
        Name::Depth => Reach::Depths,
        Name::Cost | Name::Market | Name::Exchange | Name::Value => Reach::Values,
        Name::Historical => Reach::Sums,
        Name::Cumulative | Name::Change | Name::Budget => Reach::Balance,
        Name::Explicit => Reach::Print,
        Name::File | Name::Store => Reach::Program,
        _ => Reach::Columns,
    }
}

fn has_depth(command: Command) -> bool
    ensures { result ≡ spec.has_depth command }
{
    match command {
        Command::Register | Command::Accounts => true,
        _ => has_columns(command),
    }
}

fn has_values(command: Command) -> bool
    ensures { result ≡ spec.has_values command }
{
    match command {
        Command::Register => true,
        _ => has_columns(command),
    }
}

fn is_program(place: Place) -> bool
    ensures { result ≡ spec.is_program place }
{
    match place {
        Place::Program => true,
        Place::Request => false,
    }
}

/// Whether a command is among those that have an option, in words that stand at a place.
fn is_reached(place: Place, command: Command, reach: Reach) -> bool
    ensures { result ≡ spec.is_reached place command reach }
{
    match reach {
        Reach::Nowhere => false,
        Reach::Reports => !is_check(command),
        Reach::Columns => has_columns(command),
        Reach::Depths => has_depth(command),
        Reach::Values => has_values(command),
        Reach::Sums => has_sums(command),
        Reach::Balance => is_balance(command),
        Reach::Print => is_print(command),
        Reach::Program => is_program(place),
    }
}

fn is_check(command: Command) -> bool
    ensures { result ≡ spec.is_check command }
{
    match command {
        Command::Check => true,
        _ => false,
    }
}

fn has_sums(command: Command) -> bool
    ensures { result ≡ spec.has_sums command }
{
    match command {
        Command::Balance | Command::Register => true,
        _ => false,
    }
}

pub fn is_balance(command: Command) -> bool
    ensures { result ≡ spec.is_balance command }
{
    match command {
        Command::Balance => true,
        _ => false,
    }
}

fn is_print(command: Command) -> bool
    ensures { result ≡ spec.is_print command }
{
    match command {
        Command::Print => true,
        _ => false,
    }
}

/// Whether an option is one of a command's, in words that stand at a place.
pub(crate) fn has_option(place: Place, command: Command, name: Name) -> bool
    ensures { result ≡ spec.has_option place command name }
{
    is_reached(place, command, reach_of(name))
}

/// The place of a name in the table, by which names are told apart.
fn number_of(name: Name) -> u8
    ensures { result ≡ spec.number_of name }
{
    match name {
        Name::Word => 0,
        Name::Sheet => 1,
        Name::Begin => 2,
        Name::End => 3,
        Name::Period => 4,
        Name::Depth => 5,
        Name::Exchange => 6,
        Name::Value => 7,
        Name::Forecast => 8,
        Name::Daily => 9,
        Name::Weekly => 10,
        Name::Monthly => 11,
        Name::Quarterly => 12,
        Name::Yearly => 13,
        Name::Unmarked => 14,
        Name::Pending => 15,
        Name::Cleared => 16,
        Name::Real => 17,
        Name::Empty => 18,
        Name::Cost => 19,
        Name::Market => 20,
        Name::Auto => 21,
        Name::Historical => 22,
        Name::Cumulative => 23,
        Name::Change => 24,
        Name::Budget => 25,
        Name::Explicit => 26,
        Name::Flat => 27,
        Name::Tree => 28,
        Name::Average => 29,
        Name::RowTotal => 30,
        Name::NoTotal => 31,
        Name::SortAmount => 32,
        Name::File => 33,
        Name::Store => 34,
    }
}

pub(crate) fn is_same_name(a: Name, b: Name) -> bool
    ensures { result ≡ spec.is_same_name a b }
{
    number_of(a) == number_of(b)
}

pub(crate) fn is_among(name: Name, names: &[Name]) -> bool
    ensures { result ≡ spec.is_among name names.now }
{
    names.iter().any(|other| is_same_name(name, *other))
}
