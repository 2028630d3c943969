//! The options and the query's words of a report.
ghost use Rattle.std.specs.Prelude.{◌≡◌, ◌≤◌, ◌∷◌, [], IfOk, IfSome, All};
ghost use Rattle.std.specs.Option.{option_copied, option_or};
ghost use Rattle.hl_base.specs.Gives.{Gives};
ghost use Rattle.hl_time.specs.Calendar.{IsDay};
ghost use Rattle.hl_time.specs.Periods.{IsPeriod};
ghost use Rattle.report_options.specs.Items.{fault_cause, items_of, IsDated};
ghost use Rattle.report_options.specs.Options as spec;
ghost use Rattle.report_options.specs.Values.{IsWhen};
ghost use Rattle.report_options.specs.declared.names.Name.TheVariants as names;

use crate::command::{Command, has_columns, is_sheet};
use crate::conflicts::refuse_conflicts;
use crate::fault::OptionFault;
use crate::items::{Item, read_items};
use crate::names::{Name, PERIODS, Place, intervals, is_among, is_same_name};
use crate::options::{Options, Start, Valuation};
use crate::values::Value;
use hl_base::{List, Memory, Text};
use hl_time::{Day, Interval, Period};
use std::alloc::Global;

/// Whether an option is given.
fn has(items: &[Item], name: Name) -> bool
    ensures { result ≡ spec.has items.now name }
{
    items.iter().any(|item| is_same_name(item.name, name))
}

/// The last of some options.
#[tactic(auto, using(crate::proofs::Fields::latest_found, crate::proofs::Fields::latest_older))]
pub(crate) fn latest<'a>(items: &'a [Item], names: &[Name]) -> Option<&'a Item>
    ensures value { option_copied result ≡ spec.latest items.now names.now }
    ensures days { All IsDated items.now → IfSome result (λ item. IsDated item.now) }
{
    let mut rest = items;
    while let Some((last, older)) = rest.split_last() {
        if is_among(last.name, names) {
            return Some(last);
        }
        rest = older;
    }
    None
}

/// The days of the last of some options.
fn days(items: &[Item], names: &[Name]) -> Option<Period>
    requires { All IsDated items.now }
    ensures value { result ≡ spec.days items.now names.now }
    ensures valid { IfSome result IsPeriod }
{
    match latest(items, names) {
        Some(item) => match &item.value {
            Value::Days(period) => Some(*period),
            _ => None,
        },
        None => None,
    }
}

fn from_in(period: Option<Period>) -> Option<u32>
    ensures { result ≡ spec.from_in period }
{
    match period {
        Some(period) => period.from,
        None => None,
    }
}

fn end_in(period: Option<Period>) -> Option<u32>
    ensures { result ≡ spec.end_in period }
{
    match period {
        Some(period) => period.end,
        None => None,
    }
}

fn interval_in(period: Option<Period>) -> Option<Interval>
    ensures { result ≡ spec.interval_in period }
{
    match period {
        Some(period) => period.interval,
        None => None,
    }
}

/// The first of two days that is there.
fn first_day(day: Option<u32>, other: Option<u32>) -> Option<u32>
    ensures { result ≡ option_or day other }
{
    match day {
        Some(day) => Some(day),
        None => other,
    }
}

/// The interval of the columns.
fn interval(command: Command, items: &[Item]) -> Option<Interval>
    requires { All IsDated items.now }
    ensures value { result ≡ spec.interval command items.now }
    ensures valid { IfSome result (λ interval. 1 ≤ interval.n) }
{
    if !has_columns(command) {
        return None;
    }
    match interval_in(days(items, &PERIODS)) {
        Some(interval) => Some(interval),
        None => interval_in(days(items, intervals())),
    }
}

/// The bounds of the report, and the interval of its columns.
fn bounds(command: Command, items: &[Item]) -> Period
    requires { All IsDated items.now }
    ensures value { result ≡ spec.bounds command items.now }
    ensures valid { IsPeriod result }
{
    let period = days(items, &[Name::Period]);
    Period {
        from: first_day(from_in(days(items, &[Name::Begin])), from_in(period)),
        end: first_day(end_in(days(items, &[Name::End])), end_in(period)),
        interval: interval(command, items),
    }
}

/// The depth that is given.
fn depth(items: &[Item]) -> Option<u64>
    ensures { result ≡ spec.depth items.now }
{
    match latest(items, &[Name::Depth]) {
        Some(item) => match &item.value {
            Value::Depth(depth) => Some(*depth),
            _ => None,
        },
        None => None,
    }
}

/// A copy of a symbol.
fn target_copied(alloc: Global, target: &Option<Text>) -> Result<Option<Text>, Memory>
    ensures { IfOk result (λ copy. copy ≡ target.now) }
{
    match target {
        Some(symbol) => Ok(Some(Text::copied(alloc, symbol.as_str())?)),
        None => Ok(None),
    }
}

fn worth_copied(alloc: Global, worth: &Valuation) -> Result<Valuation, Memory>
    ensures { IfOk result (λ copy. copy ≡ worth.now) }
{
    let target = target_copied(alloc, &worth.target)?;
    let when = worth.when;
    Ok(Valuation { when, target })
}

/// The valuation that is given.
fn worth(alloc: Global, items: &[Item]) -> Result<Option<Valuation>, Memory>
    requires { All IsDated items.now }
    ensures value { IfOk result (λ worth. worth ≡ spec.worth items.now) }
    ensures valid { IfOk result (λ worth. IfSome worth (λ w. IsWhen w.when)) }
{
    match latest(items, &[Name::Market, Name::Exchange, Name::Value]) {
        Some(item) => match &item.value {
            Value::Worth(worth) => Ok(Some(worth_copied(alloc, worth)?)),
            _ => Ok(None),
        },
        None => Ok(None),
    }
}

/// Where sums begin.
fn start(command: Command, items: &[Item]) -> Start
    ensures { result ≡ spec.start command items.now }
{
    if is_sheet(command) || has(items, Name::Historical) {
        Start::Historical
    } else if has(items, Name::Cumulative) {
        Start::Cumulative
    } else {
        Start::Change
    }
}

/// What the options say.
pub(crate) fn options_of(alloc: Global, command: Command, items: &[Item]) -> Result<Options, Memory>
    requires { All IsDated items.now }
    ensures value { IfOk result (λ options. options ≡ spec.options_of command items.now) }
    ensures valid { IfOk result spec.IsValid }
{
    Ok(Options {
        command,
        bounds: bounds(command, items),
        unmarked: has(items, Name::Unmarked),
        pending: has(items, Name::Pending),
        cleared: has(items, Name::Cleared),
        real_only: has(items, Name::Real),
        empty: has(items, Name::Empty),
        depth: depth(items),
        cost: has(items, Name::Cost),
        value: worth(alloc, items)?,
        auto: has(items, Name::Auto),
        forecast: days(items, &[Name::Forecast]),
        start: start(command, items),
        tree: has(items, Name::Tree),
        average: has(items, Name::Average),
        row_total: has(items, Name::RowTotal),
        no_total: has(items, Name::NoTotal),
        sort_amount: has(items, Name::SortAmount),
        budget: has(items, Name::Budget),
        explicit: has(items, Name::Explicit),
    })
}

/// The query's words.
#[tactic(auto, using(crate::proofs::Fields::word_more, crate::proofs::Fields::word_passed))]
pub(crate) fn query_words(alloc: Global, items: &[Item]) -> Result<List<Text>, Memory>
    ensures { IfOk result (λ words. words ≡ spec.query_words items.now) }
{
    let mut words = Vec::new(alloc);
    for item in items {
        if is_same_name(item.name, Name::Word) {
            words.push(Text::copied(alloc, item.word.as_str())?)?;
        }
    }
    Ok(List::from_vec(words))
}

/// The items of a command's words at a place, if they read and none excludes another.
#[tactic(auto, using(crate::proofs::Fields::judged_read, crate::proofs::Fields::judged_bad, crate::proofs::Fields::judged_clash))]
pub(crate) fn judged_items(
    alloc: Global,
    place: Place,
    command: Command,
    words: &[Text],
    day: Day,
) -> Result<Vec<Item>, OptionFault>
    requires { IsDay day.0 }
    ensures answer { Gives (λ items. items.items) fault_cause result
        (spec.judged (items_of place command day.0 words.now)) }
    ensures days { IfOk result (λ items. All IsDated items.items) }
{
    let items = read_items(alloc, place, command, words, day)?;
    refuse_conflicts(alloc, &items)?;
    Ok(items)
}

/// What the words of a report command in a request say on a day: its options, and the words of the query. A `BadOption` names
/// the first word that begins with `-` and is no option of the command, lacks its value, or is or holds a value that doesn't
/// read; `-f` and `--store` are none. A `Conflict` names two options that exclude each other, the pair whose later word stands
/// first, and of these the one whose earlier word does; balancesheet itself stands last, as `bs`. The options' days are days,
/// and intervals have a unit.
#[tactic(auto, using(crate::proofs::Fields::reading_read, crate::proofs::Fields::reading_bad))]
pub fn read_options(
    alloc: Global,
    command: Command,
    words: &[Text],
    day: Day,
) -> Result<(Options, List<Text>), OptionFault>
    requires { IsDay day.0 }
    ensures answer { Gives (λ read. read) fault_cause result
        (spec.reading command day.0 words.now) }
    ensures valid { IfOk result (λ read. spec.IsValid read.0) }
{
    let items = judged_items(alloc, Place::Request, command, words, day)?;
    let options = options_of(alloc, command, &items)?;
    let query = query_words(alloc, &items)?;
    Ok((options, query))
}
