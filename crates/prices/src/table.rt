//! What each symbol is worth in a target on a day.
ghost use Rattle.std.specs.Prelude.{◌≡◌, ℕ, List, ◌∷◌, ◌++◌, [], map, IfOk, OnOk};
ghost use Rattle.std.specs.Option.{option_copied};
ghost use Rattle.std.specs.List.Sorted.{IsSorted};
ghost use Rattle.prices.specs.Index.{quote_cmp, HasBoth};
ghost use Rattle.prices.specs.Chains.{priced_on};
ghost use Rattle.prices.specs.Search.{chosen, worth};
ghost use Rattle.prices.specs.Answers.{answer_by, IsTold};
ghost use Rattle.prices.specs.Tables.{AreRates, rate_in};

use crate::fractions::product_of;
use crate::quote::Quote;
use crate::rate::{Rate, RateRange};
use crate::search::{Found, find_all};
use crate::steps::{Step, declared_steps, either_steps};
use crate::symbol_key::SymbolKey;
use hl_base::{Memory, Text};
use hl_time::Day;
use std::alloc::Global;
use std::collections::BTreeMap;

/// What a symbol is worth, nothing where no chain leads to the target, or the fraction past which it can't be told.
type Answer = Result<Option<Rate>, RateRange>;

/// What each symbol is worth in a target on a day.
#[derive(Drop)]
pub struct Table {
    answers: BTreeMap<String, Answer>,
}

impl Table {
    /// The rate of a symbol: the product along the least chain from it to the target. There is none exactly where
    /// there is no chain. `RateRange` comes exactly where a product of two numerators or denominators on that chain
    /// reaches 2^127 before it is reduced.
    pub fn rate(&self, from: &Text) -> Result<Option<Rate>, RateRange>
        ensures { result ≡ rate_in self.now from.now }
    {
        match self.answers.get(from.as_str()) {
            Some(answer) => *answer,
            None => Ok(None),
        }
    }
}

/// What each symbol is worth in a target on a day, by prices in their order and by their pairs.
pub(crate) fn make_table<'a>(
    alloc: Global,
    sorted: &[Quote],
    pairs: &'a [Quote],
    target: &'a Text,
    day: Day,
) -> Result<Table, Memory>
    requires ordered { IsSorted quote_cmp sorted.now }
    requires pairs_ordered { IsSorted quote_cmp pairs.now }
    requires both { HasBoth sorted.now pairs.now }
    ensures { IfOk result (AreRates (priced_on sorted.now day.0) target.now) }
{
    let declared = declared_steps(alloc, sorted, pairs, day)?;
    let either = either_steps(alloc, sorted, pairs, day)?;
    let by_declared = find_all(alloc, target, &declared)?;
    let by_either = find_all(alloc, target, &either)?;
    let answers = answers(alloc, target, &either, &by_declared, &by_either)?;
    Ok(Table { answers })
}

/// The answers of the target and of each symbol from which a step leads.
fn answers<'a>(
    alloc: Global,
    target: &'a Text,
    steps: &[Step<'a>],
    by_declared: &BTreeMap<SymbolKey<'a>, Found>,
    by_either: &BTreeMap<SymbolKey<'a>, Found>,
) -> Result<BTreeMap<String, Answer>, Memory>
    ensures { IfOk result (λ answers. IsTold answers
        (target.now ∷ map (λ step. step.from) steps.now)
        (answer_by by_declared.now.entries by_either.now.entries)) }
{
    let mut answers = BTreeMap::new(alloc);
    tell(alloc, &mut answers, target, by_declared, by_either)?;
    for step in steps {
        tell(alloc, &mut answers, step.from, by_declared, by_either)?;
    }
    Ok(answers)
}

/// Tells the answer of a symbol, unless it was told.
fn tell<'a>(
    alloc: Global,
    answers: &mut BTreeMap<String, Answer>,
    symbol: &'a Text,
    by_declared: &BTreeMap<SymbolKey<'a>, Found>,
    by_either: &BTreeMap<SymbolKey<'a>, Found>,
) -> Result<(), Memory>
    ensures { OnOk result ((symbols : List (List ℕ))
        → IsTold answers.old symbols (answer_by by_declared.now.entries by_either.now.entries)
        → IsTold answers.new (symbols ++ symbol.now ∷ [])
        (answer_by by_declared.now.entries by_either.now.entries)) }
{
    if answers.contains_key(symbol.as_str()) {
        return Ok(());
    }
    let answer = answer_of(symbol, by_declared, by_either);
    answers.insert(String::from_str(alloc, symbol.as_str())?, answer)?;
    Ok(())
}

/// What a symbol is worth by what was found.
fn answer_of<'a>(
    symbol: &'a Text,
    by_declared: &BTreeMap<SymbolKey<'a>, Found>,
    by_either: &BTreeMap<SymbolKey<'a>, Found>,
) -> Answer
    ensures { result ≡ answer_by by_declared.now.entries by_either.now.entries symbol.now }
{
    let key = SymbolKey::new(symbol);
    worth(chosen(by_declared.get(&key), by_either.get(&key)))
}

/// Of the way by declared prices and the way by prices of either kind, the one that is taken.
fn chosen<'m>(declared: Option<&'m Found>, either: Option<&'m Found>) -> Option<&'m Found>
    ensures { option_copied result
        ≡ chosen (option_copied declared.entry) (option_copied either.entry) }
{
    match either {
        Some(any) if any.rates.len() <= 1 => Some(any),
        Some(any) => match declared {
            Some(way) => Some(way),
            None => Some(any),
        },
        None => None,
    }
}

/// What a way is worth.
fn worth(way: Option<&Found>) -> Answer
    ensures { result ≡ worth (option_copied way.entry) }
{
    match way {
        Some(way) => match product_of(way.rates.as_slice()) {
            Ok(rate) => Ok(Some(rate)),
            Err(range) => Err(range),
        },
        None => Ok(None),
    }
}
