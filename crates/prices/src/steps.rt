//! The steps that chains are made of: the pairs that have a price on a day.
ghost use Rattle.std.specs.Prelude.{◌≡◌, IfOk};
ghost use Rattle.std.specs.Str.{bytes_eq};
ghost use Rattle.std.specs.Option.{option_copied};
ghost use Rattle.std.specs.List.Sorted.{IsSorted};
ghost use Rattle.prices.specs.Index.{quote_cmp};
ghost use Rattle.prices.specs.Chains.{priced_on, declared, reverse, either};
ghost use Rattle.prices.specs.Search.{steps_of, step_of};

use crate::fractions::{declared_rate, reverse_rate};
use crate::index::latest;
use crate::quote::Quote;
use crate::rate::Rate;
use hl_base::{Memory, Text};
use hl_time::Day;
use std::alloc::Global;
use std::marker::Model;

/// A step from a symbol to another, whose rate it has.
#[derive(Drop)]
pub(crate) struct Step<'a> {
    pub from: &'a Text,
    pub to: &'a Text,
    pub rate: Rate,
}

impl<'a> Model for Step<'a> {
    ghost use Rattle.prices.specs.Step.{Step};

    ghost Value = { Step };

    ghost view = { λ s. record { from = s.from.now; to = s.to.now; rate = s.rate } };
}

/// The steps of some pairs by declared prices.
pub(crate) fn declared_steps<'a>(
    alloc: Global,
    sorted: &[Quote],
    pairs: &'a [Quote],
    day: Day,
) -> Result<Vec<Step<'a>>, Memory>
    requires { IsSorted quote_cmp sorted.now }
    ensures { IfOk result (λ steps. steps.items
        ≡ steps_of (declared (priced_on sorted.now day.0)) pairs.now) }
{
    let mut steps = Vec::new(alloc);
    for pair in pairs {
        if let Some(rate) = declared(sorted, &pair.symbol, &pair.target, day) {
            steps.push(Step {
                from: &pair.symbol,
                to: &pair.target,
                rate,
            })?;
        }
    }
    Ok(steps)
}

/// The steps of some pairs by prices of either kind.
pub(crate) fn either_steps<'a>(
    alloc: Global,
    sorted: &[Quote],
    pairs: &'a [Quote],
    day: Day,
) -> Result<Vec<Step<'a>>, Memory>
    requires { IsSorted quote_cmp sorted.now }
    ensures { IfOk result (λ steps. steps.items
        ≡ steps_of (either (priced_on sorted.now day.0)) pairs.now) }
{
    let mut steps = Vec::new(alloc);
    for pair in pairs {
        if let Some(rate) = either(sorted, &pair.symbol, &pair.target, day) {
            steps.push(Step {
                from: &pair.symbol,
                to: &pair.target,
                rate,
            })?;
        }
    }
    Ok(steps)
}

/// The rate of a price of either kind, a declared one before a reverse one.
fn either(sorted: &[Quote], a: &Text, b: &Text, day: Day) -> Option<Rate>
    requires { IsSorted quote_cmp sorted.now }
    ensures { result ≡ either (priced_on sorted.now day.0) a.now b.now }
{
    match declared(sorted, a, b, day) {
        Some(rate) => Some(rate),
        None => reverse(sorted, a, b, day),
    }
}

/// The rate of a declared price.
fn declared(sorted: &[Quote], a: &Text, b: &Text, day: Day) -> Option<Rate>
    requires { IsSorted quote_cmp sorted.now }
    ensures { result ≡ declared (priced_on sorted.now day.0) a.now b.now }
{
    match priced_on(sorted, a, b, day) {
        Some(quote) => Some(declared_rate(quote.value)),
        None => None,
    }
}

/// The rate of a reverse price. A price of zero has none.
fn reverse(sorted: &[Quote], a: &Text, b: &Text, day: Day) -> Option<Rate>
    requires { IsSorted quote_cmp sorted.now }
    ensures { result ≡ reverse (priced_on sorted.now day.0) a.now b.now }
{
    match priced_on(sorted, b, a, day) {
        Some(quote) => {
            if quote.value.is_zero() {
                None
            } else {
                Some(reverse_rate(quote.value))
            }
        }
        None => None,
    }
}

/// The price of a pair. A price of a symbol in itself counts for no pair.
fn priced_on<'a>(sorted: &'a [Quote], a: &Text, b: &Text, day: Day) -> Option<&'a Quote>
    requires { IsSorted quote_cmp sorted.now }
    ensures { option_copied result ≡ priced_on sorted.now day.0 a.now b.now }
{
    if a.as_str() == b.as_str() {
        None
    } else {
        latest(sorted, a, b, day)
    }
}
