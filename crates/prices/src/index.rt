//! Declared prices in their order, and where they are found.
ghost use Rattle.std.specs.Prelude.{◌≡◌, ◌≤◌, ◌++◌, IfOk, OnOk, ◌∷◌, [], List};
ghost use Rattle.std.specs.List.Sorted.{IsSorted, IsStable};
ghost use Rattle.std.specs.Option.{option_copied};
ghost use Rattle.std.specs.Str.{bytes_eq};
ghost use Rattle.prices.specs.Index.{quote_cmp, is_pair, HasBoth, Stands, is_new, with_both, IsBound};
ghost use Rattle.prices.specs.Quotes.{latest};

use crate::quote::{Quote, compare_key, make_quote};
use hl_base::{Memory, Text};
use hl_time::Day;
use std::alloc::Global;

/// The prices in their order, those of one pair and day in the order of the text.
pub(crate) fn sorted(alloc: Global, quotes: &[Quote]) -> Result<Vec<Quote>, Memory>
    ensures ordered { IfOk result (λ sorted. IsSorted quote_cmp sorted.items) }
    ensures stable { IfOk result (λ sorted. IsStable quote_cmp quotes.now sorted.items) }
{
    let mut sorted = copied(alloc, quotes)?;
    sorted.sort()?;
    Ok(sorted)
}

/// A copy of some prices.
fn copied(alloc: Global, quotes: &[Quote]) -> Result<Vec<Quote>, Memory>
    ensures { IfOk result (λ copies. copies.items ≡ quotes.now) }
{
    let mut copies = Vec::with_capacity(alloc, quotes.len())?;
    for quote in quotes {
        copies.push(copy_of(alloc, quote)?)?;
    }
    Ok(copies)
}

/// A copy of a price.
fn copy_of(alloc: Global, quote: &Quote) -> Result<Quote, Memory>
    ensures { IfOk result (λ copy. copy ≡ quote.now) }
{
    make_quote(alloc, &quote.symbol, &quote.target, quote.day, quote.value)
}

/// The pairs of some prices in their order, each in both directions and in its order.
pub(crate) fn pairs_of(alloc: Global, sorted: &[Quote]) -> Result<Vec<Quote>, Memory>
    ensures ordered { IfOk result (λ pairs. IsSorted quote_cmp pairs.items) }
    ensures both { IfOk result (λ pairs. HasBoth sorted.now pairs.items) }
{
    let mut pairs = first_pairs(alloc, sorted)?;
    pairs.sort()?;
    Ok(pairs)
}

/// The pairs of some prices in their order, each in both directions.
fn first_pairs(alloc: Global, sorted: &[Quote]) -> Result<Vec<Quote>, Memory>
    ensures { IfOk result (λ pairs. HasBoth sorted.now pairs.items) }
{
    let mut pairs = Vec::new(alloc);
    let mut before: Option<&Quote> = None;
    for quote in sorted {
        add_pair(alloc, &mut pairs, before, quote)?;
        before = Some(quote);
    }
    Ok(pairs)
}

/// Adds a price's pair in both directions, unless the price before it was of the same pair.
fn add_pair(
    alloc: Global,
    pairs: &mut Vec<Quote>,
    before: Option<&Quote>,
    quote: &Quote,
) -> Result<(), Memory>
    ensures { OnOk result ((done : List Quote) → HasBoth done pairs.old.items
        → Stands (option_copied before.entry) done
        → HasBoth (done ++ quote.now ∷ []) pairs.new.items) }
{
    if is_new(before, quote) {
        push_both(alloc, pairs, quote)
    } else {
        Ok(())
    }
}

/// Whether the price before another, if there is one, is of another pair.
fn is_new(before: Option<&Quote>, quote: &Quote) -> bool
    ensures { result ≡ is_new (option_copied before.entry) quote.now }
{
    match before {
        Some(last) => !is_pair(last, &quote.symbol, &quote.target),
        None => true,
    }
}

/// Whether a price is of a pair.
fn is_pair(quote: &Quote, symbol: &Text, target: &Text) -> bool
    ensures { result ≡ is_pair symbol.now target.now quote.now }
{
    quote.symbol.as_str() == symbol.as_str() && quote.target.as_str() == target.as_str()
}

/// Adds a price's pair in both directions.
fn push_both(alloc: Global, pairs: &mut Vec<Quote>, quote: &Quote) -> Result<(), Memory>
    ensures { OnOk result (pairs.new.items ≡ with_both quote.now pairs.old.items) }
{
    pairs.push(copy_of(alloc, quote)?)?;
    let turned = make_quote(alloc, &quote.target, &quote.symbol, quote.day, quote.value)?;
    pairs.push(turned)?;
    Ok(())
}

/// The price of a pair on a day, by prices in their order.
pub(crate) fn latest<'a>(
    sorted: &'a [Quote],
    symbol: &Text,
    target: &Text,
    day: Day,
) -> Option<&'a Quote>
    requires { IsSorted quote_cmp sorted.now }
    ensures { option_copied result ≡ latest sorted.now symbol.now target.now day.0 }
{
    let end = bound_of(sorted, symbol, target, day);
    if end == 0 {
        return None;
    }
    let quote = &sorted[end - 1];
    if is_pair(quote, symbol, target) {
        Some(quote)
    } else {
        None
    }
}

/// Where the prices end that come no later than a pair and a day, by prices in their order.
fn bound_of(sorted: &[Quote], symbol: &Text, target: &Text, day: Day) -> usize
    requires { IsSorted quote_cmp sorted.now }
    ensures { IsBound sorted.now symbol.now target.now day.0 result result }
{
    let mut low = 0;
    let mut high = sorted.len();
    while low < high {
        let middle = low + (high - low) / 2;
        if compare_key(symbol, target, day, &sorted[middle]).is_lt() {
            high = middle;
        } else {
            low = middle + 1;
        }
    }
    low
}
