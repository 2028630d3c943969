//! The prices of a journal.
ghost use Rattle.std.specs.Prelude.{◌≡◌, IfOk, MatchOption, [], filter};
ghost use Rattle.std.specs.Option.{option_copied};
ghost use Rattle.prices.specs.Quotes.{quotes_in, newer, newest, is_of, with_quote, target_on, IsLastDay};
ghost use Rattle.prices.specs.Chains.{priced_on};
ghost use Rattle.prices.specs.Tables.{AreRates};

use crate::index::{latest, pairs_of, sorted};
use crate::quote::{Quote, quotes_in};
use crate::table::{Table, make_table};
use book::Items;
use hl_base::{Memory, Text};
use hl_time::Day;
use std::alloc::Global;
use std::marker::Model;

/// The prices of a journal. Contracts see them in the order of the text.
#[derive(Debug, Drop)]
pub struct Prices {
    quotes: Vec<Quote>,
    /// The same by pair and day.
    sorted: Vec<Quote>,
    /// Their pairs in both directions, in order.
    pairs: Vec<Quote>,
}

impl Model for Prices {
    ghost use Rattle.std.specs.Prelude.{List};
    ghost use Rattle.prices.specs.declared.quote.Quote.{Quote};
    ghost use Rattle.prices.specs.Index.{IsIndex};

    ghost Value = { List Quote };

    ghost view = { λ p. p.quotes.items };

    ghost invariant = { λ p. IsIndex p.quotes.items p.sorted.items p.pairs.items };
}

impl Prices {
    /// The prices that the items of a text declare.
    pub fn new(alloc: Global, items: &Items) -> Result<Prices, Memory>
        ensures { IfOk result (λ prices. prices ≡ quotes_in items.now) }
    {
        let quotes = quotes_in(alloc, items)?;
        let sorted = sorted(alloc, &quotes)?;
        let pairs = pairs_of(alloc, &sorted)?;
        Ok(Prices {
            quotes,
            sorted,
            pairs,
        })
    }

    /// The symbol of the latest price of a symbol on or before a day, and of the prices of that day the last in the
    /// text.
    pub fn default_target(&self, symbol: &Text, day: Day) -> Option<&Text>
        ensures { option_copied result ≡ target_on self.now symbol.now day.0 }
    {
        match newest_of(&self.quotes, symbol, day) {
            Some(quote) => Some(&quote.target),
            None => None,
        }
    }

    /// The greatest day of a price. There is none exactly where there is no price.
    pub fn last_day(&self) -> Option<Day>
        ensures { MatchOption result (self.now ≡ []) (IsLastDay self.now) }
    {
        last_day(&self.quotes)
    }

    /// What each symbol is worth in a target on a day.
    pub fn table(&self, alloc: Global, target: &Text, day: Day) -> Result<Table, Memory>
        ensures { IfOk result (AreRates (priced_on self.now day.0) target.now) }
    {
        make_table(alloc, &self.sorted, &self.pairs, target, day)
    }
}

/// The latest price of a symbol on or before a day, and of the prices of that day the last.
fn newest_of<'a>(quotes: &'a [Quote], symbol: &Text, day: Day) -> Option<&'a Quote>
    ensures { option_copied result ≡ newest (filter (is_of symbol.now day.0) quotes.now) }
{
    let mut best: Option<&'a Quote> = None;
    let mut i = quotes.len();
    while 0 < i {
        i -= 1;
        best = better(&quotes[i], best, symbol, day);
    }
    best
}

/// The latest of a price and the one that was found after it, where the price counts.
fn better<'a>(
    quote: &'a Quote,
    best: Option<&'a Quote>,
    symbol: &Text,
    day: Day,
) -> Option<&'a Quote>
    ensures { option_copied result
        ≡ with_quote symbol.now day.0 quote.now (option_copied best.entry) }
{
    if is_of(quote, symbol, day) {
        Some(newer(quote, best))
    } else {
        best
    }
}

/// Whether a price is of a symbol, declared on a day or before it.
fn is_of(quote: &Quote, symbol: &Text, day: Day) -> bool
    ensures { result ≡ is_of symbol.now day.0 quote.now }
{
    quote.symbol.as_str() == symbol.as_str() && quote.day.0 <= day.0
}

/// The later of a price and one that stands after it, if there is one.
fn newer<'a>(quote: &'a Quote, after: Option<&'a Quote>) -> &'a Quote
    ensures { result.now ≡ newer quote.now (option_copied after.entry) }
{
    match after {
        Some(after) => {
            if after.day.0 < quote.day.0 {
                quote
            } else {
                after
            }
        }
        None => quote,
    }
}

/// The greatest day of some prices.
fn last_day(quotes: &[Quote]) -> Option<Day>
    ensures { MatchOption result (quotes.now ≡ []) (IsLastDay quotes.now) }
{
    let mut greatest = quotes.first()?.day.0;
    for quote in quotes {
        greatest = greatest.max(quote.day.0);
    }
    Some(Day(greatest))
}
