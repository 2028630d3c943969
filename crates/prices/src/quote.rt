//! Declared prices, and their order: by symbol, by the symbol in which they are, and by day.
ghost use Rattle.std.specs.Prelude.{◌≡◌, ◌++◌, IfOk, OnOk};
ghost use Rattle.std.proofs.Common.{refl};
ghost use Rattle.std.specs.Cmp.{po, partial_equiv_from_equiv};
ghost use Rattle.std.specs.Ordering.{as_partial_cmp, eq_by_cmp};
ghost use Rattle.std.proofs.lemmas.Cmp.{eq_by_cmp_equiv};

use book::{Item, Items};
use hl_base::{Memory, Text};
use hl_num::Dec;
use hl_time::Day;
use std::alloc::Global;
use std::cmp::Ordering;

/// A declared price: on the day one unit of the symbol is worth so much of the target.
#[derive(Debug, Drop)]
pub struct Quote {
    pub symbol: Text,
    pub target: Text,
    pub day: Day,
    pub value: Dec,
}

ghost use Rattle.prices.specs.Index.{key_cmp, quote_cmp};
ghost use Rattle.prices.specs.Quotes.{quote_in, quotes_in};
ghost use Rattle.prices.specs.Order.{quote_total};

impl PartialEq for Quote {
    ghost eq = { eq_by_cmp quote_cmp };

    ghost laws = { partial_equiv_from_equiv (eq_by_cmp_equiv quote_total) };

    fn eq(&self, other: &Quote) -> bool {
        self.cmp(other).is_eq()
    }
}

impl Eq for Quote {
    ghost laws = { eq_by_cmp_equiv quote_total };
}

impl PartialOrd for Quote {
    ghost partial_cmp = { as_partial_cmp quote_cmp };

    ghost laws = { po quote_total (λ a b. refl) };

    fn partial_cmp(&self, other: &Quote) -> Option<Ordering> {
        Some(self.cmp(other))
    }
}

impl Ord for Quote {
    ghost cmp = { quote_cmp };

    ghost total = { quote_total };

    ghost matches_partial_cmp = { λ a b. refl };

    ghost matches_eq = { λ a b. refl };

    fn cmp(&self, other: &Quote) -> Ordering {
        compare_key(&self.symbol, &self.target, self.day, other)
    }
}

/// How a pair and a day compare with those of a price.
pub(crate) fn compare_key(symbol: &Text, target: &Text, day: Day, quote: &Quote) -> Ordering
    ensures { result ≡ key_cmp symbol.now target.now day.0 quote.now }
{
    match symbol.as_str().cmp(quote.symbol.as_str()) {
        Ordering::Equal => match target.as_str().cmp(quote.target.as_str()) {
            Ordering::Equal => day.0.cmp(&quote.day.0),
            order => order,
        },
        order => order,
    }
}

/// The prices of a text, in its order.
pub(crate) fn quotes_in(alloc: Global, items: &Items) -> Result<Vec<Quote>, Memory>
    ensures { IfOk result (λ quotes. quotes.items ≡ quotes_in items.now) }
{
    let mut quotes = Vec::new(alloc);
    for placed in items.as_slice() {
        push_quote(alloc, &mut quotes, &placed.item)?;
    }
    Ok(quotes)
}

/// Adds the price that an item declares, if it declares one.
fn push_quote(alloc: Global, quotes: &mut Vec<Quote>, item: &Item) -> Result<(), Memory>
    ensures { OnOk result (quotes.new.items ≡ quotes.old.items ++ quote_in item.now) }
{
    if let Item::Price(price) = item {
        let quote = make_quote(
            alloc,
            &price.symbol,
            &price.amount.symbol,
            price.day,
            price.amount.value,
        )?;
        quotes.push(quote)?;
    }
    Ok(())
}

/// A price of a symbol in a target, whose names are copied.
pub(crate) fn make_quote(
    alloc: Global,
    symbol: &Text,
    target: &Text,
    day: Day,
    value: Dec,
) -> Result<Quote, Memory>
    ensures { IfOk result (λ quote. quote
        ≡ record { symbol = symbol.now; target = target.now; day = day; value = value }) }
{
    Ok(Quote {
        symbol: Text::copied(alloc, symbol.as_str())?,
        target: Text::copied(alloc, target.as_str())?,
        day,
        value,
    })
}
