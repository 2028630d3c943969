//! By what amounts are valued.
ghost use Rattle.std.specs.Prelude.{◌≡◌, ◌≤◌};
ghost use Rattle.std.specs.Option.{option_copied};
ghost use Rattle.report_values.specs.Worth.{places_of, priced_of, target_of};

use book::Styles;
use hl_base::Text;
use hl_time::Day;
use prices::Prices;

/// By what amounts are valued: the prices of a journal, the styles of its symbols, and the symbol of all values, where
/// one is asked for.
#[derive(Clone, Copy)]
pub struct Market<'a> {
    pub prices: &'a Prices,
    pub styles: &'a Styles,
    pub target: Option<&'a Text>,
}

/// The symbol in which a symbol is valued on a day: the one that is asked for, else that of its latest price.
pub(crate) fn target_of<'a>(market: &Market<'a>, day: Day, symbol: &Text) -> Option<&'a Text>
    ensures { option_copied result ≡ target_of (priced_of market.now) day.0 symbol.now }
{
    match market.target {
        Some(target) => Some(target),
        None => market.prices.default_target(symbol, day),
    }
}

/// How many decimals values in a symbol have.
pub(crate) fn places_of(market: &Market, target: &Text) -> u8
    ensures value { result ≡ places_of (priced_of market.now) target.now }
    ensures few { result ≤ 18 }
{
    market.styles.style(target).places.min(18)
}
