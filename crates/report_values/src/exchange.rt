//! What symbols are exchanged for, and amounts with them.
ghost use Rattle.std.specs.Prelude.{◌≡◌, ◌≤◌, Some};
ghost use Rattle.report_values.specs.Worth as spec;
ghost use Rattle.prices.specs.Values as prices_spec;

use hl_base::Text;
use hl_num::Dec;
use prices::{Rate, RateRange, value};
use report_cells::Share;
use std::marker::Model;

/// A target, the rate at which a symbol is exchanged for it, and the decimals of the values, at most 18.
#[derive(Drop)]
pub struct Sale<'a> {
    target: &'a Text,
    rate: Rate,
    places: u8,
}

impl<'a> Model for Sale<'a> {
    ghost use Rattle.std.specs.Prelude.{◌≤◌};
    ghost use Rattle.report_values.specs.Sale.{Sale};

    ghost Value = { Sale };

    ghost view = { λ s. record { target = s.target.now; rate = s.rate; places = s.places } };

    ghost invariant = { λ s. s.places ≤ 18 };
}

/// What a symbol is exchanged for on a day: it stays, or goes into a target, or its rate is out of range.
#[derive(Drop)]
pub enum Exchange<'a> {
    Stays,
    Into(Sale<'a>),
    Out,
}

/// The exchange of a symbol that has a rate in a target, if it has one.
pub(crate) fn exchange_at<'a>(
    target: &'a Text,
    places: u8,
    rate: Result<Option<Rate>, RateRange>,
) -> Exchange<'a>
    requires { places ≤ 18 }
    ensures { result ≡ spec.exchange_at target.now places rate }
{
    match rate {
        Ok(Some(rate)) => Exchange::Into(Sale {
            target,
            rate,
            places,
        }),
        Ok(None) => Exchange::Stays,
        Err(_) => Exchange::Out,
    }
}

impl<'a> Sale<'a> {
    /// What a number of the symbol is exchanged for, with as few decimals as it needs.
    fn value_of(&self, number: Dec) -> Option<Share<'a>>
        ensures { result ≡ spec.told_in self.now.target
            (prices_spec.valued number self.now.rate self.now.places) }
    {
        match value(number, self.rate, self.places) {
            Ok(value) => Some(Share {
                symbol: self.target,
                value: value.trimmed(),
            }),
            Err(_) => None,
        }
    }
}

/// An amount again.
pub(crate) fn same<'a>(share: &Share<'a>) -> Share<'a>
    ensures { result ≡ share.now }
{
    Share {
        symbol: share.symbol,
        value: share.value,
    }
}

/// An amount with as few decimals as it needs.
fn short<'a>(share: &Share<'a>) -> Share<'a>
    ensures { result ≡ (share.now.0, spec.shortest share.now.1) }
{
    Share {
        symbol: share.symbol,
        value: share.value.trimmed(),
    }
}

/// What an amount is exchanged for.
pub(crate) fn exchanged<'a>(exchange: &Exchange<'a>, share: &Share<'a>) -> Option<Share<'a>>
    ensures { result ≡ spec.exchanged exchange.now share.now }
{
    match exchange {
        Exchange::Stays => Some(short(share)),
        Exchange::Into(sale) => sale.value_of(share.value),
        Exchange::Out => None,
    }
}
