//! What amounts and costs come to.
ghost use Rattle.std.specs.Prelude.{◌≡◌, true, unsigned_abs};
ghost use Rattle.hl_num.specs.Decimal.{mul_fits};
ghost use Rattle.entry_balance.specs.Values.{at_cost, cost_of, cost_fits, product, signed_like, absolute};
ghost use Rattle.entry_balance.specs.Entry.{optional_cost_fits, amount_cost_fits, costs_fit};

use crate::tally::Sum;
use book::{Amount, Boxed, Cost, Posting};
use hl_num::Dec;

/// A number without its sign.
pub fn absolute(number: Dec) -> Dec
    ensures { result ≡ absolute number }
{
    Dec {
        mantissa: number.magnitude() as i128,
        places: number.places,
    }
}

/// An amount at cost: what it costs, and itself where no cost is written.
pub(crate) fn at_cost<'a>(amount: &'a Amount, cost: &'a Option<Boxed<Cost>>) -> Sum<'a>
    requires { optional_cost_fits amount.now cost.now ≡ true }
    ensures symbol { result.0.now ≡ (at_cost amount.now cost.now).0 }
    ensures number { result.1 ≡ (at_cost amount.now cost.now).1 }
{
    match cost {
        Some(cost) => cost_of(amount.value, cost.get()),
        None => (amount.symbol.as_str(), amount.value),
    }
}

/// What a quantity costs.
pub fn cost_of(quantity: Dec, cost: &Cost) -> Sum<'_>
    requires { cost_fits quantity cost.now ≡ true }
    ensures symbol { result.0.now ≡ (cost_of quantity cost.now).0 }
    ensures number { result.1 ≡ (cost_of quantity cost.now).1 }
{
    match cost {
        Cost::Unit(amount) => (amount.symbol.as_str(), product(quantity, amount.value)),
        Cost::Total(amount) => (amount.symbol.as_str(), signed_like(quantity, amount.value)),
    }
}

/// The product of two numbers that is in range.
fn product(a: Dec, b: Dec) -> Dec
    requires { mul_fits a b ≡ true }
    ensures { result ≡ product a b }
{
    match a.mul(b) {
        Ok(product) => {
            let _places = product.decimals();
            product
        }
        Err(_) => unreachable!(),
    }
}

/// The absolute value of a number with the sign of a quantity, and zero for a zero quantity.
fn signed_like(quantity: Dec, number: Dec) -> Dec
    ensures { result ≡ record {
      mantissa = signed_like quantity.mantissa (unsigned_abs number.mantissa);
      places =
          number.places;
    } }
{
    if quantity.is_negative() {
        absolute(number).negated()
    } else if quantity.is_zero() {
        Dec {
            mantissa: 0,
            places: number.places,
        }
    } else {
        absolute(number)
    }
}

/// Whether a cost can be told.
fn cost_fits(quantity: Dec, cost: &Cost) -> bool
    ensures { result ≡ cost_fits quantity cost.now }
{
    match cost {
        Cost::Unit(amount) => quantity.mul(amount.value).is_ok(),
        Cost::Total(_) => true,
    }
}

/// Whether the cost of a posting can be told, if it has one.
fn posting_fits(posting: &Posting) -> bool
    ensures { result ≡ amount_cost_fits posting.now.amount posting.now.cost }
{
    match &posting.amount {
        Some(amount) => match &posting.cost {
            Some(cost) => cost_fits(amount.value, cost.get()),
            None => true,
        },
        None => true,
    }
}

/// Whether the cost of each posting can be told.
pub fn costs_fit(postings: &[Posting]) -> bool
    ensures { result ≡ costs_fit postings.now }
{
    postings.iter().all(posting_fits)
}
