//! Values of amounts.
ghost use Rattle.std.specs.Prelude.{◌≡◌, ◌≤◌, ◌<◌, ◌<ℤ◌, ◌*ℤ◌, ◌*◌, ◌^◌, pos, ◌&&◌, nat_lt, unsigned_abs, if◌then◌else◌};
ghost use Rattle.hl_num.specs.Decimal.{Decimal};
ghost use Rattle.hl_num.specs.Rounding.{signed_half_even};
ghost use Rattle.prices.specs.Values.{valued};

use crate::fractions::{bounded_natural, bounded_product, power_of_ten};
use crate::rate::Rate;
use hl_num::{Dec, DivRange, div_round};

/// An amount times a rate with that many places, rounded half to even once. `DivRange` carries the rate; it comes
/// exactly where `mantissa * num * 10^places` or `den * 10^(the amount's places)` reaches 2^127.
pub fn value(amount: Dec, rate: Rate, places: u8) -> Result<Dec, DivRange>
    requires { places ≤ 18 }
    ensures { result ≡ valued amount rate places }
{
    match value_of_parts(
        mantissa(amount),
        rate.numerator(),
        rate.denominator(),
        power_of_ten(amount.decimals()),
        places,
    ) {
        Some(value) => Ok(value),
        None => Err(out_of_range(rate)),
    }
}

fn mantissa(amount: Dec) -> i128
    ensures { result ≡ amount.mantissa }
{
    amount.mantissa
}

/// `number * num / (den * scale)` with that many places, rounded half to even once.
fn value_of_parts(number: i128, num: i128, den: u128, scale: u128, places: u8) -> Option<Dec>
    requires few { places ≤ 18 }
    requires first { 0 < den }
    requires second { 0 < scale }
    ensures { result ≡ (if nat_lt (unsigned_abs number * unsigned_abs num * 10 ^ places) (2 ^ 127)
        && nat_lt (den * scale) (2 ^ 127)
        then Some (record {
          mantissa = signed_half_even (number *ℤ num *ℤ pos (10 ^ places)) (den * scale);
          places =
              places;
        })
        else None) }
{
    match bounded_product(number, num) {
        Some(product) => over(product, den, scale, places),
        None => None,
    }
}

/// `product / (den * scale)` with that many places, rounded half to even.
fn over(product: i128, den: u128, scale: u128, places: u8) -> Option<Dec>
    requires few { places ≤ 18 }
    requires first { 0 < den }
    requires second { 0 < scale }
    ensures { result ≡ (if nat_lt (unsigned_abs product * 10 ^ places) (2 ^ 127)
        && nat_lt (den * scale) (2 ^ 127)
        then Some (record {
          mantissa = signed_half_even (product *ℤ pos (10 ^ places)) (den * scale);
          places = places;
        })
        else None) }
{
    match bounded_natural(den, scale) {
        Some(divisor) => rounded(product, divisor, places),
        None => None,
    }
}

/// `number / divisor` with that many places, rounded half to even.
fn rounded(number: i128, divisor: u128, places: u8) -> Option<Dec>
    requires few { places ≤ 18 }
    requires above { 0 < divisor }
    requires below { divisor < 2 ^ 127 }
    ensures { result ≡ (if nat_lt (unsigned_abs number * 10 ^ places) (2 ^ 127)
        then Some (record
        { mantissa = signed_half_even (number *ℤ pos (10 ^ places)) divisor; places = places })
        else None) }
{
    match div_round(number, divisor as i128, places) {
        Ok(value) => Some(value),
        Err(_) => None,
    }
}

/// The fault that carries a rate.
fn out_of_range(rate: Rate) -> DivRange
    ensures { result ≡ record { num = rate.num; den = rate.den } }
{
    DivRange {
        num: rate.num,
        den: rate.den,
    }
}
