//! Fractions in lowest terms, and their products.
ghost use Rattle.std.specs.Prelude.{◌≡◌, ◌<◌, ◌≤◌, ◌^◌, ◌*◌, ◌/◌, ◌*ℤ◌, ◌<ℤ◌, pos, ◌&&◌, nat_lt, unsigned_abs, if◌then◌else◌};
ghost use Rattle.std.specs.Int.{IsGcd};
ghost use Rattle.prices.specs.Fractions.{gcd, reduced, product_fits, product, product_of, declared_rate, reverse_rate};

use crate::rate::{Rate, RateRange};
use hl_num::Dec;

/// `2^127`.
const LIMIT: u128 = 0x8000_0000_0000_0000_0000_0000_0000_0000;

/// The greatest common divisor.
fn gcd(a: u128, b: u128) -> u128
    requires { 0 < b }
    ensures value { result ≡ gcd a b }
    ensures greatest { IsGcd a b result }
    ensures above { 0 < result }
    ensures below { result ≤ b }
{
    let mut x = a;
    let mut y = b;
    while y != 0 {
        let rest = x % y;
        x = y;
        y = rest;
    }
    x
}

/// `num / den` in lowest terms.
fn reduced(num: i128, den: u128) -> Rate
    requires numerator { unsigned_abs num < 2 ^ 127 }
    requires above { 0 < den }
    requires below { den < 2 ^ 127 }
    ensures { result ≡ reduced num den }
{
    let magnitude = num.unsigned_abs();
    let divisor = gcd(magnitude, den);
    let quotient = (magnitude / divisor) as i128;
    Rate {
        num: if num < 0 { -quotient } else { quotient },
        den: divided(den, divisor),
    }
}

/// A quotient that is at least one.
fn divided(number: u128, divisor: u128) -> i128
    requires above { 0 < divisor }
    requires at_most { divisor ≤ number }
    requires below { number < 2 ^ 127 }
    ensures value { result ≡ pos (number / divisor) }
    ensures positive { pos 0 <ℤ result }
{
    (number / divisor) as i128
}

/// What one unit is worth by its price.
pub(crate) fn declared_rate(price: Dec) -> Rate
    ensures { result ≡ declared_rate price }
{
    reduced(price.mantissa, power_of_ten(price.decimals()))
}

/// What one unit of the other symbol is worth, where the price isn't zero.
pub(crate) fn reverse_rate(price: Dec) -> Rate
    requires { 0 < unsigned_abs price.mantissa }
    ensures { result ≡ reverse_rate price }
{
    let scale = power_of_ten(price.decimals()) as i128;
    let num = if price.is_negative() { -scale } else { scale };
    reduced(num, price.magnitude())
}

/// `10^exponent`.
pub(crate) fn power_of_ten(exponent: u8) -> u128
    requires { exponent ≤ 36 }
    ensures value { result ≡ 10 ^ exponent }
    ensures above { 0 < result }
    ensures below { result < 2 ^ 127 }
{
    10_u128.pow(u32::from(exponent))
}

/// The product, where it stays below 2^127.
pub(crate) fn bounded_product(a: i128, b: i128) -> Option<i128>
    ensures { result ≡ (if nat_lt (unsigned_abs a * unsigned_abs b) (2 ^ 127)
        then Some (a *ℤ b) else None) }
{
    match a.checked_mul(b) {
        Some(product) if product != i128::MIN => Some(product),
        _ => None,
    }
}

/// The product of two natural numbers, where it stays below 2^127.
pub(crate) fn bounded_natural(a: u128, b: u128) -> Option<u128>
    ensures { result ≡ (if nat_lt (a * b) (2 ^ 127) then Some (a * b) else None) }
{
    match a.checked_mul(b) {
        Some(product) if product < LIMIT => Some(product),
        _ => None,
    }
}

/// The product in lowest terms.
fn product(a: Rate, b: Rate) -> Result<Rate, RateRange>
    ensures { result ≡ (if product_fits a b
        then Ok (product a b) else Err (record { num = a.num; den = a.den })) }
{
    match product_of_parts(
        a.numerator(),
        a.denominator(),
        b.numerator(),
        b.denominator(),
    ) {
        Some(rate) => Ok(rate),
        None => Err(a.as_range()),
    }
}

/// The product of two fractions in lowest terms.
fn product_of_parts(a_num: i128, a_den: u128, b_num: i128, b_den: u128) -> Option<Rate>
    requires first { 0 < a_den }
    requires second { 0 < b_den }
    ensures { result ≡ (if nat_lt (unsigned_abs a_num * unsigned_abs b_num) (2 ^ 127)
        && nat_lt (a_den * b_den) (2 ^ 127)
        then Some (reduced (a_num *ℤ b_num) (a_den * b_den)) else None) }
{
    match bounded_product(a_num, b_num) {
        Some(num) => reduced_over(num, a_den, b_den),
        None => None,
    }
}

/// A numerator over a product of two denominators in lowest terms.
fn reduced_over(num: i128, a_den: u128, b_den: u128) -> Option<Rate>
    requires numerator { unsigned_abs num < 2 ^ 127 }
    requires first { 0 < a_den }
    requires second { 0 < b_den }
    ensures { result ≡ (if nat_lt (a_den * b_den) (2 ^ 127)
        then Some (reduced num (a_den * b_den)) else None) }
{
    match bounded_natural(a_den, b_den) {
        Some(den) => Some(reduced(num, den)),
        None => None,
    }
}

/// The product of some rates, reduced at each step.
pub(crate) fn product_of(rates: &[Rate]) -> Result<Rate, RateRange>
    ensures { result ≡ product_of rates.now }
{
    let mut so_far = Rate { num: 1, den: 1 };
    for rate in rates {
        so_far = product(so_far, *rate)?;
    }
    Ok(so_far)
}
