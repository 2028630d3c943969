//! The percentage of a goal that an amount comes to.
ghost use Rattle.std.specs.Prelude.{◌≡◌, ◌*◌, ◌*ℤ◌, ◌^◌, ◌<◌, ◌≤◌, ◌∷◌, Some, None, nat_lt, option_map, pos, unsigned_abs, if◌then◌else◌};
ghost use Rattle.std.specs.Str.{bytes_eq};
ghost use Rattle.hl_num.specs.Decimal.{negated, units_of};
ghost use Rattle.hl_num.specs.Rounding.{half_even, signed_half_even, with_sign};
ghost use Rattle.report_cells.specs.Report.{seen};
ghost use Rattle.balance_rows.specs.Rows.{has_sums};
ghost use Rattle.hl_num.specs.Shortest.{shortest};
ghost use Rattle.budget_layout.specs.Percents.{alone_in, are_opposite, percent_beside, percent_by, percent_in, percent_told};

use book::Mixed;
use hl_base::Text;
use hl_num::{Dec, div_round};

/// What an amount is of a goal.
#[derive(Clone, Copy)]
pub(crate) enum Percent {
    /// The amount has another symbol, or there isn't one goal.
    Missing,
    /// A whole number.
    Told(Dec),
    /// A term of its division reaches 2^127.
    OutOfRange,
}

/// `2^127`.
const LIMIT: u128 = 0x8000_0000_0000_0000_0000_0000_0000_0000;

/// `10^exponent`.
fn power_of_ten(exponent: u8) -> u128
    requires { exponent ≤ 38 }
    ensures value { result ≡ 10 ^ exponent }
    ensures above { 0 < result }
{
    10_u128.pow(u32::from(exponent))
}

/// A product, where it stays below 2^127.
fn product(number: u128, scale: u128) -> Option<u128>
    ensures { result ≡ (if nat_lt (number * scale) (2 ^ 127) then Some (number * scale) else None) }
{
    match number.checked_mul(scale) {
        Some(product) if product < LIMIT => Some(product),
        _ => None,
    }
}

/// `number / divisor`, half to even, as a whole number.
fn quotient(number: u128, divisor: u128) -> Dec
    requires small { number < 2 ^ 127 }
    requires above { 0 < divisor }
    requires below { divisor < 2 ^ 127 }
    ensures { result ≡ record
        { mantissa = signed_half_even (pos number *ℤ pos (10 ^ 0)) divisor; places = 0 } }
{
    match div_round(number as i128, divisor as i128, 0) {
        Ok(quotient) => quotient,
        Err(_) => unreachable!(),
    }
}

/// Whether one of two values is below zero and the other isn't.
fn are_opposite(amount: Dec, goal: Dec) -> bool
    ensures { result ≡ are_opposite amount goal }
{
    if amount.is_negative() {
        !goal.is_negative()
    } else {
        goal.is_negative()
    }
}

/// A number, with the other sign where it is to be below zero.
fn signed(number: Dec, is_negative: bool) -> Dec
    ensures { result ≡ (if is_negative then negated number else number) }
{
    if is_negative {
        number.negated()
    } else {
        number
    }
}

/// The percentage of a goal by 100 times the amount at the goal's decimals.
fn told_by(part: u128, amount: Dec, goal: Dec) -> Percent
    requires small { part < 2 ^ 127 }
    requires some { 0 < unsigned_abs goal.mantissa }
    ensures { result ≡ (if nat_lt (unsigned_abs goal.mantissa * 10 ^ amount.places) (2 ^ 127)
        then Percent.Told (record {
          mantissa = with_sign (are_opposite amount goal)
              (half_even part (unsigned_abs goal.mantissa * 10 ^ amount.places));
          places = 0;
        })
        else Percent.OutOfRange) }
{
    match product(goal.magnitude(), power_of_ten(amount.decimals())) {
        Some(whole) => {
            let number = quotient(part, whole);
            Percent::Told(signed(number, are_opposite(amount, goal)))
        }
        None => Percent::OutOfRange,
    }
}

/// The percentage of a goal that isn't zero, where it can be told.
fn percent_told(amount: Dec, goal: Dec) -> Percent
    requires { 0 < unsigned_abs goal.mantissa }
    ensures { result ≡ percent_told amount goal }
{
    match product(amount.magnitude(), power_of_ten(goal.decimals() + 2)) {
        Some(part) => told_by(part, amount, goal),
        None => Percent::OutOfRange,
    }
}

/// The value with no more decimals than it needs.
fn shortened(value: Dec) -> Dec
    ensures { result ≡ shortest (units_of value) }
{
    let _places = value.decimals();
    value.trimmed()
}

/// What a value is of a goal in as few decimals as it needs, if that isn't zero.
fn percent_of(amount: Dec, goal: Dec) -> Percent
    ensures { result ≡ percent_by (Some (units_of amount)) goal }
{
    if goal.magnitude() == 0 {
        return Percent::Missing;
    }
    percent_told(shortened(amount), goal)
}

/// What an amount is of a goal, if there is one.
fn percent_by(amount: Option<Dec>, goal: Dec) -> Percent
    ensures { result ≡ percent_by (option_map units_of amount) goal }
{
    match amount {
        Some(amount) => percent_of(amount, goal),
        None => Percent::Missing,
    }
}

/// Whether there are sums.
fn has_sums(sums: &[(Text, Dec)]) -> bool
    ensures { result ≡ has_sums (seen sums.now) }
{
    match sums {
        [] => false,
        [_, ..] => true,
    }
}

/// What a sum and some others come to in a symbol, where they have no other.
fn alone(symbol: &Text, sum: &(Text, Dec), sums: &[(Text, Dec)]) -> Option<Dec>
    ensures { option_map units_of result
        ≡ alone_in symbol.now ((sum.now.0, units_of sum.now.1) ∷ seen sums.now) }
{
    if has_sums(sums) {
        return None;
    }
    if sum.0.as_str() == symbol.as_str() {
        Some(sum.1)
    } else {
        None
    }
}

/// What some sums come to in a symbol, where they have no other.
fn alone_in(symbol: &Text, sums: &[(Text, Dec)]) -> Option<Dec>
    ensures { option_map units_of result ≡ alone_in symbol.now (seen sums.now) }
{
    match sums.split_first() {
        Some((sum, others)) => alone(symbol, sum, others),
        None => Some(Dec::zero()),
    }
}

/// What amounts without another symbol are of a goal.
fn percent_beside(actual: &Mixed, goal: &(Text, Dec)) -> Percent
    ensures { result ≡ percent_beside (seen actual.now) (goal.now.0, units_of goal.now.1) }
{
    let amount = alone_in(&goal.0, actual.entries());
    percent_by(amount, shortened(goal.1))
}

/// The percentage that amounts are of a goal, where there is no other.
pub(crate) fn percent_in(actual: &Mixed, goal: &(Text, Dec), goals: &[(Text, Dec)]) -> Percent
    ensures { result
        ≡ percent_in (seen actual.now) ((goal.now.0, units_of goal.now.1) ∷ seen goals.now) }
{
    if has_sums(goals) {
        return Percent::Missing;
    }
    percent_beside(actual, goal)
}
