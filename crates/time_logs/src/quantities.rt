//! The quantities of a timedot text.
ghost use Rattle.std.specs.Prelude.{◌≡◌, ◌≤◌, ◌<◌, ◌-◌, ◌*◌, ◌^◌, length};
ghost use Rattle.std.specs.List.{fold, list_all};
ghost use Rattle.std.specs.Option.{option_copied};
ghost use Rattle.time_logs.specs.Days.{hours_of};
ghost use Rattle.time_logs.specs.Quantities as spec;

use crate::amounts::hours_of;
use entry_reader::scan::{after, before};
use hl_base::{are_digits, is_digit};
use hl_num::Dec;

/// How many dots there are.
fn dots_in(text: &[u8]) -> usize
    ensures count { result ≡ spec.dots_in text.now }
    ensures bound { result ≤ length text.now }
{
    text.iter().filter(|byte| **byte == b'.').count()
}

/// Whether a text is dots and spaces alone.
fn are_dots(text: &[u8]) -> bool
    ensures { result ≡ spec.are_dots text.now }
{
    text.iter().all(|byte| *byte == b'.' || *byte == b' ')
}

/// Whether a text is dots and spaces with at least one dot.
fn is_dots(text: &[u8]) -> bool
    ensures { result ≡ spec.is_dots text.now }
{
    are_dots(text) && 1 <= dots_in(text)
}

/// Whether a text is 1 to 12 digits, and nothing else.
fn are_few_digits(text: &[u8]) -> bool
    ensures { result ≡ spec.are_few_digits text.now }
{
    are_digits(text) && 1 <= text.len() && text.len() <= 12
}

/// A number with a digit more, or the greatest that is told.
fn with_digit(number: u64, digit: u8) -> u64
    ensures { result ≡ spec.with_digit number digit }
{
    number
        .saturating_mul(10)
        .saturating_add(u64::from(digit.saturating_sub(b'0')))
}

/// The number that digits write, or the greatest that is told.
#[tactic(auto, using(std::proofs::lemmas::List::Sums::fold_more))]
fn number_of(digits: &[u8]) -> u64
    ensures { result ≡ spec.number_of digits.now }
{
    let mut number = 0;
    for digit in digits {
        number = with_digit(number, *digit);
    }
    number
}

/// So many hundredths of hours.
fn hundredths(count: u128) -> Dec
    requires { count < 2 ^ 100 }
    ensures { result ≡ spec.hundredths count }
{
    Dec {
        mantissa: count as i128,
        places: 2,
    }
}

/// The hours that dots write, a quarter each.
fn dots_hours(text: &[u8]) -> Dec
    ensures { result ≡ spec.hundredths (25 * spec.dots_in text.now) }
{
    hundredths(25 * dots_in(text) as u128)
}

/// Whether a text is a number of hours: 1 to 12 digits, of which at most two are decimals after a point.
fn is_number(text: &[u8]) -> bool
    ensures { result ≡ spec.is_number text.now }
{
    let whole = before(text, b'.');
    let decimals = after(text, b'.');
    are_digits(whole)
        && are_digits(decimals)
        && 1 <= whole.len() + decimals.len()
        && whole.len() + decimals.len() <= 12
        && decimals.len() <= 2
}

/// Decimals as hundredths.
fn decimals_value(decimals: &[u8]) -> u128
    requires { length decimals.now ≤ 2 }
    ensures value { result ≡ spec.number_of decimals.now * 10 ^ (2 - length decimals.now) }
    ensures bound { result < 2 ^ 72 }
{
    let number = u128::from(number_of(decimals));
    match decimals.len() {
        0 => number * 100,
        1 => number * 10,
        _ => number,
    }
}

/// The hours that a number writes.
fn number_hours(text: &[u8]) -> Dec
    requires { length (spec.decimals_of text.now) ≤ 2 }
    ensures { result ≡ spec.number_hours text.now }
{
    let whole = u128::from(number_of(before(text, b'.')));
    let decimals = decimals_value(after(text, b'.'));
    hundredths(100 * whole + decimals)
}

/// The digits before an `m` at the end, 1 to 12 of them.
#[tactic(auto, unfolding(crate::specs::Quantities::minutes_in))]
fn minutes_in(text: &[u8]) -> Option<&[u8]>
    ensures { option_copied result ≡ spec.minutes_in text.now }
{
    let (digits, ends) = match text.split_last() {
        Some((last, digits)) => (digits, *last == b'm'),
        None => return None,
    };
    if ends && are_few_digits(digits) {
        Some(digits)
    } else {
        None
    }
}

/// The hours of so many minutes.
fn minutes_hours(digits: &[u8]) -> Dec
    ensures { result ≡ hours_of (60 * spec.number_of digits.now) }
{
    hours_of(60 * u128::from(number_of(digits)))
}

/// The hours of a quantity: each dot is a quarter of an hour; a number of hours; or minutes.
#[tactic(auto, unfolding(crate::specs::Quantities::quantity_of))]
pub fn quantity_of(text: &[u8]) -> Option<Dec>
    ensures { result ≡ spec.quantity_of text.now }
{
    if is_dots(text) {
        return Some(dots_hours(text));
    }
    if is_number(text) {
        return Some(number_hours(text));
    }
    let digits = minutes_in(text)?;
    Some(minutes_hours(digits))
}
