//! The part of a value by a number of columns.
ghost use Rattle.std.specs.Prelude.{◌≡◌, ◌*◌, ◌*ℤ◌, ◌^◌, ◌<◌, ◌≤◌, Some, None, nat_lt, pos, unsigned_abs, if◌then◌else◌};
ghost use Rattle.hl_num.specs.Decimal.{Decimal, units_of};
ghost use Rattle.hl_num.specs.Rounding.{signed_half_even};
ghost use Rattle.hl_num.specs.Shortest.{shortest};
ghost use Rattle.balance_layouts.specs.KeptAverages.{told_average};

use hl_num::{Dec, div_round};

/// The greatest number of decimals that a quotient is rounded to at once.
const MOST_DECIMALS: u8 = 18;

/// `2^127`.
const LIMIT: u128 = 0x8000_0000_0000_0000_0000_0000_0000_0000;

/// `10^exponent`.
fn power_of_ten(exponent: u8) -> u128
    requires { exponent ≤ 36 }
    ensures value { result ≡ 10 ^ exponent }
    ensures above { 0 < result }
    ensures below { result < 2 ^ 127 }
{
    10_u128.pow(u32::from(exponent))
}

/// The number of columns at a scale, where it stays below 2^127.
fn divisor_of(columns: u64, scale: u128) -> Option<u128>
    ensures { result ≡ (if nat_lt (columns * scale) (2 ^ 127) then Some (columns * scale) else
        None) }
{
    match u128::from(columns).checked_mul(scale) {
        Some(product) if product < LIMIT => Some(product),
        _ => None,
    }
}

/// A number at a scale, where it stays below 2^127.
fn scaled(number: i128, scale: u128) -> Option<i128>
    requires { scale < 2 ^ 127 }
    ensures { result ≡ (if nat_lt (unsigned_abs number * scale) (2 ^ 127)
        then Some (number *ℤ pos scale) else None) }
{
    match number.checked_mul(scale as i128) {
        Some(product) if product != i128::MIN => Some(product),
        _ => None,
    }
}

/// A value's mantissa, with another number of decimals.
fn with_places(value: Dec, places: u8) -> Option<Dec>
    requires { places ≤ 36 }
    ensures { result ≡ Some (record { mantissa = value.mantissa; places = places }) }
{
    let _magnitude = value.magnitude();
    Dec::new(value.mantissa, places)
}

/// `number * 10^missing / divisor`, half to even, in units of the last of so many decimals.
fn rounded(number: i128, divisor: u128, missing: u8, places: u8) -> Option<Dec>
    requires few { missing ≤ 18 }
    requires few_in_all { places ≤ 36 }
    requires above { 0 < divisor }
    requires below { divisor < 2 ^ 127 }
    ensures { result ≡ (if nat_lt (unsigned_abs number * 10 ^ missing) (2 ^ 127)
        then Some (record
        { mantissa = signed_half_even (number *ℤ pos (10 ^ missing)) divisor; places = places })
        else None) }
{
    match div_round(number, divisor as i128, missing) {
        Ok(quotient) => with_places(quotient, places),
        Err(_) => None,
    }
}

/// `number * 10^places / divisor`, half to even, in units of the last of so many decimals.
fn part(number: i128, divisor: u128, places: u8) -> Option<Dec>
    requires few { places ≤ 36 }
    requires above { 0 < divisor }
    requires below { divisor < 2 ^ 127 }
    ensures { result ≡ (if nat_lt (unsigned_abs number * 10 ^ places) (2 ^ 127)
        then Some (record
        { mantissa = signed_half_even (number *ℤ pos (10 ^ places)) divisor; places = places })
        else None) }
{
    let more = places.saturating_sub(MOST_DECIMALS);
    match scaled(number, power_of_ten(more)) {
        Some(dividend) => rounded(dividend, divisor, places - more, places),
        None => None,
    }
}

/// The value with no more decimals than it needs.
fn shortened(value: Dec) -> Dec
    ensures { result ≡ shortest (units_of value) }
{
    let _places = value.decimals();
    value.trimmed()
}

fn mantissa(value: Dec) -> i128
    ensures { result ≡ value.mantissa }
{
    value.mantissa
}

/// A value's part by a number of columns, half to even at so many decimals; none where a term of the division reaches
/// 2^127.
pub(crate) fn average(total: Dec, columns: u64, places: u8) -> Option<Dec>
    requires some { 0 < columns }
    requires few { places ≤ 36 }
    ensures { result ≡ told_average columns places (shortest (units_of total)) }
{
    let short = shortened(total);
    match divisor_of(columns, power_of_ten(short.decimals())) {
        Some(divisor) => part(mantissa(short), divisor, places),
        None => None,
    }
}
