//! Numbers as they are printed.
ghost use Rattle.std.specs.Prelude.{◌≡◌, ◌≤◌, ◌+◌, ◌-◌, ◌*◌, ◌/◌, ◌%◌, ◌^◌, ◌<◌, ◌++◌, IfOk, OnOk, unsigned_abs, int_lt, pos, ◌&&◌, nat_lt};
ghost use Rattle.std.specs.String.{string_bytes};
ghost use Rattle.std.specs.Fmt.{decimal, sign_text};
ghost use Rattle.hl_num.specs.Decimal.{units_of};
ghost use Rattle.hl_num.specs.Rounding.{half_even};
ghost use Rattle.hl_num.specs.ReadBack.{ReadsBack};
ghost use Rattle.hl_num.specs.Printing.{ends_group, separator, grouped, decimals, zero_padded, printed_number};

use crate::decimal::{Dec, power_of_ten};
use crate::rounding;
use hl_base::{Memory, Text};
use std::alloc::Global;
use std::string::ToString;

/// How a number is printed: its decimal mark, and the mark and sizes of the groups of digits left of it. `first` is
/// the size of the rightmost group, `rest` that of the groups left of it.
#[derive(Clone, Copy, Debug, PartialEq, Eq)]
pub struct Shape {
    pub mark: u8,
    pub group: Option<u8>,
    pub first: u8,
    pub rest: u8,
}

impl Shape {
    /// Whether a group ends where that many digits follow.
    fn ends_group(&self, after: usize) -> bool
        ensures { result ≡ ends_group self.now after }
    {
        let first = usize::from(self.first.max(1));
        let rest = usize::from(self.rest.max(1));
        first <= after && (after - first) % rest == 0
    }
}

/// The value, rounded half to even to that many places, without a sign at a rounded zero.
pub fn print_number(alloc: Global, value: Dec, places: u8, shape: &Shape) -> Result<Text, Memory>
    requires { places ≤ 36 }
    ensures text { IfOk result (λ text. text ≡ printed_number value places shape.now) }
    ensures back { IfOk result (ReadsBack value places shape.now) }
{
    let (whole, fraction) = rounded_parts(value, places);
    let mut text = String::new(alloc);
    push_sign(&mut text, has_sign(value, whole, fraction))?;
    push_grouped(alloc, &mut text, whole, shape)?;
    push_decimals(alloc, &mut text, fraction, places, shape)?;
    Ok(Text::from_string(text))
}

/// Whether a value that is rounded to these parts is printed with a sign.
fn has_sign(value: Dec, whole: u128, fraction: u128) -> bool
    ensures { result ≡ (int_lt value.mantissa (pos 0) && nat_lt 0 (whole + fraction)) }
{
    value.mantissa < 0 && (0 < whole || 0 < fraction)
}

/// Puts a minus, where one is wanted.
fn push_sign(text: &mut String, is_negative: bool) -> Result<(), Memory>
    ensures { OnOk result (string_bytes text.new ≡ string_bytes text.old ++ sign_text is_negative) }
{
    if is_negative {
        text.push('-')?;
    }
    Ok(())
}

/// Puts the decimal mark and the decimals, where there are places.
fn push_decimals(
    alloc: Global,
    text: &mut String,
    fraction: u128,
    places: u8,
    shape: &Shape,
) -> Result<(), Memory>
    ensures { OnOk result (string_bytes text.new ≡ string_bytes text.old
        ++ decimals shape.now places fraction) }
{
    if 0 < places {
        text.push(char::from(shape.mark))?;
        push_padded(alloc, text, fraction, usize::from(places))?;
    }
    Ok(())
}

/// The digits left and right of the decimal mark, as numbers, of the magnitude that is rounded to that many places.
fn rounded_parts(value: Dec, places: u8) -> (u128, u128)
    requires { places ≤ 36 }
    ensures whole { result.0 ≡ half_even (unsigned_abs (units_of value)) (10 ^ (36 - places)) / 10 ^
        places }
    ensures fraction { result.1 ≡ half_even (unsigned_abs (units_of value)) (10 ^ (36 - places)) %
        10 ^ places }
{
    let magnitude = value.magnitude();
    if value.places <= places {
        let scale = power_of_ten(value.places);
        (
            magnitude / scale,
            (magnitude % scale) * power_of_ten(places - value.places),
        )
    } else {
        let rounded = rounding::half_even(magnitude, power_of_ten(value.places - places));
        let scale = power_of_ten(places);
        (rounded / scale, rounded % scale)
    }
}

/// Puts the digits of a number with their group marks.
fn push_grouped(alloc: Global, text: &mut String, number: u128, shape: &Shape) -> Result<(), Memory>
    ensures { OnOk result (string_bytes text.new ≡ string_bytes text.old
        ++ grouped shape.now (decimal number)) }
{
    let digits = number.to_string(alloc)?;
    let bytes = digits.as_bytes();
    for (i, digit) in bytes.iter().enumerate() {
        text.push(char::from(*digit))?;
        push_separator(text, shape, bytes.len() - 1 - i)?;
    }
    Ok(())
}

/// Puts a group mark, where a group ends.
fn push_separator(text: &mut String, shape: &Shape, after: usize) -> Result<(), Memory>
    ensures { OnOk result (string_bytes text.new ≡ string_bytes text.old
        ++ separator shape.now after) }
{
    if shape.ends_group(after)
        && let Some(mark) = shape.group
    {
        text.push(char::from(mark))?;
    }
    Ok(())
}

/// Puts the digits of a number, after as many zeros as make up the width.
fn push_padded(alloc: Global, text: &mut String, number: u128, width: usize) -> Result<(), Memory>
    ensures { OnOk result (string_bytes text.new ≡ string_bytes text.old
        ++ zero_padded width number) }
{
    let digits = number.to_string(alloc)?;
    for _ in 0..width.saturating_sub(digits.len()) {
        text.push('0')?;
    }
    text.push_str(digits.as_str())?;
    Ok(())
}
