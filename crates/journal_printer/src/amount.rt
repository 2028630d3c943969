//! Amounts in a shape, with their own decimals.
ghost use Rattle.std.specs.Prelude.{◌≡◌, ◌≤◌, IfOk, unsigned_abs};
ghost use Rattle.journal_printer.specs.Amounts.{places_needed, own_places, has_group_mark, number_text, amount_text};

use book::{Amount, Written, with_symbol};
use hl_base::{Memory, Text};
use hl_num::{Dec, print_number};
use std::alloc::Global;

/// An amount in a shape, with the decimals that it is written with, or where it was found, with those that its value
/// needs.
pub fn amount_text(
    alloc: Global,
    amount: &Amount,
    shape: &Written,
    is_found: bool,
) -> Result<Text, Memory>
    ensures { IfOk result (λ text. text ≡ amount_text shape.now is_found amount.now) }
{
    let places = own_places(amount.value, is_found);
    let number = number_text(alloc, amount.value, places, shape)?;
    with_symbol(alloc, shape, &amount.symbol, number)
}

/// The decimals that are shown of a value: all, or where it was found, those that it needs.
fn own_places(value: Dec, is_found: bool) -> u8
    ensures value { result ≡ own_places is_found value }
    ensures bound { result ≤ 36 }
{
    if is_found {
        places_needed(value)
    } else {
        value.decimals()
    }
}

/// The decimals of a value without the zeros at their end.
fn places_needed(value: Dec) -> u8
    ensures value { result ≡ places_needed (unsigned_abs value.mantissa) value.places }
    ensures bound { result ≤ 36 }
{
    let mut magnitude = value.magnitude();
    let mut places = value.decimals();
    while 0 < places && magnitude % 10 == 0 {
        magnitude /= 10;
        places -= 1;
    }
    places
}

/// A number in a shape. One without decimals in which a group mark stands ends with the decimal mark, since it would
/// read as another number without.
fn number_text(alloc: Global, value: Dec, places: u8, shape: &Written) -> Result<Text, Memory>
    requires { places ≤ 36 }
    ensures { IfOk result (λ text. text ≡ number_text shape.now places value) }
{
    let number_shape = shape.number_shape();
    let number = print_number(alloc, value, places, &number_shape)?;
    if places == 0 && has_group_mark(number_shape.group, number.as_bytes()) {
        let mut text = number.into_string(alloc)?;
        text.push(char::from(number_shape.mark))?;
        return Ok(Text::from_string(text));
    }
    Ok(number)
}

/// Whether a group mark stands in a number.
fn has_group_mark(group: Option<u8>, number: &[u8]) -> bool
    ensures { result ≡ has_group_mark group number.now }
{
    match group {
        Some(mark) => number.contains(&mark),
        None => false,
    }
}
