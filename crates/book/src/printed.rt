//! Amounts as they are printed.
ghost use Rattle.std.specs.Prelude.{◌≡◌, ◌≤◌, ◌++◌, IfOk, OnOk};
ghost use Rattle.std.specs.String.{string_bytes};
ghost use Rattle.std.specs.List.{list_all};
ghost use Rattle.book.specs.Printed.{number_shape, mark_of, mark_beside, printed_symbol, printed_amount};
ghost use Rattle.book.specs.Printed.{plain_amount, with_symbol, stands_unquoted, gap_of};

use crate::amount::Written;
use crate::style::Style;
use hl_base::{Memory, Text};
use hl_num::{Dec, Shape, print_number};
use std::alloc::Global;

impl Written {
    /// How numbers of this shape are printed.
    pub fn number_shape(&self) -> Shape
        ensures { result ≡ number_shape self.now }
    {
        let mark = match (self.mark, self.group) {
            (Some(mark), _) => mark,
            (None, Some(b'.')) => b',',
            (None, _) => b'.',
        };
        Shape {
            mark,
            group: self.group,
            first: self.first,
            rest: self.rest,
        }
    }
}

/// A value with its symbol, rounded and shaped as the style says. The empty symbol leaves the number alone.
pub fn print_amount(alloc: Global, symbol: &Text, value: Dec, style: &Style) -> Result<Text, Memory>
    requires { style.now.places ≤ 36 }
    ensures { IfOk result (λ text. text ≡ printed_amount symbol.now value style.now) }
{
    let number = print_number(alloc, value, style.places, &style.shape.number_shape())?;
    with_symbol(alloc, &style.shape, symbol, number)
}

/// A printed number with a symbol, by the side and spacing of a shape. The empty symbol leaves the number alone.
pub fn with_symbol(
    alloc: Global,
    shape: &Written,
    symbol: &Text,
    number: Text,
) -> Result<Text, Memory>
    ensures { IfOk result (λ text. text ≡ with_symbol shape.now symbol.now number) }
{
    if symbol.as_str().is_empty() {
        return Ok(number);
    }
    let mut text = String::new(alloc);
    if shape.left {
        push_symbol(&mut text, symbol.as_str())?;
        push_gap(&mut text, shape.spaced)?;
        text.push_str(number.as_str())?;
    } else {
        text.push_str(number.as_str())?;
        push_gap(&mut text, shape.spaced)?;
        push_symbol(&mut text, symbol.as_str())?;
    }
    Ok(Text::from_string(text))
}

/// Puts a space, where one is wanted.
fn push_gap(text: &mut String, is_spaced: bool) -> Result<(), Memory>
    ensures { OnOk result (string_bytes text.new ≡ string_bytes text.old ++ gap_of is_spaced) }
{
    if is_spaced {
        text.push(' ')?;
    }
    Ok(())
}

/// Puts a symbol, in double quotes where it can't stand without.
fn push_symbol(text: &mut String, symbol: &str) -> Result<(), Memory>
    ensures { OnOk result (string_bytes text.new ≡ string_bytes text.old
        ++ printed_symbol symbol.now) }
{
    if is_plain_word(symbol) {
        text.push_str(symbol)?;
    } else {
        text.push('"')?;
        text.push_str(symbol)?;
        text.push('"')?;
    }
    Ok(())
}

/// Whether a symbol may stand without quotes.
fn is_plain_word(symbol: &str) -> bool
    ensures { result ≡ list_all stands_unquoted symbol.now }
{
    symbol.as_bytes().iter().all(|byte| stands_unquoted(*byte))
}

/// Whether a byte may stand in a symbol without quotes.
fn stands_unquoted(byte: u8) -> bool
    ensures { result ≡ stands_unquoted byte }
{
    match byte {
        b'$' | b'%' | b'_' => true,
        b' ' | b'\t' | b'\r' | b'\n' => false,
        _ => !byte.is_ascii_digit() && !byte.is_ascii_punctuation(),
    }
}

/// An amount as it stands in an error line: the exact number with all its decimals, a space, and the symbol.
pub fn print_plain(alloc: Global, symbol: &Text, value: Dec) -> Result<Text, Memory>
    ensures { IfOk result (λ text. text ≡ plain_amount symbol.now value) }
{
    let shape = Shape {
        mark: b'.',
        group: None,
        first: 3,
        rest: 3,
    };
    let number = print_number(alloc, value, value.decimals(), &shape)?;
    let mut text = number.into_string(alloc)?;
    text.push(' ')?;
    text.push_str(symbol.as_str())?;
    Ok(Text::from_string(text))
}
