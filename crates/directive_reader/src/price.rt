//! `P DATE [H:M[:S]] SYMBOL AMOUNT`.
ghost use Rattle.std.specs.Prelude.{◌≡◌, ◌+◌, ◌<◌, ◌≤◌, ◌^◌, true, length, take, drop, IfOk};
ghost use Rattle.std.specs.List.{prefix_len};
ghost use Rattle.std.specs.Str.{is_utf8};
ghost use Rattle.hl_base.specs.Gives.{Gives};
ghost use Rattle.entry_reader.specs.Causes.{cause_in};
ghost use Rattle.entry_reader.specs.Lines.{contents_of};
ghost use Rattle.hl_num.specs.Reading.{is_digit};
ghost use Rattle.directive_reader.specs.Prices as spec;

use crate::commodity::is_symbol;
use crate::ending::{check_closing, ends_line};
use book::{Cause, Price};
use entry_reader::amount::amount_at;
use entry_reader::fault::fault_at;
use entry_reader::head::read_day;
use entry_reader::scan::{after, after_white, before, has, is_white, text_of};
use entry_reader::symbol::cut_name;
use entry_reader::{Context, ReadFault};
use hl_base::is_digit;
use std::alloc::Global;

/// Whether a text is one or two digits of a number that isn't above the last one.
fn is_part(text: &[u8], last: u8) -> bool
    ensures { result ≡ spec.is_part last text.now }
{
    match text {
        [one] => is_digit(*one),
        [ten, one] => is_digit(*ten)
            && is_digit(*one)
            && 10 * (*ten - b'0') + (*one - b'0') <= last,
        _ => false,
    }
}

/// Whether a text is a minute, and perhaps a second after a colon.
fn is_after_hour(text: &[u8]) -> bool
    ensures { result ≡ spec.is_after_hour text.now }
{
    is_part(before(text, b':'), 59) && (!has(text, b':') || is_part(after(text, b':'), 59))
}

/// Whether a word is a time of day.
#[tactic(auto, unfolding(crate::specs::Prices::is_time))]
fn is_time(word: &[u8]) -> bool
    ensures { result ≡ spec.is_time word.now }
{
    has(word, b':') && is_part(before(word, b':'), 23) && is_after_hour(after(word, b':'))
}

#[tactic(auto, using(entry_reader::proofs::Texts::prefix_count, entry_reader::proofs::Texts::prefix_bound))]
fn word_length(text: &[u8]) -> usize
    ensures count { result ≡ prefix_len spec.is_inked text.now }
    ensures bound { result ≤ length text.now }
{
    text.iter().take_while(|byte| !is_white(**byte)).count()
}

/// The word that a text begins with, and what follows it.
#[tactic(auto, using(crate::proofs::Prices::after_inked))]
fn cut_word(text: &[u8]) -> (&[u8], &[u8])
    ensures word { result.0.now ≡ take (prefix_len spec.is_inked text.now) text.now }
    ensures rest { result.1.now ≡ drop (prefix_len spec.is_inked text.now) text.now }
    ensures utf8 { is_utf8 text.now ≡ true → is_utf8 result.1.now ≡ true }
{
    text.split_at(word_length(text))
}

/// What follows a time and white space, where a time stands first.
fn after_time(text: &[u8]) -> &[u8]
    ensures value { result.now ≡ spec.after_time text.now }
    ensures utf8 { is_utf8 text.now ≡ true → is_utf8 result.now ≡ true }
{
    let (word, rest) = cut_word(text);
    if is_time(word) {
        after_white(rest)
    } else {
        text
    }
}

/// The symbol that a text begins with, and what follows it and white space.
#[tactic(auto, unfolding(crate::specs::Prices::symbol_at))]
fn read_symbol(text: &[u8], line: u64) -> Result<(&[u8], &[u8]), ReadFault>
    requires { is_utf8 text.now ≡ true }
    ensures value { Gives (λ x. (x.0.now, x.1.now)) cause_in result (spec.symbol_at line text.now) }
    ensures utf8 { IfOk result (λ x. (is_utf8 x.0.now ≡ true) × (is_utf8 x.1.now ≡ true)) }
{
    if ends_line(text) {
        return Err(fault_at(line, Cause::Form));
    }
    if !is_symbol(text) {
        return Err(fault_at(line, Cause::Quote));
    }
    let (symbol, rest) = cut_name(text);
    Ok((symbol, after_white(rest)))
}

/// The price that a line says; its time isn't kept.
#[tactic(auto, unfolding(crate::specs::Prices::price_of))]
pub fn read_price(
    alloc: Global,
    context: &Context,
    text: &[u8],
    lines: &[u8],
    line: u64,
) -> Result<Price, ReadFault>
    requires text { is_utf8 text.now ≡ true }
    requires room { line + 1 + length (contents_of lines.now) < 2 ^ 64 }
    ensures { Gives (λ p. p) cause_in result
        (spec.price_of context.now line text.now (contents_of lines.now)) }
{
    let (day, rest) = read_day(text, context.year(), line)?;
    let (symbol, rest) = read_symbol(after_time(rest), line)?;
    let (amount, rest) = amount_at(alloc, context, rest, line)?;
    check_closing(rest, lines, line)?;
    Ok(Price {
        day,
        symbol: text_of(alloc, symbol)?,
        amount,
    })
}
