//! `commodity AMOUNT`; `commodity SYMBOL`, with an indented line `format AMOUNT` or nothing; and `D AMOUNT`.
ghost use Rattle.std.specs.Prelude.{◌≡◌, ◌+◌, ◌<◌, ◌^◌, true, false, length, MatchOption, IfSome};
ghost use Rattle.std.specs.Str.{is_utf8, bytes_eq};
ghost use Rattle.hl_base.specs.Gives.{Gives};
ghost use Rattle.entry_reader.specs.Causes.{cause_in};
ghost use Rattle.entry_reader.specs.Lines.{contents_of};
ghost use Rattle.directive_reader.specs.Commodities as spec;

use crate::ending::{check_closing, check_comments, ends_line};
use crate::keyword::after_word;
use book::{Amount, Cause, Directive};
use entry_reader::amount::amount_at;
use entry_reader::comment::is_comment;
use entry_reader::fault::fault_at;
use entry_reader::scan::{after_white, begins, begins_white, cut_line, has, past_first, text_of};
use entry_reader::symbol::cut_name;
use entry_reader::{Context, ReadFault};
use hl_base::Text;
use std::alloc::Global;

/// Whether a symbol stands at a text's front, in quotes or without.
pub fn is_symbol(text: &[u8]) -> bool
    ensures { result ≡ spec.is_symbol text.now }
{
    let (name, _) = cut_name(text);
    !name.is_empty() && (!begins(text, b'"') || has(past_first(text), b'"'))
}

/// Whether a symbol stands there, and nothing but a comment follows it on its line.
fn is_symbol_alone(text: &[u8]) -> bool
    ensures { result ≡ spec.is_symbol_alone text.now }
{
    let (_, rest) = cut_name(text);
    is_symbol(text) && ends_line(after_white(rest))
}

/// What follows the word `format` of an indented line, and white space.
fn after_format(content: &[u8]) -> Option<&[u8]>
    requires { is_utf8 content.now ≡ true }
    ensures value { MatchOption result (spec.is_format content.now ≡ false)
        (λ x. (spec.is_format content.now ≡ true) × (x.now ≡ spec.after_format content.now)) }
    ensures utf8 { IfSome result (λ x. is_utf8 x.now ≡ true) }
{
    if begins_white(content) {
        after_word(after_white(content), b"format")
    } else {
        None
    }
}

/// Whether an amount is of a symbol.
fn is_of(amount: &Amount, symbol: &[u8]) -> bool
    ensures { result ≡ bytes_eq amount.now.symbol symbol.now }
{
    amount.symbol.as_bytes() == symbol
}

/// An indented line `format AMOUNT`.
#[tactic(auto, unfolding(crate::specs::Commodities::format_at))]
fn read_format(
    alloc: Global,
    context: &Context,
    symbol: &[u8],
    content: &[u8],
    line: u64,
) -> Result<Amount, ReadFault>
    requires { is_utf8 content.now ≡ true }
    ensures { Gives (λ a. a) cause_in result
        (spec.format_at context.now symbol.now line content.now) }
{
    let Some(text) = after_format(content) else {
        return Err(fault_at(line, Cause::Form));
    };
    let (amount, rest) = amount_at(alloc, context, text, line)?;
    if is_of(&amount, symbol) && ends_line(rest) {
        Ok(amount)
    } else {
        Err(fault_at(line, Cause::Form))
    }
}

/// The amount of the one line among comment lines that isn't a comment, of which the first is the `line`-th.
#[tactic(auto, unfolding(crate::specs::Commodities::format_in))]
fn find_format(
    alloc: Global,
    context: &Context,
    symbol: &[u8],
    lines: &[u8],
    line: u64,
) -> Result<Option<Amount>, ReadFault>
    requires utf8 { is_utf8 lines.now ≡ true }
    requires room { line + length (contents_of lines.now) < 2 ^ 64 }
    ensures { Gives (λ a. a) cause_in result
        (spec.format_in context.now symbol.now line (contents_of lines.now)) }
{
    let mut rest = lines;
    let mut next = line;
    while !rest.is_empty() {
        let (content, more) = cut_line(rest);
        if !is_comment(content) {
            let amount = read_format(alloc, context, symbol, content, next)?;
            check_comments(more, next + 1)?;
            return Ok(Some(amount));
        }
        rest = more;
        next += 1;
    }
    Ok(None)
}

/// `commodity SYMBOL`.
#[tactic(auto, unfolding(crate::specs::Commodities::symbol_directive))]
fn read_symbol_directive(
    alloc: Global,
    context: &Context,
    text: &[u8],
    lines: &[u8],
    line: u64,
) -> Result<Directive, ReadFault>
    requires text { is_utf8 text.now ≡ true }
    requires after { is_utf8 lines.now ≡ true }
    requires room { line + 1 + length (contents_of lines.now) < 2 ^ 64 }
    ensures { Gives (λ d. d) cause_in result
        (spec.symbol_directive context.now line text.now (contents_of lines.now)) }
{
    let (symbol, _) = cut_name(text);
    let amount = find_format(alloc, context, symbol, lines, line + 1)?;
    Ok(Directive::Commodity(text_of(alloc, symbol)?, amount))
}

/// `commodity AMOUNT`.
#[tactic(auto, unfolding(crate::specs::Commodities::amount_directive))]
fn read_amount_directive(
    alloc: Global,
    context: &Context,
    text: &[u8],
    lines: &[u8],
    line: u64,
) -> Result<Directive, ReadFault>
    requires text { is_utf8 text.now ≡ true }
    requires room { line + 1 + length (contents_of lines.now) < 2 ^ 64 }
    ensures { Gives (λ d. d) cause_in result
        (spec.amount_directive context.now line text.now (contents_of lines.now)) }
{
    let (amount, rest) = amount_at(alloc, context, text, line)?;
    check_closing(rest, lines, line)?;
    let symbol = Text::copied(alloc, amount.symbol.as_str())?;
    Ok(Directive::Commodity(symbol, Some(amount)))
}

/// `commodity AMOUNT` or `commodity SYMBOL`.
pub fn read_commodity(
    alloc: Global,
    context: &Context,
    text: &[u8],
    lines: &[u8],
    line: u64,
) -> Result<Directive, ReadFault>
    requires text { is_utf8 text.now ≡ true }
    requires after { is_utf8 lines.now ≡ true }
    requires room { line + 1 + length (contents_of lines.now) < 2 ^ 64 }
    ensures { Gives (λ d. d) cause_in result
        (spec.commodity_of context.now line text.now (contents_of lines.now)) }
{
    if is_symbol_alone(text) {
        read_symbol_directive(alloc, context, text, lines, line)
    } else {
        read_amount_directive(alloc, context, text, lines, line)
    }
}

/// `D AMOUNT`.
#[tactic(auto, unfolding(crate::specs::Commodities::default_of))]
pub fn read_default(
    alloc: Global,
    context: &Context,
    text: &[u8],
    lines: &[u8],
    line: u64,
) -> Result<Directive, ReadFault>
    requires text { is_utf8 text.now ≡ true }
    requires room { line + 1 + length (contents_of lines.now) < 2 ^ 64 }
    ensures { Gives (λ d. d) cause_in result
        (spec.default_of context.now line text.now (contents_of lines.now)) }
{
    let (amount, rest) = amount_at(alloc, context, text, line)?;
    check_closing(rest, lines, line)?;
    Ok(Directive::Default(amount))
}
