//! The amounts of a record.
ghost use Rattle.std.specs.Prelude.{◌≡◌, ◌<◌, true, false, IfOk, option_map, length, slice_index, ◌-◌, Some};
ghost use Rattle.std.specs.Str.{is_utf8};
ghost use Rattle.entry_reader.specs.Lines as lines;
ghost use Rattle.csv_entries.specs.Amounts as spec;

use crate::spaces::stripped;
use book::{Amount, Directive, Item, Written};
use entry_reader::scan::{begins, has, past_first};
use entry_reader::symbol::cut_name;
use entry_reader::{Context, ReadFault, read_amount};
use hl_base::{Memory, Text};
use query_terms::cutting::{bytes_of, text_of};
use std::alloc::Global;

/// What stands before the amounts of a file.
pub fn context_of(alloc: Global, mark: Option<u8>) -> Result<Context, Memory>
    ensures { IfOk result (λ context. context ≡ spec.context mark) }
{
    let mut context = Context::start(alloc, None)?;
    match mark {
        Some(mark) => {
            context.after(alloc, &Item::Directive(Directive::DecimalMark(mark)))?;
            Ok(context)
        }
        None => Ok(context),
    }
}

/// Whether a text stands in round brackets.
fn is_bracketed(text: &[u8]) -> bool
    ensures { result ≡ spec.is_bracketed text.now }
{
    2 <= text.len() && begins(text, b'(') && text[text.len() - 1] == b')'
}

/// The text without its last byte.
#[tactic(auto, using(crate::proofs::InBrackets::front_utf8))]
fn without_last(text: &[u8]) -> &[u8]
    requires some { 0 < length text.now }
    requires ascii { slice_index text.now (length text.now - 1) < 128 }
    ensures value { result.now ≡ spec.without_last text.now }
    ensures utf8 { is_utf8 text.now ≡ true → is_utf8 result.now ≡ true }
{
    let (front, _) = text.split_at(text.len() - 1);
    front
}

/// What stands between round brackets.
#[tactic(auto, using(crate::proofs::InBrackets::some_inside, crate::proofs::InBrackets::last_inside))]
fn inside(text: &[u8]) -> &[u8]
    requires { spec.is_bracketed text.now ≡ true }
    ensures value { result.now ≡ spec.inside text.now }
    ensures utf8 { is_utf8 text.now ≡ true → is_utf8 result.now ≡ true }
{
    if begins(text, b'(') {
        stripped(without_last(past_first(text)))
    } else {
        unreachable!()
    }
}

/// The text behind two minus signs, which cancel.
fn without_two(text: &[u8]) -> &[u8]
    ensures value { result.now ≡ spec.without_two text.now }
    ensures utf8 { is_utf8 text.now ≡ true → is_utf8 result.now ≡ true }
{
    if begins(text, b'-') && begins(past_first(text), b'-') {
        past_first(past_first(text))
    } else {
        text
    }
}

/// The amount with the other sign.
fn negated(amount: Amount) -> Amount
    ensures { result ≡ spec.negated_amount amount }
{
    Amount {
        symbol: amount.symbol,
        value: amount.value.negated(),
        shape: amount.shape,
    }
}

/// A copy of an amount, with the other sign.
pub(crate) fn negated_copy(alloc: Global, amount: &Amount) -> Result<Amount, Memory>
    ensures { IfOk result (λ copy. copy ≡ spec.negated_amount amount.now) }
{
    Ok(Amount {
        symbol: Text::copied(alloc, amount.symbol.as_str())?,
        value: amount.value.negated(),
        shape: amount.shape,
    })
}

/// The amount, if there is one, with the other sign.
pub(crate) fn negated_in(amount: Option<Amount>) -> Option<Amount>
    ensures { result ≡ option_map spec.negated_amount amount }
{
    match amount {
        Some(amount) => Some(negated(amount)),
        None => None,
    }
}

/// The amount that a text without brackets writes.
fn plain_amount(alloc: Global, context: &Context, text: &[u8]) -> Result<Option<Amount>, Memory>
    requires { is_utf8 text.now ≡ true }
    ensures { IfOk result (λ amount. amount ≡ spec.plain_amount context.now text.now) }
{
    match read_amount(alloc, without_two(text), context) {
        Ok(amount) => Ok(Some(amount)),
        Err(ReadFault::Read(_)) => Ok(None),
        Err(ReadFault::Memory) => Err(Memory),
    }
}

/// The amount that a text writes; in round brackets it is negated.
pub fn amount_of(alloc: Global, context: &Context, text: &Text) -> Result<Option<Amount>, Memory>
    ensures { IfOk result (λ amount. amount ≡ spec.amount_of context.now text.now) }
{
    let bytes = bytes_of(text.as_str());
    if is_bracketed(bytes) {
        let amount = plain_amount(alloc, context, inside(bytes))?;
        Ok(negated_in(amount))
    } else {
        plain_amount(alloc, context, bytes)
    }
}

pub(crate) fn is_zero(amount: &Amount) -> bool
    ensures { result ≡ spec.is_zero amount.now }
{
    amount.value.magnitude() == 0
}

/// Whether a text is given.
pub(crate) fn is_given(text: &[u8]) -> bool
    ensures { result ≡ spec.is_given text.now }
{
    0 < text.len()
}

/// Whether a symbol in quotes has its second quote, and isn't empty.
fn is_quoted_well(text: &[u8], name: &[u8]) -> bool
    ensures { result ≡ spec.is_quoted text.now name.now }
{
    has(past_first(text), b'"') && is_given(name)
}

/// Whether all of a text is a symbol, as it would stand before a number.
fn is_symbol(text: &[u8]) -> bool
    ensures { result ≡ spec.is_symbol text.now }
{
    let (name, rest) = cut_name(text);
    !is_given(rest) && is_given(name) && (!begins(text, b'"') || is_quoted_well(text, name))
}

/// The shape of an amount with its symbol left of it and without a space.
fn marked(shape: Written) -> Written
    ensures { result ≡ record shape { left = true; spaced = false } }
{
    Written {
        left: true,
        spaced: false,
        mark: shape.mark,
        group: shape.group,
        first: shape.first,
        rest: shape.rest,
    }
}

/// An amount with the currency that is given; none where the amount has a symbol, and where the currency is none.
pub fn in_currency(alloc: Global, currency: &Text, amount: Amount) -> Result<Option<Amount>, Memory>
    ensures { IfOk result (λ found. found ≡ spec.in_currency currency.now amount) }
{
    let currency = bytes_of(currency.as_str());
    if !is_given(currency) {
        return Ok(Some(amount));
    }
    if is_given(amount.symbol.as_bytes()) || !is_symbol(currency) {
        return Ok(None);
    }
    let (name, _) = cut_name(currency);
    Ok(Some(Amount {
        symbol: text_of(alloc, name)?,
        value: amount.value,
        shape: marked(amount.shape),
    }))
}
