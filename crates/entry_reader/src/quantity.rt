//! Reads what stands behind the account of a posting: an amount or a factor, a cost, and an assertion.
ghost use Rattle.std.specs.Prelude.{◌≡◌, true, false, IfOk, if◌then◌else◌, Ok};
ghost use Rattle.std.specs.Str.{is_utf8};
ghost use Rattle.hl_base.specs.Ascii.{equals};
ghost use Rattle.hl_base.specs.Gives.{Gives};
ghost use Rattle.entry_reader.specs.Causes.{cause_in};
ghost use Rattle.entry_reader.specs.Amounts as amounts;
ghost use Rattle.entry_reader.specs.Lines.{begins};
ghost use Rattle.entry_reader.specs.Postings as spec;

use crate::amount::{Right, after_sign, amount_at, cost_at, number_of, read_right, signed};
use crate::context::Context;
use crate::fault::{ReadFault, fault_at};
use crate::scan::{after_white, begins, cut_number, past_first, text_of};
use crate::symbol::ends_amount;
use book::{Amount, Assertion, Boxed, Cause, Cost, Factor};
use hl_base::{Memory, Text};
use std::alloc::Global;

/// What holds a posting: an entry of a year, a rule of a period, or an automated rule.
#[derive(Clone, Copy, Debug, PartialEq, Eq)]
pub enum Holder {
    Entry(u16),
    Periodic,
    Auto,
}

fn is_entry(holder: Holder) -> bool
    ensures { result ≡ spec.is_entry holder }
{
    match holder {
        Holder::Entry(_) => true,
        Holder::Periodic | Holder::Auto => false,
    }
}

fn is_auto(holder: Holder) -> bool
    ensures { result ≡ spec.is_auto holder }
{
    match holder {
        Holder::Auto => true,
        Holder::Entry(_) | Holder::Periodic => false,
    }
}

/// An amount, or a factor in its place, where one is written.
#[derive(Drop)]
struct Quantity {
    amount: Option<Amount>,
    factor: Option<Boxed<Factor>>,
}

/// What a posting says behind its account, where it is written. A factor stands in the place of the amount.
#[derive(Drop)]
pub struct Numbers {
    pub amount: Option<Amount>,
    pub factor: Option<Boxed<Factor>>,
    pub cost: Option<Boxed<Cost>>,
    pub wanted: Option<Boxed<Assertion>>,
}

/// The symbol of a factor, if one is written.
fn factor_symbol(alloc: Global, written: &[u8]) -> Result<Option<Text>, Memory>
    requires { is_utf8 written.now ≡ true }
    ensures { IfOk result (λ symbol. symbol ≡ amounts.factor_symbol written.now) }
{
    if written.is_empty() {
        Ok(None)
    } else {
        Ok(Some(text_of(alloc, written)?))
    }
}

/// The decimal mark that is decided for a factor of which this symbol is written.
fn factor_mark(context: &Context, written: &[u8]) -> Option<u8>
    ensures { result ≡ amounts.factor_mark context.now written.now }
{
    if written.is_empty() {
        context.mark()
    } else {
        context.decided_mark(written)
    }
}

/// The factor of a number's digits and of what stands behind them, and what follows.
fn read_factor_digits<'a>(
    alloc: Global,
    context: &Context,
    is_negative: bool,
    digits: &[u8],
    right: &Right<'a>,
    line: u64,
) -> Result<(Factor, &'a [u8]), ReadFault>
    requires { is_utf8 right.now.symbol.now ≡ true }
    ensures { Gives (λ x. (x.0, x.1.now)) cause_in result
        (amounts.factor_from_right context.now line is_negative digits.now
        (amounts.right_with right.now.symbol.now right.now.spaced right.now.is_good
        right.now.rest.now)) }
{
    let number = number_of(digits, factor_mark(context, right.symbol), line)?;
    if !right.is_good {
        return Err(fault_at(line, Cause::Quote));
    }
    let factor = Factor {
        by: signed(is_negative, number.value),
        symbol: factor_symbol(alloc, right.symbol)?,
    };
    Ok((factor, right.rest))
}

/// The factor that a text behind a `*` begins with, and what follows it and white space.
#[tactic(auto, unfolding(crate::specs::Amounts::factor_at))]
fn factor_at<'a>(
    alloc: Global,
    context: &Context,
    text: &'a [u8],
    line: u64,
) -> Result<(Factor, &'a [u8]), ReadFault>
    requires { is_utf8 text.now ≡ true }
    ensures value { Gives (λ x. (x.0, x.1.now)) cause_in result
        (amounts.factor_at context.now line text.now) }
    ensures utf8 { IfOk result (λ x. is_utf8 x.1.now ≡ true) }
{
    let (digits, behind) = cut_number(after_sign(text));
    let right = read_right(behind, false);
    read_factor_digits(alloc, context, begins(text, b'-'), digits, &right, line)
}

/// The amount that a text begins with, if any, or in an automated rule the factor behind a `*`, and what follows it.
#[tactic(auto, unfolding(crate::specs::Postings::quantity_at))]
fn read_quantity<'a>(
    alloc: Global,
    holder: Holder,
    context: &Context,
    text: &'a [u8],
    line: u64,
) -> Result<(Quantity, &'a [u8]), ReadFault>
    requires { is_utf8 text.now ≡ true }
    ensures value { Gives (λ x. ((x.0.amount, x.0.factor), x.1.now))
        cause_in result (spec.quantity_at holder context.now line text.now) }
    ensures utf8 { IfOk result (λ x. is_utf8 x.1.now ≡ true) }
{
    if ends_amount(text) {
        let quantity = Quantity {
            amount: None,
            factor: None,
        };
        return Ok((quantity, text));
    }
    if is_auto(holder) && begins(text, b'*') {
        let (factor, rest) = factor_at(alloc, context, after_white(past_first(text)), line)?;
        let quantity = Quantity {
            amount: None,
            factor: Some(Boxed::new(alloc, factor)?),
        };
        return Ok((quantity, rest));
    }
    let (amount, rest) = amount_at(alloc, context, text, line)?;
    let quantity = Quantity {
        amount: Some(amount),
        factor: None,
    };
    Ok((quantity, rest))
}

/// The cost behind a quantity that is written, if any, and what follows it.
#[inline(always)]
fn read_cost<'a>(
    alloc: Global,
    is_written: bool,
    context: &Context,
    text: &'a [u8],
    line: u64,
) -> Result<(Option<Boxed<Cost>>, &'a [u8]), ReadFault>
    requires { is_utf8 text.now ≡ true }
    ensures value { Gives (λ x. (x.0, x.1.now)) cause_in result
        (spec.cost_behind is_written context.now line text.now) }
    ensures utf8 { IfOk result (λ x. is_utf8 x.1.now ≡ true) }
{
    if is_written {
        cost_at(alloc, context, text, line)
    } else {
        Ok((None, text))
    }
}

/// Whether an assertion, by what follows its first sign, speaks of every symbol.
fn is_only(text: &[u8]) -> bool
    requires { begins text.now equals ≡ true }
    ensures { result ≡ amounts.is_only text.now }
{
    begins(past_first(text), b'=')
}

/// What follows the one or two signs `=` of an assertion.
fn after_equals(text: &[u8]) -> &[u8]
    requires { begins text.now equals ≡ true }
    ensures value { result.now ≡ amounts.after_equals text.now }
    ensures utf8 { is_utf8 text.now ≡ true → is_utf8 result.now ≡ true }
{
    if !begins(text, b'=') {
        unreachable!()
    }
    let behind = past_first(text);
    if begins(behind, b'=') {
        past_first(behind)
    } else {
        behind
    }
}

/// The assertion of a text that begins with its sign, and what follows it and white space.
#[tactic(auto, unfolding(crate::specs::Amounts::assertion_at))]
fn assertion_at<'a>(
    alloc: Global,
    context: &Context,
    text: &'a [u8],
    line: u64,
) -> Result<(Assertion, &'a [u8]), ReadFault>
    requires sign { begins text.now equals ≡ true }
    requires utf8 { is_utf8 text.now ≡ true }
    ensures value { Gives (λ x. (x.0, x.1.now)) cause_in result
        (amounts.assertion_at context.now line text.now) }
    ensures utf8 { IfOk result (λ x. is_utf8 x.1.now ≡ true) }
{
    let only = is_only(text);
    let behind = after_equals(text);
    let below = begins(behind, b'*');
    let claim = if below { past_first(behind) } else { behind };
    let (amount, rest) = amount_at(alloc, context, after_white(claim), line)?;
    let assertion = Assertion {
        amount,
        only,
        below,
    };
    Ok((assertion, rest))
}

/// The assertion that a text begins with, if any, in an entry alone, and what follows it.
#[tactic(auto, unfolding(crate::specs::Postings::claim_at))]
fn read_claim<'a>(
    alloc: Global,
    holder: Holder,
    context: &Context,
    text: &'a [u8],
    line: u64,
) -> Result<(Option<Boxed<Assertion>>, &'a [u8]), ReadFault>
    requires { is_utf8 text.now ≡ true }
    ensures value { Gives (λ x. (x.0, x.1.now)) cause_in result
        (spec.claim_at holder context.now line text.now) }
    ensures utf8 { IfOk result (λ x. is_utf8 x.1.now ≡ true) }
{
    if is_entry(holder) && begins(text, b'=') {
        let (assertion, rest) = assertion_at(alloc, context, text, line)?;
        let assertion = Boxed::new(alloc, assertion)?;
        return Ok((Some(assertion), rest));
    }
    Ok((None, text))
}

/// What a text says behind the account of a posting, and what follows it. A cost behind an assertion is read and ignored,
/// where an amount stands before it.
#[tactic(auto, unfolding(crate::specs::Postings::numbers_at))]
pub fn read_numbers<'a>(
    alloc: Global,
    holder: Holder,
    context: &Context,
    text: &'a [u8],
    line: u64,
) -> Result<(Numbers, &'a [u8]), ReadFault>
    requires { is_utf8 text.now ≡ true }
    ensures value { Gives (λ x. (
      spec.numbers_of x.0.amount x.0.factor x.0.cost x.0.wanted,
      x.1.now,
    ))
        cause_in result (spec.numbers_at holder context.now line text.now) }
    ensures utf8 { IfOk result (λ x. is_utf8 x.1.now ≡ true) }
{
    let (quantity, rest) = read_quantity(alloc, holder, context, text, line)?;
    let is_written = quantity.amount.is_some() || quantity.factor.is_some();
    let (cost, rest) = read_cost(alloc, is_written, context, rest, line)?;
    let (wanted, rest) = read_claim(alloc, holder, context, rest, line)?;
    let may_ignore = quantity.amount.is_some() && wanted.is_some();
    let (_, rest) = read_cost(alloc, may_ignore, context, rest, line)?;
    let numbers = Numbers {
        amount: quantity.amount,
        factor: quantity.factor,
        cost,
        wanted,
    };
    Ok((numbers, rest))
}
