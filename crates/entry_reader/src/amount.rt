//! Reads amounts and their costs.
ghost use Rattle.std.specs.Prelude.{◌≡◌, ◌==◌, ◌||◌, true, if◌then◌else◌, Err, ◌<◌, ◌≤◌, nat_lt, length, IfOk, drop};
ghost use Rattle.std.specs.Str.{is_utf8};
ghost use Rattle.hl_base.specs.Gives.{Gives};
ghost use Rattle.hl_num.specs.Reading.{reading};
ghost use Rattle.entry_reader.specs.Causes.{cause_in, fault_at};
ghost use Rattle.entry_reader.specs.Amounts as spec;
ghost use Rattle.entry_reader.specs.Lines.{first_is};
ghost use Rattle.book.specs.declared.fault.Cause.TheVariants.{Encoding};

use crate::context::Context;
use crate::fault::{ReadFault, fault_at};
use crate::scan::{
    after_white, before, begins, begins_sign, begins_white, cut_number, has, is_utf8, past_first,
    trimmed,
};
use crate::symbol::{cut_name, ends_amount, is_left_good, is_right_good};
use book::{Amount, Boxed, Cause, Cost, Written};
use hl_num::{Dec, Number, read_number};
use std::alloc::Global;

/// What stands before a number, and the text that begins with the number.
#[derive(Clone, Copy)]
struct Left<'a> {
    is_negative: bool,
    symbol: &'a [u8],
    spaced: bool,
    rest: &'a [u8],
}

/// What stands behind a number, and what follows.
#[derive(Clone, Copy)]
pub struct Right<'a> {
    pub symbol: &'a [u8],
    pub spaced: bool,
    pub is_good: bool,
    pub rest: &'a [u8],
}

/// What follows a sign and the white space after it, where a sign stands first.
pub fn after_sign(text: &[u8]) -> &[u8]
    ensures value { result.now ≡ spec.after_sign text.now }
    ensures utf8 { is_utf8 text.now ≡ true → is_utf8 result.now ≡ true }
{
    if begins_sign(text) {
        after_white(past_first(text))
    } else {
        text
    }
}

/// The sign and the symbol before a number.
#[tactic(auto, unfolding(crate::specs::Amounts::left_at))]
fn read_left(text: &[u8], line: u64) -> Result<Left<'_>, ReadFault>
    ensures value { Gives (λ x. spec.left_of x.is_negative x.symbol.now x.spaced x.rest.now)
        cause_in result (spec.left_at line text.now) }
    ensures utf8 { is_utf8 text.now ≡ true
        → IfOk result (λ x. (is_utf8 x.symbol.now ≡ true) × (is_utf8 x.rest.now ≡ true)) }
{
    let inner = after_sign(text);
    if !is_left_good(inner) {
        return Err(fault_at(line, Cause::Quote));
    }
    let (symbol, behind) = cut_name(inner);
    let second = after_white(behind);
    if begins_sign(text) && begins_sign(second) {
        return Err(fault_at(line, Cause::Number));
    }
    Ok(Left {
        is_negative: begins(text, b'-') || begins(second, b'-'),
        symbol,
        spaced: begins_white(behind),
        rest: after_sign(second),
    })
}

/// The symbol behind a number, where none stands before it.
#[tactic(auto, using(crate::proofs::Texts::empty_utf8), unfolding(crate::specs::Amounts::right_at))]
#[inline]
pub fn read_right(text: &[u8], has_symbol: bool) -> Right<'_>
    ensures value { spec.right_with result.symbol.now result.spaced result.is_good result.rest.now
        ≡ spec.right_at has_symbol text.now }
    ensures utf8 { is_utf8 text.now ≡ true → (is_utf8 result.symbol.now ≡ true)
        × (is_utf8 result.rest.now ≡ true) }
{
    let behind = after_white(text);
    if has_symbol || ends_amount(behind) {
        return Right {
            symbol: &[],
            spaced: false,
            is_good: true,
            rest: behind,
        };
    }
    let (symbol, rest) = cut_name(behind);
    Right {
        symbol,
        spaced: begins_white(text),
        is_good: is_right_good(behind),
        rest: after_white(rest),
    }
}

/// The number that digits and marks are.
pub fn number_of(digits: &[u8], mark: Option<u8>, line: u64) -> Result<Number, ReadFault>
    ensures { Gives (λ number.
        number) cause_in result (spec.number_or_fault line (reading digits.now mark)) }
{
    match read_number(digits, mark) {
        Ok(number) => Ok(number),
        Err(_) => Err(fault_at(line, Cause::Number)),
    }
}

/// A value, or its opposite.
pub fn signed(is_negative: bool, value: Dec) -> Dec
    ensures { result ≡ spec.signed is_negative value }
{
    if is_negative { value.negated() } else { value }
}

/// How an amount is written.
fn shape_of(is_left: bool, spaced: bool, number: &Number) -> Written
    ensures { result ≡ spec.shape_from is_left spaced number.now }
{
    Written {
        left: is_left,
        spaced,
        mark: number.mark,
        group: number.group,
        first: number.first,
        rest: number.rest,
    }
}

/// The symbol that is written on one side or the other.
fn written_symbol<'a>(left: &'a [u8], right: &'a [u8]) -> &'a [u8]
    ensures value { result.now ≡ (if nat_lt 0 (length left.now) then left.now else right.now) }
    ensures utf8 { is_utf8 left.now ≡ true → is_utf8 right.now ≡ true → is_utf8 result.now ≡ true }
{
    if left.is_empty() { right } else { left }
}

/// The amount that a text begins with, and what follows it and white space.
#[tactic(auto, unfolding(crate::specs::Amounts::amount_at))]
pub fn amount_at<'a>(
    alloc: Global,
    context: &Context,
    text: &'a [u8],
    line: u64,
) -> Result<(Amount, &'a [u8]), ReadFault>
    requires { is_utf8 text.now ≡ true }
    ensures value { Gives (λ x. (x.0, x.1.now)) cause_in result
        (spec.amount_at context.now line text.now) }
    ensures utf8 { IfOk result (λ x. is_utf8 x.1.now ≡ true) }
{
    let left = read_left(text, line)?;
    let (digits, behind) = cut_number(left.rest);
    let is_left = !left.symbol.is_empty();
    let right = read_right(behind, is_left);
    let written = written_symbol(left.symbol, right.symbol);
    let number = number_of(digits, context.decided_mark(written), line)?;
    if !right.is_good {
        return Err(fault_at(line, Cause::Quote));
    }
    let spaced = if is_left { left.spaced } else { right.spaced };
    let amount = Amount {
        symbol: context.symbol_of(alloc, written)?,
        value: signed(left.is_negative, number.value),
        shape: shape_of(is_left, spaced, &number),
    };
    Ok((amount, right.rest))
}

/// How many bytes the mark of a total cost has, if it stands.
fn total_mark(text: &[u8]) -> usize
    ensures value { result ≡ spec.total_mark text.now }
    ensures bound { result ≤ length text.now }
{
    if text.starts_with(b"@@") {
        2
    } else if text.starts_with(b"(@@)") {
        4
    } else {
        0
    }
}

/// How many bytes the mark of a unit cost has, if it stands.
fn unit_mark(text: &[u8]) -> usize
    ensures value { result ≡ spec.unit_mark text.now }
    ensures bound { result ≤ length text.now }
{
    if text.starts_with(b"@") {
        1
    } else if text.starts_with(b"(@)") {
        3
    } else {
        0
    }
}

/// Whether a text may begin with the mark of a cost.
fn may_begin_cost(text: &[u8]) -> bool
    ensures { result ≡ first_is (λ b. (b == 64) || (b == 40)) text.now }
{
    match text {
        [] => false,
        [first, ..] => *first == b'@' || *first == b'(',
    }
}

/// The cost that a text begins with, if any, and what follows it and white space.
#[tactic(auto, unfolding(crate::specs::Amounts::cost_at))]
pub fn cost_at<'a>(
    alloc: Global,
    context: &Context,
    text: &'a [u8],
    line: u64,
) -> Result<(Option<Boxed<Cost>>, &'a [u8]), ReadFault>
    requires { is_utf8 text.now ≡ true }
    ensures value { Gives (λ x. (x.0, x.1.now)) cause_in result
        (spec.cost_at context.now line text.now) }
    ensures utf8 { IfOk result (λ x. is_utf8 x.1.now ≡ true) }
{
    if !may_begin_cost(text) {
        return Ok((None, text));
    }
    let total = total_mark(text);
    if 0 < total {
        let (_, behind) = text.split_at(total);
        let (amount, rest) = amount_at(alloc, context, after_white(behind), line)?;
        return Ok((Some(Boxed::new(alloc, Cost::Total(amount))?), rest));
    }
    let unit = unit_mark(text);
    if 0 < unit {
        let (_, behind) = text.split_at(unit);
        let (amount, rest) = amount_at(alloc, context, after_white(behind), line)?;
        return Ok((Some(Boxed::new(alloc, Cost::Unit(amount))?), rest));
    }
    Ok((None, text))
}

/// The amount that a text begins with, where nothing follows it. Another line is no part of an amount.
fn read_alone(
    alloc: Global,
    context: &Context,
    text: &[u8],
    is_line: bool,
) -> Result<Amount, ReadFault>
    requires { is_utf8 text.now ≡ true }
    ensures { Gives (λ amount.
        amount) cause_in result (spec.alone_of is_line (spec.amount_at context.now 1 text.now)) }
{
    let (amount, rest) = amount_at(alloc, context, text, 1)?;
    if rest.is_empty() && is_line {
        Ok(amount)
    } else {
        Err(fault_at(1, Cause::Form))
    }
}

/// The amount that a whole text is, but for white space at its ends. The faults are in line 1: bytes that aren't UTF-8;
/// a symbol that doesn't stand in quotes as it must; two signs, and a number that is none or too large; and text or a line
/// end after the amount. The first place in the text decides.
#[tactic(auto, unfolding(crate::specs::Amounts::amount_alone))]
pub fn read_amount(alloc: Global, text: &[u8], context: &Context) -> Result<Amount, ReadFault>
    ensures { Gives (λ amount. amount) cause_in result
        (if is_utf8 text.now then spec.amount_alone context.now text.now else Err
        (fault_at 1 Encoding)) }
{
    if !is_utf8(text) {
        return Err(fault_at(1, Cause::Encoding));
    }
    read_alone(
        alloc,
        context,
        trimmed(before(text, b'\n')),
        !has(text, b'\n'),
    )
}
