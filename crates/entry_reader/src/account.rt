//! Reads the accounts of postings.
ghost use Rattle.std.specs.Prelude.{◌≡◌, ◌==◌, ◌+◌, ◌-◌, ◌<◌, ◌≤◌, true, length, take, drop, nat_le, IfOk, if◌then◌else◌, Err};
ghost use Rattle.std.specs.List.{list_all, count_by};
ghost use Rattle.std.specs.Str.{is_utf8};
ghost use Rattle.hl_base.specs.Gives.{Gives};
ghost use Rattle.entry_reader.specs.Causes.{cause_in, fault_at};
ghost use Rattle.entry_reader.specs.Accounts as spec;
ghost use Rattle.book.specs.Accounts.{parts_of};
ghost use Rattle.book.specs.declared.fault.Cause.TheVariants.{Encoding};

use crate::context::Context;
use crate::fault::{ReadFault, fault_at};
use crate::scan::{before, before_white, begins_white, has, is_utf8, is_white, text_of};
use book::{Cause, Side};
use hl_base::Text;
use std::alloc::Global;

/// Whether an account ends before a byte. No white space lies above the blank, which tells most bytes at once.
#[tactic(auto, using(crate::proofs::Names::goes_on))]
fn ends_name(byte: u8, rest: &[u8]) -> bool
    ensures { result ≡ spec.ends_name byte rest.now }
{
    byte <= b' ' && is_white(byte) && (byte == b'\t' || begins_white(rest))
}

/// How many bytes the account has that a text begins with: up to a tab or two white spaces.
fn account_length(text: &[u8]) -> usize
    ensures length { result ≡ spec.account_len text.now }
    ensures bound { result ≤ length text.now }
{
    for (i, byte) in text.iter().enumerate() {
        if ends_name(*byte, &text[i + 1..]) {
            return i;
        }
    }
    text.len()
}

/// The account that a text begins with, and what follows it.
#[tactic(auto, using(crate::proofs::Names::name_utf8, crate::proofs::Names::after_name_utf8))]
pub fn cut_account(text: &[u8]) -> (&[u8], &[u8])
    ensures account { result.0.now ≡ take (spec.account_len text.now) text.now }
    ensures rest { result.1.now ≡ drop (spec.account_len text.now) text.now }
    ensures utf8 { is_utf8 text.now ≡ true → (is_utf8 result.0.now ≡ true)
        × (is_utf8 result.1.now ≡ true) }
{
    text.split_at(account_length(text))
}

/// Whether a text stands between two bytes.
fn is_within(text: &[u8], first: u8, last: u8) -> bool
    ensures { result ≡ spec.is_within first last text.now }
{
    2 <= text.len() && text[0] == first && text[text.len() - 1] == last
}

/// The side of an account: in parentheses or brackets it is virtual.
fn side_of(text: &[u8]) -> Side
    ensures { result ≡ spec.side_of text.now }
{
    if is_within(text, b'(', b')') {
        Side::Free
    } else if is_within(text, b'[', b']') {
        Side::Balanced
    } else {
        Side::Real
    }
}

/// What stands between two bytes.
#[tactic(auto, using(crate::proofs::Names::within_long, crate::proofs::Names::inside_utf8))]
fn inside(text: &[u8], first: u8, last: u8) -> &[u8]
    requires within { spec.is_within first last text.now ≡ true }
    requires first { first < 128 }
    requires last { last < 128 }
    ensures value { result.now ≡ take (length text.now - 2) (drop 1 text.now) }
    ensures utf8 { is_utf8 text.now ≡ true → is_utf8 result.now ≡ true }
{
    let (_, behind) = text.split_at(1);
    let (inside, _) = behind.split_at(text.len() - 2);
    inside
}

/// The name of an account without its brackets.
fn name_of(text: &[u8]) -> &[u8]
    ensures value { result.now ≡ spec.name_of text.now }
    ensures utf8 { is_utf8 text.now ≡ true → is_utf8 result.now ≡ true }
{
    if is_within(text, b'(', b')') {
        inside(text, b'(', b')')
    } else if is_within(text, b'[', b']') {
        inside(text, b'[', b']')
    } else {
        text
    }
}

/// Whether no part of an account is empty.
#[tactic(auto, using(crate::proofs::Parts::fills_is))]
fn are_parts_filled(account: &[u8]) -> bool
    ensures { result ≡ list_all (λ part. nat_le 1 (length part)) (parts_of account.now) }
{
    let mut is_open = false;
    for byte in account {
        if *byte != b':' {
            is_open = true;
        } else if is_open {
            is_open = false;
        } else {
            return false;
        }
    }
    is_open
}

/// How many colons divide an account.
fn colon_count(account: &[u8]) -> usize
    ensures { result ≡ count_by (λ b. b == 58) account.now }
{
    account.iter().filter(|byte| **byte == b':').count()
}

/// Whether an account has at most 64 parts; one of fewer bytes has.
#[tactic(auto, using(crate::proofs::Parts::part_count, crate::proofs::Parts::few_colons))]
fn has_few_parts(account: &[u8]) -> bool
    ensures { result ≡ nat_le (length (parts_of account.now)) 64 }
{
    account.len() < 64 || colon_count(account) < 64
}

/// Whether an account has 1 to 64 parts, none of them empty.
pub fn has_parts(account: &[u8]) -> bool
    ensures { result ≡ spec.has_parts account.now }
{
    has_few_parts(account) && are_parts_filled(account)
}

/// The side and the name that an account's text is.
pub fn read_name(text: &[u8], line: u64) -> Result<(Side, &[u8]), ReadFault>
    ensures value { Gives (λ x. (x.0, x.1.now)) cause_in result (spec.account_of line text.now) }
    ensures utf8 { is_utf8 text.now ≡ true → IfOk result (λ x. is_utf8 x.1.now ≡ true) }
{
    let name = name_of(text);
    if has_parts(name) {
        Ok((side_of(text), name))
    } else {
        Err(fault_at(line, Cause::Account))
    }
}

/// The account that a written name stands for in a context. The name has 1 to 64 parts, none of them empty, as it is
/// written and as the context changes it.
#[tactic(auto, using(crate::proofs::Named::unchanged_name))]
#[inline]
pub fn read_name_in(
    alloc: Global,
    context: &Context,
    name: &[u8],
    line: u64,
) -> Result<Text, ReadFault>
    requires { is_utf8 name.now ≡ true }
    ensures { Gives (λ account. account) cause_in result (spec.name_in context.now line name.now) }
{
    if !has_parts(name) {
        return Err(fault_at(line, Cause::Account));
    }
    if !context.changes_names() {
        return Ok(text_of(alloc, name)?);
    }
    let account = context.account_named(alloc, name)?;
    if has_parts(account.as_bytes()) {
        Ok(account)
    } else {
        Err(fault_at(line, Cause::Account))
    }
}

/// The side and the name of the account that a text is, as the context changes it.
pub fn read_account_in(
    alloc: Global,
    context: &Context,
    text: &[u8],
    line: u64,
) -> Result<(Side, Text), ReadFault>
    requires { is_utf8 text.now ≡ true }
    ensures { Gives (λ account.
        account) cause_in result (spec.account_at context.now line text.now) }
{
    let account = read_name_in(alloc, context, name_of(text), line)?;
    Ok((side_of(text), account))
}

/// Whether all of a text is an account, without white space at its ends.
fn is_account_text(text: &[u8]) -> bool
    ensures { result ≡ spec.is_account_text text.now }
{
    let (_, last) = text.split_at(text.len().saturating_sub(1));
    account_length(text) == text.len()
        && !begins_white(text)
        && !has(text, b'\n')
        && !begins_white(last)
}

/// What a line's text is the account of, were it one.
fn account_front(line: &[u8]) -> &[u8]
    ensures value { result.now ≡ spec.account_front line.now }
    ensures utf8 { is_utf8 line.now ≡ true → is_utf8 result.now ≡ true }
{
    let (account, _) = cut_account(line);
    before_white(account)
}

/// The account of a posting that a whole text is, as it is written: its side, and its name without the brackets. The
/// faults are in line 1: bytes that aren't UTF-8; white space at the front; a name with an empty part or more than 64
/// parts; and text, white space or a line end after the account. The first place in the text decides.
#[tactic(auto, unfolding(crate::specs::Accounts::account_alone))]
pub fn read_account(alloc: Global, text: &[u8]) -> Result<(Side, Text), ReadFault>
    ensures { Gives (λ account. account) cause_in result
        (if is_utf8 text.now then spec.account_alone text.now else Err (fault_at 1 Encoding)) }
{
    if !is_utf8(text) {
        return Err(fault_at(1, Cause::Encoding));
    }
    if begins_white(text) {
        return Err(fault_at(1, Cause::Form));
    }
    let (side, name) = read_name(account_front(before(text, b'\n')), 1)?;
    if !is_account_text(text) {
        return Err(fault_at(1, Cause::Form));
    }
    let name = text_of(alloc, name)?;
    Ok((side, name))
}
