//! Directives of names, of the year and of the decimal mark.
ghost use Rattle.std.specs.Prelude.{◌≡◌, ◌+◌, ◌<◌, ◌^◌, true, length, IfOk};
ghost use Rattle.std.specs.Str.{is_utf8};
ghost use Rattle.hl_base.specs.Gives.{Gives};
ghost use Rattle.entry_reader.specs.Causes.{cause_in};
ghost use Rattle.entry_reader.specs.Lines.{contents_of};
ghost use Rattle.directive_reader.specs.Declarations as spec;

use crate::account_type::read_letter;
use crate::ending::{before_comment, check_closing, check_comments, read_ending};
use book::{Cause, Directive};
use entry_reader::account::{cut_account, has_parts, read_name_in};
use entry_reader::fault::fault_at;
use entry_reader::scan::{after, after_white, before, begins, has, past_first, text_of, trimmed};
use entry_reader::{Context, ReadFault};
use std::alloc::Global;

/// The name of an account that a text begins with, and what follows it and white space.
fn cut_name(text: &[u8]) -> (&[u8], &[u8])
    ensures name { result.0.now ≡ spec.name_at text.now }
    ensures rest { result.1.now ≡ spec.after_name text.now }
    ensures utf8 { is_utf8 text.now ≡ true → (is_utf8 result.0.now ≡ true)
        × (is_utf8 result.1.now ≡ true) }
{
    let (name, rest) = cut_account(text);
    (name, after_white(rest))
}

/// `account NAME`, as the context changes the name, with the type that its comments say.
#[tactic(auto, unfolding(crate::specs::Declarations::account_of))]
pub fn read_account_directive(
    alloc: Global,
    context: &Context,
    text: &[u8],
    lines: &[u8],
    line: u64,
) -> Result<Directive, ReadFault>
    requires text { is_utf8 text.now ≡ true }
    requires after { is_utf8 lines.now ≡ true }
    requires room { line + 1 + length (contents_of lines.now) < 2 ^ 64 }
    ensures { Gives (λ d. d) cause_in result
        (spec.account_of context.now line text.now (contents_of lines.now)) }
{
    let (written, rest) = cut_name(text);
    let name = read_name_in(alloc, context, written, line)?;
    let own = read_ending(rest, line)?;
    let letter = read_letter(alloc, own, lines, line)?;
    check_comments(lines, line + 1)?;
    Ok(Directive::Account(name, letter))
}

/// `apply account NAME`.
#[tactic(auto, unfolding(crate::specs::Declarations::apply_of))]
pub fn read_apply(
    alloc: Global,
    text: &[u8],
    lines: &[u8],
    line: u64,
) -> Result<Directive, ReadFault>
    requires text { is_utf8 text.now ≡ true }
    requires room { line + 1 + length (contents_of lines.now) < 2 ^ 64 }
    ensures { Gives (λ d. d) cause_in result (spec.apply_of line text.now (contents_of lines.now)) }
{
    let (name, rest) = cut_name(text);
    if !has_parts(name) {
        return Err(fault_at(line, Cause::Account));
    }
    check_closing(rest, lines, line)?;
    Ok(Directive::Apply(text_of(alloc, name)?))
}

/// `end apply account`, where one is open.
#[tactic(auto, unfolding(crate::specs::Declarations::end_apply_of))]
pub fn read_end_apply(
    context: &Context,
    text: &[u8],
    lines: &[u8],
    line: u64,
) -> Result<Directive, ReadFault>
    requires room { line + 1 + length (contents_of lines.now) < 2 ^ 64 }
    ensures { Gives (λ d. d) cause_in result
        (spec.end_apply_of context.now line text.now (contents_of lines.now)) }
{
    if context.applied_count() == 0 {
        return Err(fault_at(line, Cause::Directive));
    }
    check_closing(text, lines, line)?;
    Ok(Directive::EndApply)
}

/// `end aliases`.
#[tactic(auto, unfolding(crate::specs::Declarations::end_aliases_of))]
pub fn read_end_aliases(text: &[u8], lines: &[u8], line: u64) -> Result<Directive, ReadFault>
    requires room { line + 1 + length (contents_of lines.now) < 2 ^ 64 }
    ensures { Gives (λ d. d) cause_in result
        (spec.end_aliases_of line text.now (contents_of lines.now)) }
{
    check_closing(text, lines, line)?;
    Ok(Directive::EndAliases)
}

/// `alias OLD=NEW`.
#[tactic(auto, unfolding(crate::specs::Declarations::alias_of))]
pub fn read_alias(
    alloc: Global,
    text: &[u8],
    lines: &[u8],
    line: u64,
) -> Result<Directive, ReadFault>
    requires text { is_utf8 text.now ≡ true }
    requires room { line + 1 + length (contents_of lines.now) < 2 ^ 64 }
    ensures { Gives (λ d. d) cause_in result (spec.alias_of line text.now (contents_of lines.now)) }
{
    let names = before_comment(text);
    let old = trimmed(before(names, b'='));
    if !has(names, b'=') || old.is_empty() {
        return Err(fault_at(line, Cause::Form));
    }
    check_comments(lines, line + 1)?;
    let new = text_of(alloc, trimmed(after(names, b'=')))?;
    Ok(Directive::Alias(text_of(alloc, old)?, new))
}

/// A name that is any text up to a comment, and isn't empty.
#[tactic(auto, unfolding(crate::specs::Declarations::label_at))]
fn read_label(text: &[u8], line: u64) -> Result<&[u8], ReadFault>
    requires { is_utf8 text.now ≡ true }
    ensures value { Gives (λ x. x.now) cause_in result (spec.label_at line text.now) }
    ensures utf8 { IfOk result (λ x. is_utf8 x.now ≡ true) }
{
    let label = trimmed(before_comment(text));
    if label.is_empty() {
        Err(fault_at(line, Cause::Form))
    } else {
        Ok(label)
    }
}

/// `payee NAME`.
#[tactic(auto, unfolding(crate::specs::Declarations::payee_of))]
pub fn read_payee(
    alloc: Global,
    text: &[u8],
    lines: &[u8],
    line: u64,
) -> Result<Directive, ReadFault>
    requires text { is_utf8 text.now ≡ true }
    requires room { line + 1 + length (contents_of lines.now) < 2 ^ 64 }
    ensures { Gives (λ d. d) cause_in result (spec.payee_of line text.now (contents_of lines.now)) }
{
    let name = read_label(text, line)?;
    check_comments(lines, line + 1)?;
    Ok(Directive::Payee(text_of(alloc, name)?))
}

/// `tag NAME`.
#[tactic(auto, unfolding(crate::specs::Declarations::tag_of))]
pub fn read_tag(alloc: Global, text: &[u8], lines: &[u8], line: u64) -> Result<Directive, ReadFault>
    requires text { is_utf8 text.now ≡ true }
    requires room { line + 1 + length (contents_of lines.now) < 2 ^ 64 }
    ensures { Gives (λ d. d) cause_in result (spec.tag_of line text.now (contents_of lines.now)) }
{
    let name = read_label(text, line)?;
    check_comments(lines, line + 1)?;
    Ok(Directive::TagName(text_of(alloc, name)?))
}

/// What a digit counts.
fn digit(byte: u8) -> Option<u16>
    ensures { result ≡ spec.digit_of byte }
{
    if b'0' <= byte && byte <= b'9' {
        Some(u16::from(byte - b'0'))
    } else {
        None
    }
}

/// The number that four digits at the front of a text write.
fn four_digits(text: &[u8]) -> Option<u16>
    ensures { result ≡ spec.four_digits text.now }
{
    match text {
        [a, b, c, d, ..] => {
            Some(1000 * digit(*a)? + 100 * digit(*b)? + 10 * digit(*c)? + digit(*d)?)
        }
        _ => None,
    }
}

/// `Y YEAR`, `YYEAR` and `year YEAR`.
#[tactic(auto, unfolding(crate::specs::Declarations::year_of))]
pub fn read_year(text: &[u8], lines: &[u8], line: u64) -> Result<Directive, ReadFault>
    requires room { line + 1 + length (contents_of lines.now) < 2 ^ 64 }
    ensures { Gives (λ d. d) cause_in result (spec.year_of line text.now (contents_of lines.now)) }
{
    let Some(year) = four_digits(text) else {
        return Err(fault_at(line, Cause::Form));
    };
    check_closing(after_digits(text), lines, line)?;
    Ok(Directive::Year(year))
}

/// What follows four bytes and white space.
fn after_digits(text: &[u8]) -> &[u8]
    ensures { result.now ≡ spec.after_digits text.now }
{
    if text.len() < 4 {
        return &[];
    }
    let (_, rest) = text.split_at(4);
    after_white(rest)
}

/// The mark that a text begins with, `.` or `,`.
fn mark_at(text: &[u8]) -> Option<u8>
    ensures { result ≡ spec.mark_at text.now }
{
    if begins(text, b'.') {
        Some(b'.')
    } else if begins(text, b',') {
        Some(b',')
    } else {
        None
    }
}

/// `decimal-mark .` and `decimal-mark ,`.
#[tactic(auto, unfolding(crate::specs::Declarations::decimal_mark_of))]
pub fn read_decimal_mark(text: &[u8], lines: &[u8], line: u64) -> Result<Directive, ReadFault>
    requires room { line + 1 + length (contents_of lines.now) < 2 ^ 64 }
    ensures { Gives (λ d. d) cause_in result
        (spec.decimal_mark_of line text.now (contents_of lines.now)) }
{
    let Some(mark) = mark_at(text) else {
        return Err(fault_at(line, Cause::Form));
    };
    check_closing(after_white(past_first(text)), lines, line)?;
    Ok(Directive::DecimalMark(mark))
}
