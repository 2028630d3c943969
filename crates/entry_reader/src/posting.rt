//! Reads the posting lines of an entry.
ghost use Rattle.std.specs.Prelude.{◌≡◌, ◌==◌, ◌+◌, ◌<◌, ◌≤◌, ◌^◌, ◌∷◌, true, IfOk, length};
ghost use Rattle.std.specs.List.{count_by};
ghost use Rattle.std.specs.Str.{is_utf8};
ghost use Rattle.hl_base.specs.Ascii.{line_feed};
ghost use Rattle.hl_base.specs.Gives.{Gives};
ghost use Rattle.entry_reader.specs.Causes.{cause_in};
ghost use Rattle.entry_reader.specs.Comments.{comments_in};
ghost use Rattle.entry_reader.specs.Lines.{contents_of};
ghost use Rattle.entry_reader.specs.Postings as spec;
ghost use Rattle.entry_reader.specs.declared.quantity.Holder.TheVariants.{Auto};

use crate::account::{cut_account, read_account_in};
use crate::comment::{comment_lines, is_comment, read_comment, read_own_day, read_tags};
use crate::context::Context;
use crate::fault::{ReadFault, fault_at};
use crate::head::read_mark;
use crate::quantity::{Holder, Numbers, read_numbers};
use crate::scan::{after_white, begins, begins_white, cut_line, past_first, trimmed};
use book::{Boxed, Cause, Factor, Mark, Posting, RulePosting, Side};
use hl_base::{List, Text};
use hl_time::Day;
use std::alloc::Global;

/// Whether a line has ended, or goes on with a comment.
fn ends_line(text: &[u8]) -> bool
    ensures { result ≡ spec.ends_line text.now }
{
    text.is_empty() || begins(text, b';')
}

fn is_free(side: Side) -> bool
    ensures { result ≡ spec.is_free side }
{
    match side {
        Side::Free => true,
        Side::Real | Side::Balanced => false,
    }
}

/// The comment with which a posting's line ends, empty where there is none.
fn read_ending(text: &[u8], side: Side, says_much: bool, line: u64) -> Result<&[u8], ReadFault>
    requires { is_utf8 text.now ≡ true }
    ensures value { Gives (λ x. x.now) cause_in result
        (spec.ending_of line side says_much text.now) }
    ensures utf8 { IfOk result (λ x. is_utf8 x.now ≡ true) }
{
    if !ends_line(text) {
        return Err(fault_at(line, Cause::Form));
    }
    if is_free(side) && !says_much {
        return Err(fault_at(line, Cause::Form));
    }
    Ok(own_comment(text))
}

/// What follows the `;` that a text begins with, or nothing.
fn own_comment(text: &[u8]) -> &[u8]
    requires ends { spec.ends_line text.now ≡ true }
    requires utf8 { is_utf8 text.now ≡ true }
    ensures value { result.now ≡ spec.comment_at text.now }
    ensures utf8 { is_utf8 result.now ≡ true }
{
    if begins(text, b';') {
        trimmed(past_first(text))
    } else {
        &[]
    }
}

/// Whether a posting has an amount, a factor or an assertion.
fn says_much(numbers: &Numbers) -> bool
    ensures { result ≡ spec.says_much
        (spec.numbers_of numbers.now.amount numbers.now.factor numbers.now.cost
        numbers.now.wanted) }
{
    numbers.amount.is_some() || numbers.factor.is_some() || numbers.wanted.is_some()
}

/// What an indented line's content says of a posting: its mark, its account, its numbers, and its comment.
#[derive(Drop)]
struct Line<'a> {
    mark: Mark,
    side: Side,
    account: Text,
    numbers: Numbers,
    comment: &'a [u8],
}

#[tactic(auto, unfolding(crate::specs::Postings::posting_line))]
fn read_line<'a>(
    alloc: Global,
    holder: Holder,
    context: &Context,
    content: &'a [u8],
    line: u64,
) -> Result<Line<'a>, ReadFault>
    requires { is_utf8 content.now ≡ true }
    ensures value { Gives (λ x. (
      spec.posting_from line x.mark (x.side, x.account)
          (spec.numbers_of x.numbers.amount x.numbers.factor x.numbers.cost x.numbers.wanted),
      x.comment.now,
    ))
        cause_in result (spec.posting_line holder context.now line content.now) }
    ensures utf8 { IfOk result (λ x. is_utf8 x.comment.now ≡ true) }
{
    let (mark, rest) = read_mark(after_white(content), line)?;
    let (text, rest) = cut_account(rest);
    let (side, account) = read_account_in(alloc, context, text, line)?;
    let (numbers, rest) = read_numbers(alloc, holder, context, after_white(rest), line)?;
    let comment = read_ending(rest, side, says_much(&numbers), line)?;
    Ok(Line {
        mark,
        side,
        account,
        numbers,
        comment,
    })
}

/// The day of its own that a posting's comments say; in a rule none.
fn read_day_in(
    holder: Holder,
    own: &[u8],
    after: &[u8],
    line: u64,
) -> Result<Option<Day>, ReadFault>
    requires { line + 1 + length (contents_of after.now) < 2 ^ 64 }
    ensures { Gives (λ day.
        day) cause_in result (spec.own_day holder line (own.now
        ∷ comments_in (contents_of after.now))) }
{
    match holder {
        Holder::Entry(year) => read_own_day(own, after, year, line),
        Holder::Periodic | Holder::Auto => Ok(None),
    }
}

/// The posting of an indented line's content and of the comment lines at the front of what follows, and its factor.
#[tactic(auto, unfolding(crate::specs::Postings::rule_posting_of))]
#[inline]
fn read_with_factor(
    alloc: Global,
    holder: Holder,
    context: &Context,
    content: &[u8],
    after: &[u8],
    line: u64,
) -> Result<(Posting, Option<Boxed<Factor>>), ReadFault>
    requires content { is_utf8 content.now ≡ true }
    requires after { is_utf8 after.now ≡ true }
    requires lines { line + 1 + length (contents_of after.now) < 2 ^ 64 }
    ensures { Gives (λ x. spec.rule_posting_with x.0 x.1) cause_in result
        (spec.rule_posting_of holder context.now line content.now (contents_of after.now)) }
{
    if !begins_white(content) {
        return Err(fault_at(line, Cause::Form));
    }
    let read = read_line(alloc, holder, context, content, line)?;
    let more = comment_lines(after);
    let day = read_day_in(holder, read.comment, more, line)?;
    let comment = read_comment(alloc, read.comment, more)?;
    let tags = read_tags(alloc, read.comment, more)?;
    let posting = Posting {
        line,
        mark: read.mark,
        side: read.side,
        account: read.account,
        amount: read.numbers.amount,
        cost: read.numbers.cost,
        wanted: read.numbers.wanted,
        filled: false,
        costed: false,
        comment,
        tags,
        day,
    };
    Ok((posting, read.numbers.factor))
}

/// The posting of an entry or of a rule of a period.
#[inline]
fn read_posting(
    alloc: Global,
    holder: Holder,
    context: &Context,
    content: &[u8],
    after: &[u8],
    line: u64,
) -> Result<Posting, ReadFault>
    requires content { is_utf8 content.now ≡ true }
    requires after { is_utf8 after.now ≡ true }
    requires lines { line + 1 + length (contents_of after.now) < 2 ^ 64 }
    ensures { Gives (λ posting. posting) cause_in result
        (spec.posting_of holder context.now line content.now (contents_of after.now)) }
{
    let (posting, _) = read_with_factor(alloc, holder, context, content, after, line)?;
    Ok(posting)
}

/// The posting of an automated rule.
fn read_rule_posting(
    alloc: Global,
    context: &Context,
    content: &[u8],
    after: &[u8],
    line: u64,
) -> Result<RulePosting, ReadFault>
    requires content { is_utf8 content.now ≡ true }
    requires after { is_utf8 after.now ≡ true }
    requires lines { line + 1 + length (contents_of after.now) < 2 ^ 64 }
    ensures { Gives (λ posting. posting) cause_in result
        (spec.rule_posting_of Auto context.now line content.now (contents_of after.now)) }
{
    let (posting, factor) = read_with_factor(alloc, Holder::Auto, context, content, after, line)?;
    let factor = match factor {
        Some(factor) => Some(factor.into_inner()),
        None => None,
    };
    Ok(RulePosting { posting, factor })
}

/// How many line ends a text has.
pub fn line_ends(text: &[u8]) -> usize
    ensures { result ≡ count_by (λ b. b == line_feed) text.now }
{
    text.iter().filter(|b| **b == b'\n').count()
}

/// How many postings most entries have.
const USUAL_POSTINGS: usize = 2;

/// The postings that the lines of a text are in an entry or in a rule of a period.
#[tactic(auto, unfolding(crate::specs::Postings::each_of))]
fn read_each(
    alloc: Global,
    holder: Holder,
    context: &Context,
    text: &[u8],
    line: u64,
) -> Result<List<Posting>, ReadFault>
    requires utf8 { is_utf8 text.now ≡ true }
    requires lines { line + length (contents_of text.now) < 2 ^ 64 }
    ensures { Gives (λ postings.
        postings) cause_in result
        (spec.each_of (spec.posting_of holder context.now) line (contents_of text.now)) }
{
    let mut postings = Vec::with_capacity(alloc, USUAL_POSTINGS)?;
    let mut rest = text;
    let mut next = line;
    while !rest.is_empty() {
        let (content, after) = cut_line(rest);
        if is_comment(content) {
            rest = after;
            next += 1;
            continue;
        }
        let posting = read_posting(alloc, holder, context, content, after, next)?;
        postings.push(posting)?;
        rest = after;
        next += 1;
    }
    Ok(List::from_vec(postings))
}

/// The postings that the lines of a text are in an entry, of which the first is the `line`-th. Dates of their own that are
/// written without a year are in the given one.
pub fn read_postings(
    alloc: Global,
    context: &Context,
    year: u16,
    text: &[u8],
    line: u64,
) -> Result<List<Posting>, ReadFault>
    requires utf8 { is_utf8 text.now ≡ true }
    requires lines { line + length (contents_of text.now) < 2 ^ 64 }
    ensures { Gives (λ postings.
        postings) cause_in result (spec.postings_of context.now year line (contents_of text.now)) }
{
    read_each(alloc, Holder::Entry(year), context, text, line)
}

/// The postings that the lines of a text are in a rule of a period, of which the first is the `line`-th. They have no
/// assertions, and no days of their own.
pub fn read_periodic_postings(
    alloc: Global,
    context: &Context,
    text: &[u8],
    line: u64,
) -> Result<List<Posting>, ReadFault>
    requires utf8 { is_utf8 text.now ≡ true }
    requires lines { line + length (contents_of text.now) < 2 ^ 64 }
    ensures { Gives (λ postings.
        postings) cause_in result
        (spec.periodic_postings_of context.now line (contents_of text.now)) }
{
    read_each(alloc, Holder::Periodic, context, text, line)
}

/// The postings that the lines of a text are in an automated rule, of which the first is the `line`-th. They have no
/// assertions and no days of their own; a factor, `*` and a number and perhaps a symbol, may stand in the place of an amount.
#[tactic(auto, unfolding(crate::specs::Postings::each_of))]
pub fn read_rule_postings(
    alloc: Global,
    context: &Context,
    text: &[u8],
    line: u64,
) -> Result<List<RulePosting>, ReadFault>
    requires utf8 { is_utf8 text.now ≡ true }
    requires lines { line + length (contents_of text.now) < 2 ^ 64 }
    ensures { Gives (λ postings.
        postings) cause_in result (spec.rule_postings_of context.now line (contents_of text.now)) }
{
    let mut postings = Vec::new(alloc);
    let mut rest = text;
    let mut next = line;
    while !rest.is_empty() {
        let (content, after) = cut_line(rest);
        if is_comment(content) {
            rest = after;
            next += 1;
            continue;
        }
        let posting = read_rule_posting(alloc, context, content, after, next)?;
        postings.push(posting)?;
        rest = after;
        next += 1;
    }
    Ok(List::from_vec(postings))
}
