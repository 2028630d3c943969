//! Rules: `= QUERY`, and `~ PERIOD` or `~ PERIOD  DESCRIPTION`, each with postings after it.
ghost use Rattle.std.specs.Prelude.{◌≡◌, ◌+◌, ◌<◌, ◌≤◌, ◌^◌, true, length, take, drop};
ghost use Rattle.std.specs.Str.{is_utf8};
ghost use Rattle.hl_base.specs.Gives.{Gives};
ghost use Rattle.entry_reader.specs.Causes.{cause_in};
ghost use Rattle.entry_reader.specs.Lines.{contents_of};
ghost use Rattle.directive_reader.specs.Rules as spec;

use crate::ending::before_comment;
use crate::query_words::read_query;
use book::{AutoRule, Cause, PeriodicRule};
use entry_reader::fault::fault_at;
use entry_reader::posting::{read_periodic_postings, read_rule_postings};
use entry_reader::scan::{begins_white, is_white, text_of, trimmed};
use entry_reader::{Context, ReadFault};
use hl_time::{Day, Period, read_period};
use std::alloc::Global;

/// The last day of the calendar.
const LAST_DAY: u32 = 3_652_059;

/// `= QUERY`, and the postings after it.
#[tactic(auto, unfolding(crate::specs::Rules::auto_of))]
pub fn read_auto(
    alloc: Global,
    context: &Context,
    text: &[u8],
    lines: &[u8],
    line: u64,
) -> Result<AutoRule, ReadFault>
    requires text { is_utf8 text.now ≡ true }
    requires after { is_utf8 lines.now ≡ true }
    requires room { line + 1 + length (contents_of lines.now) < 2 ^ 64 }
    ensures { Gives (λ r. r) cause_in result
        (spec.auto_of context.now line text.now (contents_of lines.now)) }
{
    let postings = read_rule_postings(alloc, context, lines, line + 1)?;
    let words = read_query(alloc, before_comment(text))?;
    Ok(AutoRule {
        line,
        words,
        postings,
    })
}

/// Whether a period ends before a byte: before two white spaces.
fn ends_period(byte: u8, rest: &[u8]) -> bool
    ensures { result ≡ spec.ends_period byte rest.now }
{
    is_white(byte) && begins_white(rest)
}

/// How many bytes the period has that a text begins with.
fn period_length(text: &[u8]) -> usize
    ensures length { result ≡ spec.period_len text.now }
    ensures bound { result ≤ length text.now }
{
    for (i, byte) in text.iter().enumerate() {
        if ends_period(*byte, &text[i + 1..]) {
            return i;
        }
    }
    text.len()
}

/// The period that a text begins with, and what follows it.
#[tactic(auto, using(crate::proofs::Rules::after_period_utf8))]
fn cut_period(text: &[u8]) -> (&[u8], &[u8])
    ensures period { result.0.now ≡ take (spec.period_len text.now) text.now }
    ensures rest { result.1.now ≡ drop (spec.period_len text.now) text.now }
    ensures utf8 { is_utf8 text.now ≡ true → is_utf8 result.1.now ≡ true }
{
    text.split_at(period_length(text))
}

/// Whether two days are the same, or both are absent.
fn same_day(one: Option<u32>, other: Option<u32>) -> bool
    ensures { result ≡ spec.same_day one other }
{
    match (one, other) {
        (None, None) => true,
        (Some(one), Some(other)) => one == other,
        _ => false,
    }
}

/// The period of a rule, which isn't bound to a day.
#[tactic(auto, unfolding(crate::specs::Rules::rule_period))]
fn read_rule_period(text: &[u8], line: u64) -> Result<Period, ReadFault>
    ensures { Gives (λ p. p) cause_in result (spec.rule_period line text.now) }
{
    let Ok(one) = read_period(text, Day(1)) else {
        return Err(fault_at(line, Cause::Date));
    };
    let Ok(other) = read_period(text, Day(LAST_DAY)) else {
        return Err(fault_at(line, Cause::Date));
    };
    if same_day(one.from, other.from) && same_day(one.end, other.end) {
        Ok(one)
    } else {
        Err(fault_at(line, Cause::Date))
    }
}

/// `~ PERIOD` or `~ PERIOD  DESCRIPTION`, and the postings after it.
#[tactic(auto, unfolding(crate::specs::Rules::periodic_of))]
pub fn read_periodic(
    alloc: Global,
    context: &Context,
    text: &[u8],
    lines: &[u8],
    line: u64,
) -> Result<PeriodicRule, ReadFault>
    requires text { is_utf8 text.now ≡ true }
    requires after { is_utf8 lines.now ≡ true }
    requires room { line + 1 + length (contents_of lines.now) < 2 ^ 64 }
    ensures { Gives (λ r. r) cause_in result
        (spec.periodic_of context.now line text.now (contents_of lines.now)) }
{
    let (written, rest) = cut_period(before_comment(text));
    let period = read_rule_period(written, line)?;
    let postings = read_periodic_postings(alloc, context, lines, line + 1)?;
    Ok(PeriodicRule {
        line,
        period,
        description: text_of(alloc, trimmed(rest))?,
        postings,
    })
}
