//! Reads the head line of an entry.
ghost use Rattle.std.specs.Prelude.{◌≡◌, true, IfOk};
ghost use Rattle.std.specs.Str.{is_utf8};
ghost use Rattle.hl_base.specs.Gives.{Gives};
ghost use Rattle.hl_time.specs.Calendar.{IsDay};
ghost use Rattle.entry_reader.specs.Causes.{cause_in};
ghost use Rattle.entry_reader.specs.Heads as spec;

use crate::context::Context;
use crate::fault::{ReadFault, fault_at};
use crate::scan::{
    after, after_white, around, before, begins, begins_mark, begins_white, cut_date, has,
    past_first, trimmed,
};
use book::{Cause, Mark};
use hl_time::{Day, read_date};

/// What a head line says. The comment is the one on the line, empty where there is none.
#[derive(Clone, Copy)]
pub struct Head<'a> {
    pub day: Day,
    pub mark: Mark,
    pub code: &'a [u8],
    pub description: &'a [u8],
    pub comment: &'a [u8],
}

/// Whether the text has ended, or goes on with white space.
fn ends_word(text: &[u8]) -> bool
    ensures { result ≡ spec.ends_word text.now }
{
    text.is_empty() || begins_white(text)
}

/// The day that a text begins with, and what follows it and white space.
#[tactic(auto, unfolding(crate::specs::Heads::day_at))]
pub fn read_day(text: &[u8], year: Option<u16>, line: u64) -> Result<(Day, &[u8]), ReadFault>
    ensures value { Gives (λ x. (x.0.0, x.1.now)) cause_in result (spec.day_at year line text.now) }
    ensures day { IfOk result (λ x. IsDay x.0.0) }
    ensures utf8 { is_utf8 text.now ≡ true → IfOk result (λ x. is_utf8 x.1.now ≡ true) }
{
    let (date, rest) = cut_date(text);
    match read_date(date, year) {
        Err(_) => Err(fault_at(line, Cause::Date)),
        Ok(day) => {
            if ends_word(rest) {
                Ok((day, after_white(rest)))
            } else {
                Err(fault_at(line, Cause::Form))
            }
        }
    }
}

fn mark_of(text: &[u8]) -> Mark
    ensures { result ≡ spec.mark_of text.now }
{
    if begins(text, b'!') {
        Mark::Pending
    } else if begins(text, b'*') {
        Mark::Cleared
    } else {
        Mark::Unmarked
    }
}

/// What follows a mark and the white space after it, where a mark stands first.
fn after_mark(text: &[u8]) -> &[u8]
    ensures value { result.now ≡ spec.after_mark text.now }
    ensures utf8 { is_utf8 text.now ≡ true → is_utf8 result.now ≡ true }
{
    if begins_mark(text) {
        after_white(past_first(text))
    } else {
        text
    }
}

/// Whether a second mark stands after the first and white space.
fn has_second_mark(text: &[u8]) -> bool
    ensures { result ≡ spec.has_second_mark text.now }
{
    begins_mark(text) && begins_white(past_first(text)) && begins_mark(after_mark(text))
}

/// The mark that a text begins with, if any, and what follows it and white space.
#[tactic(auto, unfolding(crate::specs::Heads::mark_at))]
#[inline]
pub fn read_mark(text: &[u8], line: u64) -> Result<(Mark, &[u8]), ReadFault>
    ensures value { Gives (λ x. (x.0, x.1.now)) cause_in result (spec.mark_at line text.now) }
    ensures utf8 { is_utf8 text.now ≡ true → IfOk result (λ x. is_utf8 x.1.now ≡ true) }
{
    if has_second_mark(text) {
        Err(fault_at(line, Cause::StatusMark))
    } else {
        Ok((mark_of(text), after_mark(text)))
    }
}

/// The code in parentheses that a text begins with, if they are closed, and what follows it.
#[tactic(auto, using(crate::proofs::Texts::empty_utf8))]
fn cut_code(text: &[u8]) -> (&[u8], &[u8])
    ensures code { result.0.now ≡ spec.code_of text.now }
    ensures rest { result.1.now ≡ spec.after_code text.now }
    ensures utf8 { is_utf8 text.now ≡ true → (is_utf8 result.0.now ≡ true)
        × (is_utf8 result.1.now ≡ true) }
{
    if begins(text, b'(') {
        let inside = past_first(text);
        if has(inside, b')') {
            return (before(inside, b')'), after(inside, b')'));
        }
    }
    (&[], text)
}

/// The head that a line's content says.
#[tactic(auto, unfolding(crate::specs::Heads::head_of))]
pub fn read_head<'a>(context: &Context, content: &'a [u8], line: u64) -> Result<Head<'a>, ReadFault>
    requires { is_utf8 content.now ≡ true }
    ensures value { Gives (λ x. spec.head_with x.day.0 x.mark x.code.now x.description.now
        x.comment.now) cause_in result (spec.head_of context.now line content.now) }
    ensures day { IfOk result (λ x. IsDay x.day.0) }
    ensures utf8 { IfOk result (λ x. (is_utf8 x.code.now ≡ true)
        × (is_utf8 x.description.now ≡ true) × (is_utf8 x.comment.now ≡ true)) }
{
    let (day, rest) = read_day(content, context.year(), line)?;
    let (mark, rest) = read_mark(rest, line)?;
    let (code, rest) = cut_code(rest);
    let (description, comment) = around(rest, b';');
    Ok(Head {
        day,
        mark,
        code,
        description: trimmed(description),
        comment: trimmed(comment),
    })
}
