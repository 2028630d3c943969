//! The lines of a timeclock text.
ghost use Rattle.std.specs.Prelude.{◌≡◌, true, IfOk, IfSome};
ghost use Rattle.std.specs.Option.{option_copied};
ghost use Rattle.std.specs.Str.{is_utf8};
ghost use Rattle.time_logs.specs.ClockLines as spec;

use crate::moments::{Moment, moment_of};
use crate::said::{account_and_rest, begins_gap, description_said, read_real_account, said};
use entry_reader::scan::{after, before, begins, text_of};
use hl_base::{Memory, Text};
use std::alloc::Global;

/// What a line of a timeclock text says.
#[derive(Drop)]
pub enum ClockLine {
    /// A blank line or a remark.
    Gap,
    /// A session begins.
    In {
        moment: Moment,
        account: Text,
        description: Text,
    },
    /// It ends.
    Out {
        moment: Moment,
    },
}

/// The description behind an account: two spaces stand before it, or nothing follows the account.
#[tactic(auto, unfolding(crate::specs::ClockLines::description_behind))]
fn description_behind(rest: &[u8]) -> Option<&[u8]>
    requires { is_utf8 rest.now ≡ true }
    ensures value { option_copied result ≡ spec.description_behind rest.now }
    ensures utf8 { IfSome result (λ description. is_utf8 description.now ≡ true) }
{
    if rest.is_empty() || begins_gap(rest) {
        description_said(rest)
    } else {
        None
    }
}

/// A session's beginning at a moment, by the account and the description that a text is.
#[tactic(auto, unfolding(crate::specs::ClockLines::begun_at))]
fn begun_at(alloc: Global, moment: Moment, text: &[u8]) -> Result<Option<ClockLine>, Memory>
    requires { is_utf8 text.now ≡ true }
    ensures { IfOk result (λ line. line ≡ spec.begun_at moment text.now) }
{
    let (name, rest) = account_and_rest(text);
    let Some(account) = read_real_account(alloc, name)? else {
        return Ok(None);
    };
    let Some(description) = description_behind(rest) else {
        return Ok(None);
    };
    let description = text_of(alloc, description)?;
    Ok(Some(ClockLine::In {
        moment,
        account,
        description,
    }))
}

/// A session's beginning: `DAY TIME ACCOUNT`, and perhaps two spaces and a description.
#[tactic(auto, unfolding(crate::specs::ClockLines::clock_in))]
fn clock_in(alloc: Global, text: &[u8]) -> Result<Option<ClockLine>, Memory>
    requires { is_utf8 text.now ≡ true }
    ensures { IfOk result (λ line. line ≡ spec.clock_in text.now) }
{
    let behind = after(text, b' ');
    match moment_of(before(text, b' '), before(behind, b' ')) {
        Some(moment) => begun_at(alloc, moment, after(behind, b' ')),
        None => Ok(None),
    }
}

/// A session's end: `DAY TIME`.
#[tactic(auto, unfolding(crate::specs::ClockLines::clock_out))]
fn clock_out(text: &[u8]) -> Option<ClockLine>
    ensures { result ≡ spec.clock_out text.now }
{
    match moment_of(before(text, b' '), after(text, b' ')) {
        Some(moment) => Some(ClockLine::Out { moment }),
        None => None,
    }
}

/// What the words of a line say.
#[tactic(auto, unfolding(crate::specs::ClockLines::clock_words))]
fn clock_words(alloc: Global, words: &[u8]) -> Result<Option<ClockLine>, Memory>
    requires { is_utf8 words.now ≡ true }
    ensures { IfOk result (λ line. line ≡ spec.clock_words words.now) }
{
    let first = before(words, b' ');
    if first == b"i".as_slice() {
        clock_in(alloc, after(words, b' '))
    } else if first == b"o".as_slice() {
        Ok(clock_out(after(words, b' ')))
    } else {
        Ok(None)
    }
}

/// What a line says, if it is of a form.
#[tactic(auto, unfolding(crate::specs::ClockLines::clock_line))]
pub fn clock_line(alloc: Global, content: &[u8]) -> Result<Option<ClockLine>, Memory>
    requires { is_utf8 content.now ≡ true }
    ensures { IfOk result (λ line. line ≡ spec.clock_line content.now) }
{
    let words = said(content);
    if words.is_empty() || begins(words, b'#') || begins(words, b'*') {
        return Ok(Some(ClockLine::Gap));
    }
    clock_words(alloc, words)
}
