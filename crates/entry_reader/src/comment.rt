//! Comments: the one on a line, and the indented lines after it that begin with `;`.
ghost use Rattle.std.specs.Prelude.{◌≡◌, ◌++◌, ◌∷◌, [], ◌+◌, ◌<◌, ◌≤◌, ◌^◌, true, IfOk, OnOk, IfSome, Some, MatchOption, length};
ghost use Rattle.std.specs.Str.{is_utf8};
ghost use Rattle.std.specs.String.{string_bytes};
ghost use Rattle.hl_base.specs.Gives.{Gives};
ghost use Rattle.hl_time.specs.Date.{date_of};
ghost use Rattle.entry_reader.specs.Causes.{cause_in};
ghost use Rattle.entry_reader.specs.Comments as spec;
ghost use Rattle.entry_reader.specs.Lines.{contents_of};

use crate::fault::{ReadFault, fault_at};
use crate::scan::{after_white, begins, begins_white, cut_line, past_first, trimmed};
use crate::tag::{find_date, push_tags};
use book::{Cause, Tag};
use hl_base::{List, Memory, Text};
use hl_time::{Day, read_date};
use std::alloc::Global;

/// Whether a line's content is indented and begins with `;`.
pub fn is_comment(content: &[u8]) -> bool
    ensures { result ≡ spec.is_comment content.now }
{
    begins_white(content) && begins(after_white(content), b';')
}

/// What follows the `;` of a comment line.
pub fn comment_text(content: &[u8]) -> &[u8]
    requires { spec.is_comment content.now ≡ true }
    ensures value { result.now ≡ spec.comment_text content.now }
    ensures utf8 { is_utf8 content.now ≡ true → is_utf8 result.now ≡ true }
{
    let text = after_white(content);
    if begins(text, b';') {
        trimmed(past_first(text))
    } else {
        unreachable!()
    }
}

/// The comment line that a text begins with, and the text after the line.
#[tactic(auto, using(crate::proofs::Remarks::one_comment, crate::proofs::Remarks::no_comment, crate::proofs::Remarks::no_line, crate::proofs::Fronts::no_remark))]
fn next_comment(text: &[u8]) -> Option<(&[u8], &[u8])>
    ensures cut { MatchOption result (spec.comments_in (contents_of text.now) ≡ [])
        (λ x. spec.comments_in (contents_of text.now) ≡ x.0.now
        ∷ spec.comments_in (contents_of x.1.now)) }
    ensures shorter { IfSome result (λ x.
        length (contents_of x.1.now) < length (contents_of text.now)) }
    ensures utf8 { is_utf8 text.now ≡ true
        → IfSome result (λ x. (is_utf8 x.0.now ≡ true) × (is_utf8 x.1.now ≡ true)) }
{
    if text.is_empty() || !is_comment(text) {
        return None;
    }
    let (content, rest) = cut_line(text);
    if is_comment(content) {
        Some((comment_text(content), rest))
    } else {
        None
    }
}

/// A text that begins as a comment line, or nothing.
#[tactic(auto, using(crate::proofs::Fronts::no_remark, crate::proofs::Texts::empty_utf8))]
pub fn comment_lines(text: &[u8]) -> &[u8]
    ensures same { spec.comments_in (contents_of result.now)
        ≡ spec.comments_in (contents_of text.now) }
    ensures shorter { length (contents_of result.now) ≤ length (contents_of text.now) }
    ensures utf8 { is_utf8 text.now ≡ true → is_utf8 result.now ≡ true }
{
    if is_comment(text) { text } else { &[] }
}

/// Puts bytes behind a text.
pub fn append(text: &mut String, bytes: &[u8]) -> Result<(), Memory>
    requires { is_utf8 bytes.now ≡ true }
    ensures { OnOk result (string_bytes text.new ≡ string_bytes text.old ++ bytes.now) }
{
    match std::str::from_utf8(bytes) {
        Ok(more) => {
            text.push_str(more)?;
            Ok(())
        }
        Err(_) => unreachable!(),
    }
}

/// A comment on a line and the comment lines at the front of what follows, joined by LF.
#[tactic(auto, using(crate::proofs::Fronts::no_comments))]
#[inline]
pub fn read_comment(alloc: Global, own: &[u8], after: &[u8]) -> Result<Text, Memory>
    requires own { is_utf8 own.now ≡ true }
    requires after { is_utf8 after.now ≡ true }
    ensures { IfOk result (λ text.
        text ≡ spec.comment_of own.now (spec.comments_in (contents_of after.now))) }
{
    if own.is_empty() && after.is_empty() {
        return Ok(Text::new(alloc));
    }
    joined_comment(alloc, own, after)
}

/// The same where there is a comment.
fn joined_comment(alloc: Global, own: &[u8], after: &[u8]) -> Result<Text, Memory>
    requires own { is_utf8 own.now ≡ true }
    requires after { is_utf8 after.now ≡ true }
    ensures { IfOk result (λ text.
        text ≡ spec.comment_of own.now (spec.comments_in (contents_of after.now))) }
{
    let mut comment = String::new(alloc);
    append(&mut comment, own)?;
    let mut rest = after;
    while let Some((text, more)) = next_comment(rest) {
        append(&mut comment, b"\n")?;
        append(&mut comment, text)?;
        rest = more;
    }
    Ok(Text::from_string(comment))
}

/// The tags of a comment on a line and of the comment lines at the front of what follows.
#[tactic(auto, using(crate::proofs::Fronts::no_tags))]
#[inline]
pub fn read_tags(alloc: Global, own: &[u8], after: &[u8]) -> Result<List<Tag>, Memory>
    requires own { is_utf8 own.now ≡ true }
    requires after { is_utf8 after.now ≡ true }
    ensures { IfOk result (λ tags.
        tags ≡ spec.tags_in (own.now ∷ spec.comments_in (contents_of after.now))) }
{
    if own.is_empty() && after.is_empty() {
        return Ok(List::new(alloc));
    }
    tags_of(alloc, own, after)
}

/// The same where there is a comment.
fn tags_of(alloc: Global, own: &[u8], after: &[u8]) -> Result<List<Tag>, Memory>
    requires own { is_utf8 own.now ≡ true }
    requires after { is_utf8 after.now ≡ true }
    ensures { IfOk result (λ tags.
        tags ≡ spec.tags_in (own.now ∷ spec.comments_in (contents_of after.now))) }
{
    let mut tags = Vec::new(alloc);
    push_tags(alloc, &mut tags, own)?;
    let mut rest = after;
    while let Some((text, more)) = next_comment(rest) {
        push_tags(alloc, &mut tags, text)?;
        rest = more;
    }
    Ok(List::from_vec(tags))
}

/// The day that a tag's value writes, with a year where it writes none.
fn day_written(value: &[u8], year: u16, line: u64) -> Result<Option<Day>, ReadFault>
    ensures { Gives (λ day.
        day) cause_in result (spec.day_written line (date_of value.now (Some year))) }
{
    match read_date(value, Some(year)) {
        Ok(day) => Ok(Some(day)),
        Err(_) => Err(fault_at(line, Cause::Date)),
    }
}

/// The day that the first tag `date` says of a comment on a line and of the comment lines at the front of what follows.
#[tactic(auto, using(crate::proofs::Fronts::no_day))]
#[inline]
pub fn read_own_day(
    own: &[u8],
    after: &[u8],
    year: u16,
    line: u64,
) -> Result<Option<Day>, ReadFault>
    requires { line + 1 + length (contents_of after.now) < 2 ^ 64 }
    ensures { Gives (λ day.
        day) cause_in result (spec.day_in year line (own.now
        ∷ spec.comments_in (contents_of after.now))) }
{
    if own.is_empty() && after.is_empty() {
        return Ok(None);
    }
    day_of_comments(own, after, year, line)
}

/// The same where there is a comment.
fn day_of_comments(own: &[u8], after: &[u8], year: u16, line: u64) -> Result<Option<Day>, ReadFault>
    requires { line + 1 + length (contents_of after.now) < 2 ^ 64 }
    ensures { Gives (λ day.
        day) cause_in result (spec.day_in year line (own.now
        ∷ spec.comments_in (contents_of after.now))) }
{
    if let Some(value) = find_date(own) {
        return day_written(value, year, line);
    }
    let mut rest = after;
    let mut here = line;
    while let Some((text, more)) = next_comment(rest) {
        here += 1;
        if let Some(value) = find_date(text) {
            return day_written(value, year, here);
        }
        rest = more;
    }
    Ok(None)
}
