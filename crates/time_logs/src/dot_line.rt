//! The lines of a timedot text.
ghost use Rattle.std.specs.Prelude.{◌≡◌, ◌≤◌, true, length, IfOk};
ghost use Rattle.std.specs.Str.{is_utf8};
ghost use Rattle.time_logs.specs.DotLines as spec;

use crate::moments::day_of;
use crate::quantities::quantity_of;
use crate::said::{account_and_rest, begins_gap, description_said, read_real_account, said};
use entry_reader::scan::{after, after_white, before, begins, begins_white, text_of};
use hl_base::{Memory, Text};
use hl_num::Dec;
use hl_time::Day;
use std::alloc::Global;

/// What a line of a timedot text says.
#[derive(Drop)]
pub enum DotLine {
    /// A blank line or a remark.
    Gap,
    /// The line of a day.
    Head { day: Day, description: Text },
    /// Hours on an account.
    Spent { account: Text, hours: Dec },
}

/// A line of a day: the day, and a description after a space.
#[tactic(auto, unfolding(crate::specs::DotLines::day_line))]
fn day_line(alloc: Global, words: &[u8]) -> Result<Option<DotLine>, Memory>
    requires { is_utf8 words.now ≡ true }
    ensures { IfOk result (λ line. line ≡ spec.day_line words.now) }
{
    let Some(day) = day_of(before(words, b' ')) else {
        return Ok(None);
    };
    let Some(description) = description_said(after(words, b' ')) else {
        return Ok(None);
    };
    let description = text_of(alloc, description)?;
    Ok(Some(DotLine::Head { day, description }))
}

/// A line of a quantity: an account, two spaces, and the quantity.
#[tactic(auto, unfolding(crate::specs::DotLines::quantity_line))]
fn quantity_line(alloc: Global, words: &[u8]) -> Result<Option<DotLine>, Memory>
    requires { is_utf8 words.now ≡ true }
    ensures { IfOk result (λ line. line ≡ spec.quantity_line words.now) }
{
    let (name, rest) = account_and_rest(words);
    if !begins_gap(rest) {
        return Ok(None);
    }
    let Some(account) = read_real_account(alloc, name)? else {
        return Ok(None);
    };
    match quantity_of(after_white(rest)) {
        Some(hours) => Ok(Some(DotLine::Spent { account, hours })),
        None => Ok(None),
    }
}

/// The same where a day stands before it.
#[tactic(auto, unfolding(crate::specs::DotLines::quantity_behind))]
fn quantity_behind(alloc: Global, begun: bool, words: &[u8]) -> Result<Option<DotLine>, Memory>
    requires { is_utf8 words.now ≡ true }
    ensures { IfOk result (λ line. line ≡ spec.quantity_behind begun words.now) }
{
    if begun {
        quantity_line(alloc, words)
    } else {
        Ok(None)
    }
}

/// What the words of a line say.
#[tactic(auto, unfolding(crate::specs::DotLines::plain_line))]
fn plain_line(alloc: Global, begun: bool, words: &[u8]) -> Result<Option<DotLine>, Memory>
    requires { is_utf8 words.now ≡ true }
    ensures { IfOk result (λ line. line ≡ spec.plain_line begun words.now) }
{
    match day_line(alloc, words)? {
        Some(line) => Ok(Some(line)),
        None => quantity_behind(alloc, begun, words),
    }
}

/// How many stars a text begins with.
#[tactic(auto, using(entry_reader::proofs::Texts::prefix_count, entry_reader::proofs::Texts::prefix_bound))]
fn stars(text: &[u8]) -> usize
    ensures count { result ≡ spec.stars text.now }
    ensures bound { result ≤ length text.now }
{
    text.iter().take_while(|byte| **byte == b'*').count()
}

/// What follows the stars at the front of a line.
#[tactic(auto, using(crate::proofs::Stars::after_stars_utf8))]
fn after_stars(words: &[u8]) -> &[u8]
    requires { is_utf8 words.now ≡ true }
    ensures rest { result.now ≡ spec.after_stars words.now }
    ensures utf8 { is_utf8 result.now ≡ true }
{
    let (_, rest) = words.split_at(stars(words));
    rest
}

/// Words behind stars and white space count where they are of a form; any other line that begins with stars says nothing.
#[tactic(auto, unfolding(crate::specs::DotLines::starred_line))]
fn starred_line(alloc: Global, begun: bool, words: &[u8]) -> Result<Option<DotLine>, Memory>
    requires { is_utf8 words.now ≡ true }
    ensures { IfOk result (λ line. line ≡ spec.starred_line begun words.now) }
{
    let rest = after_stars(words);
    if !begins_white(rest) {
        return Ok(Some(DotLine::Gap));
    }
    match plain_line(alloc, begun, after_white(rest))? {
        Some(line) => Ok(Some(line)),
        None => Ok(Some(DotLine::Gap)),
    }
}

/// What a line says, if it is of a form; `begun` says whether a day stands before it.
#[tactic(auto, unfolding(crate::specs::DotLines::dot_line))]
pub fn dot_line(alloc: Global, begun: bool, content: &[u8]) -> Result<Option<DotLine>, Memory>
    requires { is_utf8 content.now ≡ true }
    ensures { IfOk result (λ line. line ≡ spec.dot_line begun content.now) }
{
    let words = said(content);
    if words.is_empty() || begins(words, b'#') {
        return Ok(Some(DotLine::Gap));
    }
    if begins(words, b'*') {
        return starred_line(alloc, begun, words);
    }
    plain_line(alloc, begun, words)
}
