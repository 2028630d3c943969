//! The tags of comments.
ghost use Rattle.std.specs.Prelude.{◌≡◌, ◌++◌, ◌<◌, ◌==◌, true, OnOk, option_map, length, codes};
ghost use Rattle.std.specs.Str.{is_utf8, bytes_eq};
ghost use Rattle.hl_base.specs.Ascii.{colon};
ghost use Rattle.entry_reader.specs.Comments.{date_value};
ghost use Rattle.entry_reader.specs.Lines.{has_byte};
ghost use Rattle.entry_reader.specs.Tags as spec;

use crate::scan::{after, before, has, is_white, text_of, trimmed};
use book::Tag;
use hl_base::Memory;
use std::alloc::Global;

/// The word at a text's end, which white space doesn't interrupt.
fn last_word(text: &[u8]) -> &[u8]
    ensures value { result.now ≡ spec.last_word text.now }
    ensures utf8 { is_utf8 text.now ≡ true → is_utf8 result.now ≡ true }
{
    let mut start = text.len();
    while 0 < start {
        if is_white(text[start - 1]) {
            let (_, word) = text.split_at(start);
            return word;
        }
        start -= 1;
    }
    text
}

/// The word directly before the first colon.
fn tag_name(text: &[u8]) -> &[u8]
    ensures value { result.now ≡ spec.tag_name text.now }
    ensures utf8 { is_utf8 text.now ≡ true → is_utf8 result.now ≡ true }
{
    last_word(before(text, b':'))
}

/// What stands after the first colon, up to the next comma.
fn tag_value(text: &[u8]) -> &[u8]
    ensures value { result.now ≡ spec.tag_value text.now }
    ensures utf8 { is_utf8 text.now ≡ true → is_utf8 result.now ≡ true }
{
    trimmed(before(after(text, b':'), b','))
}

/// What follows the tag of the first colon.
#[tactic(auto, using(crate::proofs::TagSteps::after_shorter))]
fn after_tag(text: &[u8]) -> &[u8]
    requires { has_byte colon text.now ≡ true }
    ensures value { result.now ≡ spec.after_tag text.now }
    ensures shorter { length result.now < length text.now }
    ensures utf8 { is_utf8 text.now ≡ true → is_utf8 result.now ≡ true }
{
    let behind = after(text, b':');
    if tag_name(text).is_empty() {
        behind
    } else {
        after(behind, b',')
    }
}

/// Puts the tag of the first colon, if it is one, behind other tags.
fn push_tag(alloc: Global, tags: &mut Vec<Tag>, text: &[u8]) -> Result<(), Memory>
    requires { is_utf8 text.now ≡ true }
    ensures { OnOk result (tags.new.items ≡ tags.old.items ++ spec.tag_at text.now) }
{
    let name = tag_name(text);
    if !name.is_empty() {
        let name = text_of(alloc, name)?;
        let value = text_of(alloc, tag_value(text))?;
        tags.push(Tag { name, value })?;
    }
    Ok(())
}

/// Puts the tags of a comment's line behind others.
pub fn push_tags(alloc: Global, tags: &mut Vec<Tag>, text: &[u8]) -> Result<(), Memory>
    requires { is_utf8 text.now ≡ true }
    ensures { OnOk result (tags.new.items ≡ tags.old.items ++ spec.tags_of text.now) }
{
    let mut rest = text;
    while has(rest, b':') {
        push_tag(alloc, tags, rest)?;
        rest = after_tag(rest);
    }
    Ok(())
}

/// Whether a tag's name is `date`.
fn is_date(name: &[u8]) -> bool
    ensures { result ≡ bytes_eq name.now (codes "date") }
{
    name == b"date".as_slice()
}

/// The value of the first tag `date` of a comment's line.
pub fn find_date(text: &[u8]) -> Option<&[u8]>
    ensures { option_map (λ value. value.now) result ≡ date_value text.now }
{
    let mut rest = text;
    while has(rest, b':') {
        if is_date(tag_name(rest)) {
            return Some(tag_value(rest));
        }
        rest = after_tag(rest);
    }
    None
}
