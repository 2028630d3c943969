//! The types of accounts, as tags say them.
ghost use Rattle.std.specs.Prelude.{◌≡◌, ◌+◌, ◌<◌, ◌^◌, ◌∷◌, true, length, codes, IfOk, option_map};
ghost use Rattle.std.specs.List.{find};
ghost use Rattle.std.specs.Str.{is_utf8, bytes_eq};
ghost use Rattle.hl_base.specs.Gives.{Gives};
ghost use Rattle.hl_time.specs.Words.{is_word};
ghost use Rattle.entry_reader.specs.Causes.{cause_in};
ghost use Rattle.entry_reader.specs.Comments as comments;
ghost use Rattle.entry_reader.specs.Lines.{contents_of};
ghost use Rattle.directive_reader.specs.AccountTypes as spec;

use book::{Cause, Tag};
use entry_reader::ReadFault;
use entry_reader::comment::{comment_text, is_comment};
use entry_reader::fault::fault_at;
use entry_reader::scan::cut_line;
use entry_reader::tag::push_tags;
use hl_base::Memory;
use std::alloc::Global;

/// Whether words are the same but for case.
fn is_word(word: &[u8], name: &[u8]) -> bool
    ensures { result ≡ is_word word.now name.now }
{
    word.eq_ignore_ascii_case(name)
}

/// Whether a value is the letter of a type or its word, but for case.
fn is_either(value: &[u8], letter: &[u8], word: &[u8]) -> bool
    ensures { result ≡ spec.is_either letter.now word.now value.now }
{
    is_word(value, letter) || is_word(value, word)
}

/// The letter of the type that a value writes, as a letter or as an English word.
#[tactic(auto, unfolding(crate::specs::AccountTypes::type_of))]
fn type_of(value: &[u8]) -> Option<u8>
    ensures { result ≡ spec.type_of value.now }
{
    if is_either(value, b"A", b"asset") {
        Some(b'A')
    } else if is_either(value, b"L", b"liability") {
        Some(b'L')
    } else if is_either(value, b"E", b"equity") {
        Some(b'E')
    } else if is_either(value, b"R", b"revenue") {
        Some(b'R')
    } else if is_either(value, b"X", b"expense") {
        Some(b'X')
    } else if is_either(value, b"C", b"cash") {
        Some(b'C')
    } else if is_either(value, b"V", b"conversion") {
        Some(b'V')
    } else {
        None
    }
}

/// Whether a tag's name is `type`.
fn is_type_tag(tag: &Tag) -> bool
    ensures { result ≡ spec.is_type_tag tag.now }
{
    tag.name.as_bytes() == b"type".as_slice()
}

/// The first tag `type`, if there is one.
fn find_type(tags: &[Tag]) -> Option<&Tag>
    ensures { option_map (λ tag. tag.now) result ≡ find spec.is_type_tag tags.now }
{
    tags.iter().find(|tag| is_type_tag(tag))
}

/// What the first tag `type` of a comment's line says: none without one, and no letter where its type is unknown.
fn said_in(alloc: Global, text: &[u8]) -> Result<Option<Option<u8>>, Memory>
    requires { is_utf8 text.now ≡ true }
    ensures { IfOk result (λ said.
        said ≡ option_map (λ value. spec.type_of value) (spec.type_value text.now)) }
{
    let mut tags = Vec::new(alloc);
    push_tags(alloc, &mut tags, text)?;
    match find_type(&tags) {
        Some(tag) => Ok(Some(type_of(tag.value.as_bytes()))),
        None => Ok(None),
    }
}

/// The letter that a type has, which isn't unknown.
fn known(letter: Option<u8>, line: u64) -> Result<Option<u8>, ReadFault>
    ensures { Gives (λ x. x) cause_in result (spec.letter_or line letter) }
{
    match letter {
        Some(letter) => Ok(Some(letter)),
        None => Err(fault_at(line, Cause::Directive)),
    }
}

/// The letter of the type that the first tag `type` says of a comment on a line and of the comment lines at the front of
/// what follows.
#[tactic(auto, unfolding(crate::specs::AccountTypes::letter_in))]
pub fn read_letter(
    alloc: Global,
    own: &[u8],
    lines: &[u8],
    line: u64,
) -> Result<Option<u8>, ReadFault>
    requires own { is_utf8 own.now ≡ true }
    requires after { is_utf8 lines.now ≡ true }
    requires room { line + 1 + length (contents_of lines.now) < 2 ^ 64 }
    ensures { Gives (λ x. x) cause_in result (spec.letter_in line (own.now
        ∷ comments.comments_in (contents_of lines.now))) }
{
    if let Some(letter) = said_in(alloc, own)? {
        return known(letter, line);
    }
    let mut rest = lines;
    let mut next = line + 1;
    while !rest.is_empty() {
        let (content, more) = cut_line(rest);
        if !is_comment(content) {
            return Ok(None);
        }
        if let Some(letter) = said_in(alloc, comment_text(content))? {
            return known(letter, next);
        }
        rest = more;
        next += 1;
    }
    Ok(None)
}
