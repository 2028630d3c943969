//! The words of a query, as they stand in a rule.
ghost use Rattle.std.specs.Prelude.{◌≡◌, ◌<◌, ◌≤◌, ◌++◌, ◌∷◌, [], true, false, length, take, drop, IfOk, OnOk};
ghost use Rattle.std.specs.List.{prefix_len};
ghost use Rattle.std.specs.Str.{is_utf8};
ghost use Rattle.std.specs.String.{string_bytes};
ghost use Rattle.directive_reader.specs.QueryWords as spec;
ghost use Rattle.directive_reader.specs.QueryWords.{is_plain, joins};
ghost use Rattle.hl_base.specs.Items.{is_white};
ghost use Rattle.entry_reader.specs.Lines.{first_is};

use entry_reader::comment::append;
use entry_reader::scan::{after, before, begins, begins_white, has, is_white, past_first};
use hl_base::{List, Memory, Text};
use std::alloc::Global;

#[tactic(auto, using(entry_reader::proofs::Texts::prefix_count, entry_reader::proofs::Texts::prefix_bound))]
fn plain_length(text: &[u8]) -> usize
    ensures count { result ≡ prefix_len is_plain text.now }
    ensures bound { result ≤ length text.now }
{
    text.iter()
        .take_while(|byte| !(is_white(**byte) || **byte == b'"'))
        .count()
}

/// The bytes that a text begins with and that go into one word, without the quotes around them, and what follows.
#[tactic(auto, using(crate::proofs::QueryWords::quoted_run, crate::proofs::QueryWords::lone_quote, crate::proofs::QueryWords::plain_run, crate::proofs::QueryWords::plain_utf8, crate::proofs::QueryWords::after_plain_utf8, crate::proofs::QueryWords::quote_utf8, crate::proofs::QueryWords::plain_shorter, crate::proofs::QueryWords::quoted_shorter))]
fn cut_run(text: &[u8]) -> (&[u8], &[u8])
    requires some { 0 < length text.now }
    requires ink { first_is is_white text.now ≡ false }
    ensures words { spec.words_from false text.now
        ≡ joins result.0.now (spec.words_from false result.1.now) }
    ensures shorter { length result.1.now < length text.now }
    ensures utf8 { is_utf8 text.now ≡ true → (is_utf8 result.0.now ≡ true)
        × (is_utf8 result.1.now ≡ true) }
{
    if !begins(text, b'"') {
        return text.split_at(plain_length(text));
    }
    let inside = past_first(text);
    if has(inside, b'"') {
        return (before(inside, b'"'), after(inside, b'"'));
    }
    (b"\"", inside)
}

/// The first word of a text, which may be empty, and what follows the white space behind it.
#[tactic(auto, using(crate::proofs::QueryWords::white_end, crate::proofs::QueryWords::text_end, crate::proofs::QueryWords::run_more))]
fn read_word(alloc: Global, text: &[u8]) -> Result<(Text, &[u8]), Memory>
    requires some { 0 < length text.now }
    requires utf8 { is_utf8 text.now ≡ true }
    ensures words { IfOk result (λ x.
        spec.query_words text.now ≡ spec.filled (x.0 ∷ []) ++ spec.query_words x.1.now) }
    ensures shorter { IfOk result (λ x. length x.1.now < length text.now) }
    ensures utf8 { IfOk result (λ x. is_utf8 x.1.now ≡ true) }
{
    let mut word = String::new(alloc);
    let mut rest = text;
    while !rest.is_empty() {
        if begins_white(rest) {
            return Ok((Text::from_string(word), past_first(rest)));
        }
        let (run, more) = cut_run(rest);
        append(&mut word, run)?;
        rest = more;
    }
    Ok((Text::from_string(word), rest))
}

/// Puts a word behind others, unless it is empty.
fn push_filled(words: &mut Vec<Text>, word: Text) -> Result<(), Memory>
    ensures { OnOk result (words.new.items ≡ words.old.items ++ spec.filled (word ∷ [])) }
{
    if !word.as_bytes().is_empty() {
        words.push(word)?;
    }
    Ok(())
}

/// The words of a query.
#[tactic(auto, using(crate::proofs::QueryWords::words_more, crate::proofs::QueryWords::words_done))]
pub fn read_query(alloc: Global, text: &[u8]) -> Result<List<Text>, Memory>
    requires { is_utf8 text.now ≡ true }
    ensures { IfOk result (λ words. words ≡ spec.query_words text.now) }
{
    let mut words = Vec::new(alloc);
    let mut rest = text;
    while !rest.is_empty() {
        let (word, more) = read_word(alloc, rest)?;
        push_filled(&mut words, word)?;
        rest = more;
    }
    Ok(List::from_vec(words))
}
