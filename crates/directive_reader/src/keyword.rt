//! The words that the lines of directives and rules begin with.
ghost use Rattle.std.specs.Prelude.{◌≡◌, true, false, codes, MatchOption, IfSome};
ghost use Rattle.std.specs.Str.{is_utf8};
ghost use Rattle.entry_reader.specs.Heads as heads;
ghost use Rattle.directive_reader.specs.Keywords as spec;

use entry_reader::scan::{after_white, begins, begins_digit, begins_white, past_first};

/// What a directive or a rule begins with.
#[derive(Clone, Copy, Debug, PartialEq, Eq)]
pub enum Keyword {
    Commodity,
    Default,
    Account,
    Price,
    Year,
    Apply,
    EndApply,
    Alias,
    EndAliases,
    Payee,
    Tag,
    DecimalMark,
    Auto,
    Periodic,
    /// Anything else.
    Other,
}

/// Whether the text has ended, or goes on with white space.
pub fn ends_word(text: &[u8]) -> bool
    ensures { result ≡ heads.ends_word text.now }
{
    text.is_empty() || begins_white(text)
}

/// What follows a word that a text begins with, and white space; none where it begins with another.
#[tactic(auto, using(crate::proofs::Keywords::past_word), unfolding(crate::specs::Keywords::has_word, crate::specs::Keywords::after_word))]
pub fn after_word<'a>(text: &'a [u8], word: &[u8]) -> Option<&'a [u8]>
    ensures value { MatchOption result (spec.has_word word.now text.now ≡ false)
        (λ x. (spec.has_word word.now text.now ≡ true)
        × (x.now ≡ spec.after_word word.now text.now)) }
    ensures utf8 { is_utf8 text.now ≡ true → IfSome result (λ x. is_utf8 x.now ≡ true) }
{
    if !text.starts_with(word) {
        return None;
    }
    let (_, rest) = text.split_at(word.len());
    if ends_word(rest) {
        Some(after_white(rest))
    } else {
        None
    }
}

/// What follows two words that a text begins with, and white space; none where it begins otherwise.
#[tactic(auto, unfolding(crate::specs::Keywords::has_two, crate::specs::Keywords::after_two))]
fn after_two<'a>(text: &'a [u8], one: &[u8], two: &[u8]) -> Option<&'a [u8]>
    ensures value { MatchOption result (spec.has_two one.now two.now text.now ≡ false)
        (λ x. (spec.has_two one.now two.now text.now ≡ true)
        × (x.now ≡ spec.after_two one.now two.now text.now)) }
    ensures utf8 { is_utf8 text.now ≡ true → IfSome result (λ x. is_utf8 x.now ≡ true) }
{
    match after_word(text, one) {
        Some(rest) => after_word(rest, two),
        None => None,
    }
}

/// What follows `end apply account`.
#[tactic(auto, unfolding(crate::specs::Keywords::ends_apply, crate::specs::Keywords::after_end_apply))]
fn after_end_apply(text: &[u8]) -> Option<&[u8]>
    ensures value { MatchOption result (spec.ends_apply text.now ≡ false)
        (λ x. (spec.ends_apply text.now ≡ true) × (x.now ≡ spec.after_end_apply text.now)) }
    ensures utf8 { is_utf8 text.now ≡ true → IfSome result (λ x. is_utf8 x.now ≡ true) }
{
    match after_word(text, b"end") {
        Some(rest) => after_two(rest, b"apply", b"account"),
        None => None,
    }
}

/// The keywords of declarations.
#[tactic(auto, unfolding(crate::specs::Keywords::declared_word))]
fn declared_word(text: &[u8]) -> (Keyword, &[u8])
    ensures value { (result.0, result.1.now) ≡ spec.declared_word text.now }
    ensures utf8 { is_utf8 text.now ≡ true → is_utf8 result.1.now ≡ true }
{
    if let Some(rest) = after_word(text, b"commodity") {
        return (Keyword::Commodity, rest);
    }
    if let Some(rest) = after_word(text, b"account") {
        return (Keyword::Account, rest);
    }
    if let Some(rest) = after_word(text, b"payee") {
        return (Keyword::Payee, rest);
    }
    if let Some(rest) = after_word(text, b"tag") {
        return (Keyword::Tag, rest);
    }
    (Keyword::Other, text)
}

/// The keywords that change how later items are read, and those of declarations.
#[tactic(auto, unfolding(crate::specs::Keywords::changing_word))]
fn changing_word(text: &[u8]) -> (Keyword, &[u8])
    ensures value { (result.0, result.1.now) ≡ spec.changing_word text.now }
    ensures utf8 { is_utf8 text.now ≡ true → is_utf8 result.1.now ≡ true }
{
    if let Some(rest) = after_word(text, b"year") {
        return (Keyword::Year, rest);
    }
    if let Some(rest) = after_two(text, b"apply", b"account") {
        return (Keyword::Apply, rest);
    }
    if let Some(rest) = after_end_apply(text) {
        return (Keyword::EndApply, rest);
    }
    if let Some(rest) = after_word(text, b"alias") {
        return (Keyword::Alias, rest);
    }
    if let Some(rest) = after_two(text, b"end", b"aliases") {
        return (Keyword::EndAliases, rest);
    }
    if let Some(rest) = after_word(text, b"decimal-mark") {
        return (Keyword::DecimalMark, rest);
    }
    declared_word(text)
}

/// Whether the text begins with a `Y` that is a word, or that a digit follows.
fn is_year_letter(text: &[u8]) -> bool
    ensures { result ≡ spec.is_year_letter text.now }
{
    begins(text, b'Y') && (ends_word(past_first(text)) || begins_digit(past_first(text)))
}

/// What a text begins with, and what follows it and white space.
#[tactic(auto, unfolding(crate::specs::Keywords::keyword_at))]
pub fn cut_keyword(text: &[u8]) -> (Keyword, &[u8])
    ensures value { (result.0, result.1.now) ≡ spec.keyword_at text.now }
    ensures utf8 { is_utf8 text.now ≡ true → is_utf8 result.1.now ≡ true }
{
    if let Some(rest) = after_word(text, b"P") {
        return (Keyword::Price, rest);
    }
    if begins(text, b'~') {
        return (Keyword::Periodic, after_white(past_first(text)));
    }
    if begins(text, b'=') {
        return (Keyword::Auto, after_white(past_first(text)));
    }
    if let Some(rest) = after_word(text, b"D") {
        return (Keyword::Default, rest);
    }
    if is_year_letter(text) {
        return (Keyword::Year, after_white(past_first(text)));
    }
    changing_word(text)
}
