//! The words that lines of rules begin with, and the names of fields.
ghost use Rattle.std.specs.Prelude.{◌≡◌, ◌-◌, ◌≤◌, true, IfOk, length, take, drop, codes};
ghost use Rattle.std.specs.List.{prefix_len, list_all};
ghost use Rattle.std.specs.Str.{is_utf8, bytes_eq};
ghost use Rattle.std.specs.Str.Parse.{digits_value};
ghost use Rattle.hl_time.specs.Words as words;
ghost use Rattle.csv_rules.specs.Words as spec;

use crate::forms::Word;
use crate::kinds::EntryField;
use hl_base::is_digit;
use hl_num::digits_number;
use query_terms::cutting::{bytes_of, str_of};
use unicode::case::simple_fold;

/// Whether two texts are the same.
pub(crate) fn is_same(a: &[u8], b: &[u8]) -> bool
    ensures { result ≡ bytes_eq a.now b.now }
{
    a == b
}

/// Whether two texts are the same but for the case of ASCII letters.
pub fn is_same_word(word: &[u8], name: &[u8]) -> bool
    ensures { result ≡ words.is_word word.now name.now }
{
    word.eq_ignore_ascii_case(name)
}

fn is_letter(byte: u8) -> bool
    ensures { result ≡ spec.is_letter byte }
{
    (b'A' <= byte && byte <= b'Z') || (b'a' <= byte && byte <= b'z')
}

/// Whether a byte may be in the word that a rule begins with.
fn is_name_byte(byte: u8) -> bool
    ensures { result ≡ spec.is_name_byte byte }
{
    is_digit(byte) || is_letter(byte) || byte == b'_' || byte == b'-'
}

#[tactic(auto, using(entry_reader::proofs::Texts::prefix_count, entry_reader::proofs::Texts::prefix_bound))]
fn name_length(text: &[u8]) -> usize
    ensures count { result ≡ prefix_len spec.is_name_byte text.now }
    ensures bound { result ≤ length text.now }
{
    text.iter().take_while(|byte| is_name_byte(**byte)).count()
}

/// The word that a rule begins with, which may be empty, and what follows it.
#[tactic(auto, using(crate::proofs::Names::name_utf8, crate::proofs::Names::after_name_utf8))]
pub(crate) fn cut_name(text: &[u8]) -> (&[u8], &[u8])
    ensures name { result.0.now ≡ spec.name_at text.now }
    ensures rest { result.1.now ≡ spec.after_name text.now }
    ensures utf8 { is_utf8 text.now ≡ true → (is_utf8 result.0.now ≡ true)
        × (is_utf8 result.1.now ≡ true) }
{
    text.split_at(name_length(text))
}

/// Whether a character may be in the name of a column, where a rule refers to it: a letter or a digit
/// of any script, `_` or `-`.
#[tactic(auto, unfolding(crate::specs::Words::is_name_char))]
fn is_name_char(c: char) -> bool
    ensures { result ≡ spec.is_name_char c }
{
    c.is_alphabetic() || c.is_numeric() || c == '_' || c == '-'
}

/// What follows the longest name of a column that a text begins with.
fn past_column(text: &str) -> &str
    ensures { result.now ≡ spec.after_column_name text.now }
{
    let mut rest = text.chars();
    loop {
        let here = rest.as_str();
        match rest.next() {
            Some(c) => {
                if !is_name_char(c) {
                    return here;
                }
            }
            None => return here,
        }
    }
}

/// What follows the longest name of a column, as bytes.
fn after_column_name(text: &[u8]) -> &[u8]
    requires { is_utf8 text.now ≡ true }
    ensures value { result.now ≡ spec.after_column_name text.now }
    ensures utf8 { is_utf8 result.now ≡ true }
{
    bytes_of(past_column(str_of(text)))
}

/// How many bytes of a text stand before the rest of it.
fn length_before(text: &[u8], rest: &[u8]) -> usize
    ensures count { result ≡ length text.now - length rest.now }
    ensures bound { result ≤ length text.now }
{
    text.len().saturating_sub(rest.len())
}

/// The name of a column that a text begins with, which may be empty, and what follows it.
#[tactic(auto, using(crate::proofs::ColumnNames::name_is, crate::proofs::ColumnNames::name_utf8))]
pub fn cut_column(text: &[u8]) -> (&[u8], &[u8])
    requires { is_utf8 text.now ≡ true }
    ensures name { result.0.now ≡ spec.column_name text.now }
    ensures rest { result.1.now ≡ spec.after_column_name text.now }
    ensures utf8 { (is_utf8 result.0.now ≡ true) × (is_utf8 result.1.now ≡ true) }
{
    let rest = after_column_name(text);
    let (name, _) = text.split_at(length_before(text, rest));
    (name, rest)
}

/// Whether two names of columns are the same by simple folding.
pub fn is_same_name(name: &str, other: &str) -> bool
    ensures { result ≡ spec.is_same_name name.now other.now }
{
    let mut rest = name.chars();
    for c in other.chars() {
        match rest.next() {
            Some(d) => {
                if simple_fold(c) != simple_fold(d) {
                    return false;
                }
            }
            None => return false,
        }
    }
    match rest.next() {
        Some(_) => false,
        None => true,
    }
}

/// Whether a text is digits alone.
fn has_digits_alone(text: &[u8]) -> bool
    ensures { result ≡ list_all spec.is_digit text.now }
{
    text.iter().all(|byte| is_digit(*byte))
}

/// Whether a text is one digit or more, and nothing else.
pub fn are_digits(text: &[u8]) -> bool
    ensures { result ≡ spec.are_digits text.now }
{
    !is_same(text, b"") && has_digits_alone(text)
}

/// The number of some digits, or the greatest that is told.
pub fn value_of(text: &[u8]) -> u64
    requires { spec.are_digits text.now ≡ true }
    ensures { result ≡ spec.value_of text.now }
{
    digits_number(text)
}

/// Whether a name is that of a field, with case ignored or not.
fn is_named(ignores_case: bool, name: &[u8], word: &[u8]) -> bool
    ensures { result ≡ spec.is_named ignores_case name.now word.now }
{
    if ignores_case {
        is_same_word(name, word)
    } else {
        is_same(name, word)
    }
}

/// The field of amounts or of the currency that a name is.
#[tactic(auto, unfolding(crate::specs::Words::amount_named))]
fn amount_named(ignores_case: bool, name: &[u8]) -> Option<EntryField>
    ensures { result ≡ spec.amount_named ignores_case name.now }
{
    if is_named(ignores_case, name, b"amount") {
        Some(EntryField::Amount)
    } else if is_named(ignores_case, name, b"amount1") {
        Some(EntryField::Amount)
    } else if is_named(ignores_case, name, b"amount-in") {
        Some(EntryField::AmountIn)
    } else if is_named(ignores_case, name, b"amount-out") {
        Some(EntryField::AmountOut)
    } else if is_named(ignores_case, name, b"amount2") {
        Some(EntryField::Amount2)
    } else if is_named(ignores_case, name, b"currency") {
        Some(EntryField::Currency)
    } else {
        None
    }
}

/// The field of an account, of amounts or of the currency that a name is.
#[tactic(auto, unfolding(crate::specs::Words::account_named))]
fn account_named(ignores_case: bool, name: &[u8]) -> Option<EntryField>
    ensures { result ≡ spec.account_named ignores_case name.now }
{
    if is_named(ignores_case, name, b"account1") {
        Some(EntryField::Account1)
    } else if is_named(ignores_case, name, b"account2") {
        Some(EntryField::Account2)
    } else {
        amount_named(ignores_case, name)
    }
}

/// The field that a name is.
#[tactic(auto, unfolding(crate::specs::Words::field_named))]
pub fn field_named(ignores_case: bool, name: &[u8]) -> Option<EntryField>
    ensures { result ≡ spec.field_named ignores_case name.now }
{
    if is_named(ignores_case, name, b"date") {
        Some(EntryField::Date)
    } else if is_named(ignores_case, name, b"status") {
        Some(EntryField::Status)
    } else if is_named(ignores_case, name, b"code") {
        Some(EntryField::Code)
    } else if is_named(ignores_case, name, b"description") {
        Some(EntryField::Description)
    } else if is_named(ignores_case, name, b"comment") {
        Some(EntryField::Comment)
    } else {
        account_named(ignores_case, name)
    }
}

/// What a word is that isn't one of a setting.
#[tactic(auto, unfolding(crate::specs::Words::field_word))]
fn field_word(word: &[u8]) -> Word
    ensures { result ≡ spec.field_word word.now }
{
    match field_named(false, word) {
        Some(field) => Word::Field(field),
        None => Word::Other,
    }
}

/// What a word is.
#[tactic(auto, unfolding(crate::specs::Words::word_of))]
pub(crate) fn word_of(word: &[u8]) -> Word
    ensures { result ≡ spec.word_of word.now }
{
    if is_same(word, b"skip") {
        Word::Skip
    } else if is_same(word, b"separator") {
        Word::Separator
    } else if is_same(word, b"fields") {
        Word::Fields
    } else if is_same(word, b"date-format") {
        Word::DateFormat
    } else if is_same(word, b"newest-first") {
        Word::NewestFirst
    } else if is_same(word, b"intra-day-reversed") {
        Word::IntradayReversed
    } else if is_same(word, b"decimal-mark") {
        Word::DecimalMark
    } else if is_same(word, b"if") {
        Word::If
    } else {
        field_word(word)
    }
}
