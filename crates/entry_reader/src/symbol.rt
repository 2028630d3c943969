//! Symbols, as they stand beside numbers.
ghost use Rattle.std.specs.Prelude.{◌≡◌, true};
ghost use Rattle.std.specs.Str.{is_utf8};
ghost use Rattle.entry_reader.specs.Symbols as spec;

use crate::scan::{
    after, before, begins, begins_number, begins_white, cut_symbol, has, past_first,
};

/// Whether the text has ended, or goes on with a comment, an assertion or a cost.
pub fn ends_amount(text: &[u8]) -> bool
    ensures { result ≡ spec.ends_amount text.now }
{
    match text {
        [] => true,
        [first, rest @ ..] => {
            *first == b';'
                || *first == b'='
                || *first == b'@'
                || (*first == b'(' && begins(rest, b'@'))
        }
    }
}

/// The symbol that a text begins with, without its quotes, and what follows it.
pub fn cut_name(text: &[u8]) -> (&[u8], &[u8])
    ensures name { result.0.now ≡ spec.symbol_name text.now }
    ensures rest { result.1.now ≡ spec.after_symbol text.now }
    ensures utf8 { is_utf8 text.now ≡ true → (is_utf8 result.0.now ≡ true)
        × (is_utf8 result.1.now ≡ true) }
{
    if begins(text, b'"') {
        let inside = past_first(text);
        (before(inside, b'"'), after(inside, b'"'))
    } else {
        cut_symbol(text)
    }
}

/// Whether a symbol in quotes has its second quote, and isn't empty.
fn is_quoted_well(text: &[u8]) -> bool
    ensures { result ≡ spec.is_quoted_well text.now }
{
    let (name, _) = cut_name(text);
    has(past_first(text), b'"') && !name.is_empty()
}

/// Whether a symbol, or none where the number, its sign or nothing more stands, may stand before a number.
pub fn is_left_good(text: &[u8]) -> bool
    ensures { result ≡ spec.is_left_good text.now }
{
    if begins(text, b'"') {
        return is_quoted_well(text);
    }
    let (name, _) = cut_name(text);
    !name.is_empty() || begins_number(text) || ends_amount(text)
}

/// Whether a symbol behind a number is of its form: in quotes, or up to white space or the amount's end.
pub fn is_right_good(text: &[u8]) -> bool
    ensures { result ≡ spec.is_right_good text.now }
{
    if begins(text, b'"') {
        return is_quoted_well(text);
    }
    let (name, rest) = cut_name(text);
    !name.is_empty() && (begins_white(rest) || ends_amount(rest))
}
