//! What the fields of a head say of its message.
ghost use Rattle.std.specs.Prelude.{◌≡◌, IfOk, map, length, All};
ghost use Rattle.std.specs.Prelude.{◌^◌, ◌≤◌, Some, None, true, nat_lt, if◌then◌else◌};
ghost use Rattle.std.specs.Char.{to_ascii_lowercase, is_ascii_digit};
ghost use Rattle.std.specs.List.{list_all, list_any, position_or_len};
ghost use Rattle.std.specs.Str.Parse.{digits_value};
ghost use Rattle.httparse.specs.Spans.{header_bytes, IsHeaderWithin};
ghost use Rattle.web_messages.specs.Fields.{is_word, values_of, starts_well, is_between, number_of, said_by, body_length, has_close, says_close};

use hl_base::Memory;
use httparse::spans::HeaderSpan;
use std::alloc::Global;

/// Whether a text is this word, which is in lower case, in whatever case.
pub(crate) fn is_same_word(text: &[u8], word: &[u8]) -> bool
    requires { map to_ascii_lowercase word.now ≡ word.now }
    ensures { result ≡ is_word word.now text.now }
{
    text.eq_ignore_ascii_case(word)
}

/// The values of the fields of a name, in order. The name is in lower case.
pub(crate) fn values<'b>(
    alloc: Global,
    head: &'b [u8],
    spans: &[HeaderSpan],
    name: &[u8],
) -> Result<Vec<&'b [u8]>, Memory>
    requires within { All (IsHeaderWithin (length head.now)) spans.now }
    requires lower { map to_ascii_lowercase name.now ≡ name.now }
    ensures { IfOk result (λ found. map (λ v. v.now) found.items
        ≡ values_of name.now (map (header_bytes head.now) spans.now)) }
{
    let mut found = Vec::new(alloc);
    for span in spans {
        if is_same_word(span.name.of(head), name) {
            found.push(span.value.of(head))?;
        }
    }
    Ok(found)
}

/// Whether no leading zero stands before other digits.
fn is_well_begun(text: &[u8]) -> bool
    ensures { result ≡ starts_well text.now }
{
    match text {
        [] => false,
        [_] => true,
        [first, _, ..] => *first > b'0',
    }
}

/// Whether a text is digits alone.
fn is_all_digits(text: &[u8]) -> bool
    ensures { result ≡ list_all is_ascii_digit text.now }
{
    text.iter().all(|b| b.is_ascii_digit())
}

/// The number that digits make, if it is one below 2^64.
fn value_of_digits(text: &[u8]) -> Option<u64>
    requires { list_all is_ascii_digit text.now ≡ true }
    ensures { result ≡ (if nat_lt (digits_value 10 text.now) (2 ^ 64) then Some
        (digits_value 10 text.now) else None) }
{
    let mut value: u64 = 0;
    for digit in text {
        let units = u64::from(*digit - b'0');
        if value > (u64::MAX - units) / 10 {
            return None;
        }
        value = value * 10 + units;
    }
    Some(value)
}

/// The number that a text is, if it is one below 2^64.
pub(crate) fn number(text: &[u8]) -> Option<u64>
    ensures { result ≡ number_of text.now }
{
    if is_well_begun(text) && is_all_digits(text) {
        value_of_digits(text)
    } else {
        None
    }
}

/// The length that the values of the fields Content-Length say.
fn said(values: &[&[u8]]) -> Option<u64>
    ensures { result ≡ said_by (map (λ v. v.now) values.now) }
{
    match values {
        [] => Some(0),
        [only] => number(only),
        _ => None,
    }
}

/// How long the body is, if the fields say a length that can be used.
pub fn length_of_body(
    alloc: Global,
    head: &[u8],
    spans: &[HeaderSpan],
) -> Result<Option<u64>, Memory>
    requires { All (IsHeaderWithin (length head.now)) spans.now }
    ensures { IfOk result (λ said. said ≡ body_length (map (header_bytes head.now) spans.now)) }
{
    if !values(alloc, head, spans, b"transfer-encoding")?.is_empty() {
        return Ok(None);
    }
    let lengths = values(alloc, head, spans, b"content-length")?;
    Ok(said(lengths.as_slice()))
}

/// Whether a byte stands between the words of a value: a comma, a space or a tab.
fn is_mark(b: u8) -> bool
    ensures { result ≡ is_between b }
{
    b == b',' || b == b' ' || b == b'\t'
}

/// How many bytes stand before the first mark between words.
fn word_length(text: &[u8]) -> usize
    ensures value { result ≡ position_or_len is_between text.now }
    ensures within { result ≤ length text.now }
{
    match text.iter().position(|b| is_mark(*b)) {
        Some(at) => at,
        None => text.len(),
    }
}

/// Whether the word `close` is among the words of a value.
fn has_close_word(value: &[u8]) -> bool
    ensures { result ≡ has_close value.now }
{
    let mut rest = value;
    loop {
        let length = word_length(rest);
        let (word, _) = rest.split_at(length);
        if is_same_word(word, b"close") {
            return true;
        }
        if length == rest.len() {
            return false;
        }
        let (_, after) = rest.split_at(length + 1);
        rest = after;
    }
}

/// Whether a field Connection has the word `close`.
pub fn says_to_close(alloc: Global, head: &[u8], spans: &[HeaderSpan]) -> Result<bool, Memory>
    requires { All (IsHeaderWithin (length head.now)) spans.now }
    ensures { IfOk result (λ closing.
        closing ≡ says_close (map (header_bytes head.now) spans.now)) }
{
    let values = values(alloc, head, spans, b"connection")?;
    Ok(any_close(values.as_slice()))
}

/// Whether one of some values has the word `close`.
fn any_close(values: &[&[u8]]) -> bool
    ensures { result ≡ list_any has_close (map (λ v. v.now) values.now) }
{
    for value in values {
        if has_close_word(value) {
            return true;
        }
    }
    false
}
