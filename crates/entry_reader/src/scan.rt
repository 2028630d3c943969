//! Scans of bytes: what they begin with, and their parts between white space and marks.
ghost use Rattle.std.specs.Prelude.{◌≡◌, true, ◌==◌, ◌+◌, ◌<◌, ◌≤◌, ◌∷◌, ◌||◌, length, take, drop, IfOk};
ghost use Rattle.std.specs.List.{prefix_len, position_or_len};
ghost use Rattle.std.specs.Str.{is_utf8};
ghost use Rattle.hl_base.specs.Items as items;
ghost use Rattle.hl_num.specs.Reading as numbers;
ghost use Rattle.entry_reader.specs.Heads as heads;
ghost use Rattle.entry_reader.specs.Lines as spec;
ghost use Rattle.entry_reader.specs.Symbols as symbols;

use hl_base::ascii::behind;
pub use hl_base::is_white;
pub use hl_base::white::{after_white, before_white, trimmed};
use hl_base::{Memory, Text, is_digit, is_punctuation};
use memchr::memchr;
use std::alloc::Global;

fn is_number_byte(byte: u8) -> bool
    ensures { result ≡ numbers.is_number_byte byte }
{
    is_digit(byte) || byte == b'.' || byte == b','
}

fn is_date_byte(byte: u8) -> bool
    ensures { result ≡ heads.is_date_byte byte }
{
    is_digit(byte) || byte == b'-' || byte == b'.' || byte == b'/'
}

fn is_sign(byte: u8) -> bool
    ensures { result ≡ symbols.is_sign byte }
{
    byte == b'+' || byte == b'-'
}

fn is_mark(byte: u8) -> bool
    ensures { result ≡ heads.is_mark byte }
{
    byte == b'!' || byte == b'*'
}

fn is_symbol_mark(byte: u8) -> bool
    ensures { result ≡ symbols.is_symbol_mark byte }
{
    byte == b'$' || byte == b'%' || byte == b'_'
}

fn is_symbol_byte(byte: u8) -> bool
    ensures { result ≡ symbols.is_symbol_byte byte }
{
    !(is_white(byte)
        || byte == b'\n'
        || is_digit(byte)
        || (is_punctuation(byte) && !is_symbol_mark(byte)))
}

#[tactic(auto, using(crate::proofs::Texts::prefix_count, crate::proofs::Texts::prefix_bound))]
fn number_length(text: &[u8]) -> usize
    ensures count { result ≡ prefix_len numbers.is_number_byte text.now }
    ensures bound { result ≤ length text.now }
{
    text.iter()
        .take_while(|byte| is_number_byte(**byte))
        .count()
}

#[tactic(auto, using(crate::proofs::Texts::prefix_count, crate::proofs::Texts::prefix_bound))]
fn date_length(text: &[u8]) -> usize
    ensures count { result ≡ prefix_len heads.is_date_byte text.now }
    ensures bound { result ≤ length text.now }
{
    text.iter().take_while(|byte| is_date_byte(**byte)).count()
}

#[tactic(auto, using(crate::proofs::Texts::prefix_count, crate::proofs::Texts::prefix_bound))]
fn symbol_length(text: &[u8]) -> usize
    ensures count { result ≡ prefix_len symbols.is_symbol_byte text.now }
    ensures bound { result ≤ length text.now }
{
    text.iter()
        .take_while(|byte| is_symbol_byte(**byte))
        .count()
}

/// The place of the first such byte, or the length.
#[tactic(auto, using(crate::proofs::Places::first_place, crate::proofs::Places::no_place))]
pub fn place_of(text: &[u8], byte: u8) -> usize
    ensures place { result ≡ position_or_len (λ b. b == byte) text.now }
    ensures bound { result ≤ length text.now }
{
    memchr(byte, text).unwrap_or(text.len())
}

/// What stands before the first such byte, or all of the text.
pub fn before(text: &[u8], byte: u8) -> &[u8]
    ensures value { result.now ≡ spec.before_byte byte text.now }
    ensures utf8 { byte < 128 → is_utf8 text.now ≡ true → is_utf8 result.now ≡ true }
{
    let (front, _) = text.split_at(place_of(text, byte));
    front
}

/// What stands after the first such byte, or nothing.
pub fn after(text: &[u8], byte: u8) -> &[u8]
    ensures value { result.now ≡ spec.after_byte byte text.now }
    ensures utf8 { byte < 128 → is_utf8 text.now ≡ true → is_utf8 result.now ≡ true }
{
    behind(text, place_of(text, byte))
}

/// What stands before the first such byte, or all of the text, and what stands after it, or nothing.
pub fn around(text: &[u8], byte: u8) -> (&[u8], &[u8])
    ensures front { result.0.now ≡ spec.before_byte byte text.now }
    ensures back { result.1.now ≡ spec.after_byte byte text.now }
    ensures utf8 { byte < 128 → is_utf8 text.now ≡ true → (is_utf8 result.0.now ≡ true)
        × (is_utf8 result.1.now ≡ true) }
{
    let at = place_of(text, byte);
    let (front, _) = text.split_at(at);
    (front, behind(text, at))
}

/// Whether such a byte stands in the text.
pub fn has(text: &[u8], byte: u8) -> bool
    ensures { result ≡ spec.has_byte byte text.now }
{
    text.iter().any(|b| *b == byte)
}

/// Whether the text begins with this byte.
#[tactic(auto, using(crate::proofs::Texts::begins_ascii))]
pub fn begins(text: &[u8], byte: u8) -> bool
    ensures value { result ≡ spec.begins text.now byte }
    ensures ascii { byte < 128 → result ≡ true → spec.starts_ascii text.now ≡ true }
{
    hl_base::ascii::begins(text, byte)
}

/// Whether the text begins with white space.
pub fn begins_white(text: &[u8]) -> bool
    ensures value { result ≡ spec.first_is items.is_white text.now }
    ensures ascii { result ≡ true → spec.starts_ascii text.now ≡ true }
{
    match text {
        [] => false,
        [first, ..] => is_white(*first),
    }
}

/// Whether the text begins with a digit, as an entry does.
pub fn begins_digit(text: &[u8]) -> bool
    ensures { result ≡ items.begins_entry text.now }
{
    match text {
        [] => false,
        [first, ..] => is_digit(*first),
    }
}

/// Whether the text begins with `+` or `-`.
pub fn begins_sign(text: &[u8]) -> bool
    ensures value { result ≡ spec.first_is symbols.is_sign text.now }
    ensures ascii { result ≡ true → spec.starts_ascii text.now ≡ true }
{
    match text {
        [] => false,
        [first, ..] => is_sign(*first),
    }
}

/// Whether the text begins with `!` or `*`.
pub fn begins_mark(text: &[u8]) -> bool
    ensures value { result ≡ spec.first_is heads.is_mark text.now }
    ensures ascii { result ≡ true → spec.starts_ascii text.now ≡ true }
{
    match text {
        [] => false,
        [first, ..] => is_mark(*first),
    }
}

/// Whether the text begins with a number or a sign.
pub fn begins_number(text: &[u8]) -> bool
    ensures { result ≡ spec.first_is (λ b. numbers.is_number_byte b || symbols.is_sign b) text.now }
{
    match text {
        [] => false,
        [first, ..] => is_number_byte(*first) || is_sign(*first),
    }
}

/// What follows the first byte.
#[tactic(auto, using(crate::proofs::Texts::first_utf8))]
pub fn past_first(text: &[u8]) -> &[u8]
    ensures value { result.now ≡ drop 1 text.now }
    ensures utf8 { spec.starts_ascii text.now ≡ true → is_utf8 text.now ≡ true
        → is_utf8 result.now ≡ true }
{
    behind(text, 0)
}

/// The digits and marks that a text begins with, and what follows them.
#[tactic(auto, using(crate::proofs::Texts::after_number_utf8))]
pub fn cut_number(text: &[u8]) -> (&[u8], &[u8])
    ensures number { result.0.now ≡ take (prefix_len numbers.is_number_byte text.now) text.now }
    ensures rest { result.1.now ≡ drop (prefix_len numbers.is_number_byte text.now) text.now }
    ensures utf8 { is_utf8 text.now ≡ true → is_utf8 result.1.now ≡ true }
{
    text.split_at(number_length(text))
}

/// The digits and separators that a text begins with, and what follows them.
#[tactic(auto, using(crate::proofs::Texts::after_date_utf8))]
pub fn cut_date(text: &[u8]) -> (&[u8], &[u8])
    ensures date { result.0.now ≡ take (prefix_len heads.is_date_byte text.now) text.now }
    ensures rest { result.1.now ≡ drop (prefix_len heads.is_date_byte text.now) text.now }
    ensures utf8 { is_utf8 text.now ≡ true → is_utf8 result.1.now ≡ true }
{
    text.split_at(date_length(text))
}

/// The symbol without quotes that a text begins with, and what follows it.
#[tactic(auto, using(crate::proofs::Texts::symbol_utf8, crate::proofs::Texts::after_symbol_utf8))]
pub fn cut_symbol(text: &[u8]) -> (&[u8], &[u8])
    ensures symbol { result.0.now ≡ take (prefix_len symbols.is_symbol_byte text.now) text.now }
    ensures rest { result.1.now ≡ drop (prefix_len symbols.is_symbol_byte text.now) text.now }
    ensures utf8 { is_utf8 text.now ≡ true → (is_utf8 result.0.now ≡ true)
        × (is_utf8 result.1.now ≡ true) }
{
    text.split_at(symbol_length(text))
}

/// What the first line of a text says, and the text after the line.
pub fn cut_line(text: &[u8]) -> (&[u8], &[u8])
    requires { 0 < length text.now }
    ensures cut { spec.contents_of text.now ≡ result.0.now ∷ spec.contents_of result.1.now }
    ensures shorter { length result.1.now < length text.now }
    ensures utf8 { is_utf8 text.now ≡ true → (is_utf8 result.0.now ≡ true)
        × (is_utf8 result.1.now ≡ true) }
{
    let end = place_of(text, b'\n');
    let (line, _) = text.split_at(end);
    (before_white(line), behind(text, end))
}

/// The text of bytes in UTF-8.
pub fn text_of(alloc: Global, bytes: &[u8]) -> Result<Text, Memory>
    requires { is_utf8 bytes.now ≡ true }
    ensures { IfOk result (λ text. text ≡ bytes.now) }
{
    // The caller's bytes are UTF-8.
    Text::copied(alloc, unsafe { std::str::from_utf8_unchecked(bytes) })
}

/// Whether bytes are a text in UTF-8.
pub fn is_utf8(bytes: &[u8]) -> bool
    ensures { result ≡ is_utf8 bytes.now }
{
    match std::str::from_utf8(bytes) {
        Ok(_) => true,
        Err(_) => false,
    }
}
