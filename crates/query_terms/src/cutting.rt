//! Texts cut at bytes, and bytes as texts.
ghost use Rattle.std.specs.Prelude.{◌≡◌, true, ◌==◌, ◌<◌, ◌≤◌, length, IfOk};
ghost use Rattle.std.specs.List.{position_or_len};
ghost use Rattle.std.specs.Str.{is_utf8};
ghost use Rattle.query_terms.specs.Reading as spec;

use hl_base::ascii::behind;
pub use hl_base::white::{front, trimmed};
use hl_base::{Memory, Text};
use std::alloc::Global;

/// The place of the first such byte, or the length.
#[tactic(auto, using(crate::proofs::Texts::prefix_count, crate::proofs::Texts::prefix_bound))]
pub fn place_of(text: &[u8], byte: u8) -> usize
    ensures place { result ≡ position_or_len (λ b. b == byte) text.now }
    ensures bound { result ≤ length text.now }
{
    text.iter().take_while(|b| !(**b == byte)).count()
}

/// What stands before the first such byte, or all of the text.
pub fn before(text: &[u8], byte: u8) -> &[u8]
    ensures value { result.now ≡ spec.before_byte byte text.now }
    ensures utf8 { byte < 128 → is_utf8 text.now ≡ true → is_utf8 result.now ≡ true }
{
    let (front, _) = text.split_at(place_of(text, byte));
    front
}

/// What stands after the first such byte, or nothing.
pub fn after(text: &[u8], byte: u8) -> &[u8]
    ensures value { result.now ≡ spec.after_byte byte text.now }
    ensures utf8 { byte < 128 → is_utf8 text.now ≡ true → is_utf8 result.now ≡ true }
{
    behind(text, place_of(text, byte))
}

/// Whether such a byte stands in the text.
pub fn has(text: &[u8], byte: u8) -> bool
    ensures { result ≡ spec.has_byte byte text.now }
{
    text.iter().any(|b| *b == byte)
}

/// Bytes in UTF-8 as a text.
pub fn str_of(bytes: &[u8]) -> &str
    requires { is_utf8 bytes.now ≡ true }
    ensures { result.now ≡ bytes.now }
{
    // The caller's bytes are UTF-8.
    unsafe { std::str::from_utf8_unchecked(bytes) }
}

/// A copy of bytes in UTF-8.
pub fn text_of(alloc: Global, bytes: &[u8]) -> Result<Text, Memory>
    requires { is_utf8 bytes.now ≡ true }
    ensures { IfOk result (λ text. text ≡ bytes.now) }
{
    Text::copied(alloc, str_of(bytes))
}

/// The bytes of a text.
pub fn bytes_of(text: &str) -> &[u8]
    ensures same { result.now ≡ text.now }
    ensures utf8 { is_utf8 result.now ≡ true }
{
    text.as_bytes()
}
