//! Texts without the white space at their ends.
ghost use Rattle.std.specs.Prelude.{◌≡◌, ◌≤◌, true, length, take};
ghost use Rattle.std.specs.List.{prefix_len};
ghost use Rattle.std.specs.Str.{is_utf8};
ghost use Rattle.hl_base.specs.Ascii as spec;

use crate::ascii::is_white;

/// How many bytes of white space a text begins with.
#[tactic(auto, using(crate::proofs::WhiteEnds::prefix_count, crate::proofs::WhiteEnds::prefix_bound))]
fn white_length(text: &[u8]) -> usize
    ensures count { result ≡ prefix_len spec.is_white text.now }
    ensures bound { result ≤ length text.now }
{
    text.iter().take_while(|byte| is_white(**byte)).count()
}

/// The text without the white space at its front.
#[tactic(auto, using(crate::proofs::WhiteEnds::after_white_utf8))]
pub fn after_white(text: &[u8]) -> &[u8]
    ensures value { result.now ≡ spec.after_white text.now }
    ensures utf8 { is_utf8 text.now ≡ true → is_utf8 result.now ≡ true }
{
    let (_, rest) = text.split_at(white_length(text));
    rest
}

/// The first bytes of a text.
pub fn front(text: &[u8], end: usize) -> &[u8]
    requires { end ≤ length text.now }
    ensures { result.now ≡ take end text.now }
{
    let (front, _) = text.split_at(end);
    front
}

/// The text without the white space at its end.
pub fn before_white(text: &[u8]) -> &[u8]
    ensures value { result.now ≡ spec.before_white text.now }
    ensures utf8 { is_utf8 text.now ≡ true → is_utf8 result.now ≡ true }
{
    let mut end = text.len();
    while 0 < end {
        if !is_white(text[end - 1]) {
            return front(text, end);
        }
        end -= 1;
    }
    front(text, 0)
}

/// The text without white space at both ends.
pub fn trimmed(text: &[u8]) -> &[u8]
    ensures value { result.now ≡ spec.trimmed text.now }
    ensures utf8 { is_utf8 text.now ≡ true → is_utf8 result.now ≡ true }
{
    before_white(after_white(text))
}
