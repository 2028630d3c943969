//! Texts without the white space and the line ends at their ends.
ghost use Rattle.std.specs.Prelude.{◌≡◌, ◌≤◌, true, length, take};
ghost use Rattle.std.specs.List.{prefix_len};
ghost use Rattle.std.specs.Str.{is_utf8};
ghost use Rattle.csv_entries.specs.Spaces as spec;

use entry_reader::scan::is_white;

/// Whether a byte is white space or the end of a line.
fn is_space(byte: u8) -> bool
    ensures { result ≡ spec.is_space byte }
{
    is_white(byte) || byte == b'\n'
}

#[tactic(auto, using(entry_reader::proofs::Texts::prefix_count, entry_reader::proofs::Texts::prefix_bound))]
fn space_length(text: &[u8]) -> usize
    ensures count { result ≡ prefix_len spec.is_space text.now }
    ensures bound { result ≤ length text.now }
{
    text.iter().take_while(|byte| is_space(**byte)).count()
}

/// The text without what is white at its front.
#[tactic(auto, using(crate::proofs::Stripped::after_space_utf8))]
fn after_space(text: &[u8]) -> &[u8]
    ensures value { result.now ≡ spec.after_space text.now }
    ensures utf8 { is_utf8 text.now ≡ true → is_utf8 result.now ≡ true }
{
    let (_, rest) = text.split_at(space_length(text));
    rest
}

/// The first bytes of a text.
fn front(text: &[u8], end: usize) -> &[u8]
    requires { end ≤ length text.now }
    ensures { result.now ≡ take end text.now }
{
    let (front, _) = text.split_at(end);
    front
}

/// The text without what is white at its end.
fn before_space(text: &[u8]) -> &[u8]
    ensures value { result.now ≡ spec.before_space text.now }
    ensures utf8 { is_utf8 text.now ≡ true → is_utf8 result.now ≡ true }
{
    let mut end = text.len();
    while 0 < end {
        if !is_space(text[end - 1]) {
            return front(text, end);
        }
        end -= 1;
    }
    front(text, 0)
}

/// The text without white space and line ends at both ends.
pub(crate) fn stripped(text: &[u8]) -> &[u8]
    ensures value { result.now ≡ spec.stripped text.now }
    ensures utf8 { is_utf8 text.now ≡ true → is_utf8 result.now ≡ true }
{
    before_space(after_space(text))
}
