//! Bytes by their kind.
ghost use Rattle.std.specs.Prelude.{◌≡◌, ◌+◌, drop};
ghost use Rattle.std.specs.List.{list_all};
ghost use Rattle.hl_base.specs.Ascii as spec;

/// White space within a line: a space, a tab or a CR.
pub fn is_white(byte: u8) -> bool
    ensures { result ≡ spec.is_white byte }
{
    byte == b' ' || byte == b'\t' || byte == b'\r'
}

/// Whether a byte is a digit.
pub fn is_digit(byte: u8) -> bool
    ensures { result ≡ spec.is_digit byte }
{
    b'0' <= byte && byte <= b'9'
}

/// Whether all bytes are digits.
pub fn are_digits(text: &[u8]) -> bool
    ensures { result ≡ list_all spec.is_digit text.now }
{
    text.iter().all(|byte| is_digit(*byte))
}

/// Whether a byte is ASCII punctuation: printed, and no letter, digit or space.
pub fn is_punctuation(byte: u8) -> bool
    ensures { result ≡ spec.is_punctuation byte }
{
    matches!(byte, 33..=47 | 58..=64 | 91..=96 | 123..=126)
}

/// Whether the text begins with this byte.
pub fn begins(text: &[u8], byte: u8) -> bool
    ensures { result ≡ spec.begins text.now byte }
{
    match text {
        [] => false,
        [first, ..] => *first == byte,
    }
}

/// The text after so many bytes, or nothing.
#[tactic(auto, using(std::proofs::lemmas::List::drop_all))]
pub fn past(text: &[u8], count: usize) -> &[u8]
    ensures { result.now ≡ drop count text.now }
{
    if count <= text.len() {
        &text[count..]
    } else {
        &[]
    }
}

/// What follows the byte at a place, or nothing.
#[tactic(auto, using(std::proofs::lemmas::List::drop_all))]
pub fn behind(text: &[u8], at: usize) -> &[u8]
    ensures { result.now ≡ drop (at + 1) text.now }
{
    if at < text.len() {
        &text[at + 1..]
    } else {
        &[]
    }
}
