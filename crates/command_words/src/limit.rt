//! Numbers as words write them, and the limit of a store.
ghost use Rattle.std.specs.Prelude.{◌≡◌, ◌≤◌, IfSome, codes};
ghost use Rattle.std.specs.Str.{bytes_eq};
ghost use Rattle.command_words.specs.Limits as spec;

use hl_base::are_digits;
use hl_num::digits_number;

/// The greatest limit of a store, in bytes.
pub(crate) const MOST_LIMIT: u64 = 1_099_511_627_776;

/// The greatest revision of a store.
const LAST_REVISION: u64 = 4_611_686_018_427_387_904;

/// A number from 1 to a greatest one.
fn number_within(greatest: u64, number: u64) -> Option<u64>
    ensures value { result ≡ spec.number_within greatest number }
    ensures bound { IfSome result (λ n. n ≤ greatest) }
{
    if 1 <= number && number <= greatest {
        Some(number)
    } else {
        None
    }
}

/// The number of a text of digits alone, from 1 to a greatest one.
fn digits_of(greatest: u64, text: &[u8]) -> Option<u64>
    ensures value { result ≡ spec.digits_in greatest text.now }
    ensures bound { IfSome result (λ n. n ≤ greatest) }
{
    if are_digits(text) {
        number_within(greatest, digits_number(text))
    } else {
        None
    }
}

fn begins_with_zero(text: &[u8]) -> bool
    ensures { result ≡ spec.begins_with_zero text.now }
{
    match text {
        [] => false,
        [byte, ..] => *byte == b'0',
    }
}

/// The number that a text writes: digits of which the first isn't 0, from 1 to a greatest one.
pub fn number_of(greatest: u64, text: &[u8]) -> Option<u64>
    ensures value { result ≡ spec.number_in greatest text.now }
    ensures bound { IfSome result (λ n. n ≤ greatest) }
{
    if begins_with_zero(text) {
        None
    } else {
        digits_of(greatest, text)
    }
}

/// The limit that a text writes: digits, from 1 to 2^40.
pub(crate) fn limit_of(text: &[u8]) -> Option<u64>
    ensures { result ≡ spec.limit_in text.now }
{
    number_of(MOST_LIMIT, text)
}

/// Whether a text is 0.
fn is_zero(text: &[u8]) -> bool
    ensures { result ≡ bytes_eq text.now (codes "0") }
{
    text == b"0".as_slice()
}

/// The revision that a text writes: 0, or a number up to 2^62.
pub(crate) fn base_of(text: &[u8]) -> Option<u64>
    ensures { result ≡ spec.base_in text.now }
{
    if is_zero(text) {
        Some(0)
    } else {
        number_of(LAST_REVISION, text)
    }
}
