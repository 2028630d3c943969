//! The numbers that people write.
ghost use Rattle.std.specs.Prelude.{◌≡◌, ◌+◌, ◌*◌, ◌^◌, ◌<◌, ◌≤◌, ◌==◌, IsTrue, length, take, drop, reverse, min, nat_lt, if◌then◌else◌, not, true, IfSome, IfNone, ◌||◌, ◌&&◌, Some, unwrap_or};
ghost use Rattle.std.specs.List.{list_all, list_any, count_by, find, prefix_len};
ghost use Rattle.std.specs.Str.Parse.{digits_value};
ghost use Rattle.hl_num.specs.Groups.{IsSummary};
ghost use Rattle.hl_num.specs.Reading.{is_digit, is_mark, other_mark, decimal_mark, undecided_mark, kept_mark, is_number_byte, whole_len, group_sizes, are_groups, first_size, rest_size, mantissa_of, value_with, is_written, number_of, number_with, number_end, reading, most, begins_number};

use crate::decimal::Dec;
use hl_base::{are_digits, is_digit};

/// A number with what was written of its form: the decimal mark, the group mark, and the sizes of the rightmost
/// group and of those left of it, at most 255 and three where there are no groups.
#[derive(Clone, Copy, Debug, PartialEq, Eq)]
pub struct Number {
    pub value: Dec,
    pub mark: Option<u8>,
    pub group: Option<u8>,
    pub first: u8,
    pub rest: u8,
}

/// A text that is no number. `at` is where its digits and marks end.
#[derive(Clone, Copy, Debug, PartialEq, Eq)]
pub struct BadNumber {
    pub at: u64,
}

/// Whether a byte is one of the marks.
fn is_mark(byte: u8) -> bool
    ensures { result ≡ is_mark byte }
{
    byte == b'.' || byte == b','
}

/// Whether a byte is a digit or a mark.
fn is_number_byte(byte: u8) -> bool
    ensures { result ≡ is_number_byte byte }
{
    is_digit(byte) || is_mark(byte)
}

/// The place of the first byte that is neither a digit nor a mark, or the length.
fn number_end(text: &[u8]) -> usize
    ensures { result ≡ number_end text.now }
{
    for (i, byte) in text.iter().enumerate() {
        if !is_number_byte(*byte) {
            return i;
        }
    }
    text.len()
}

/// The decimal mark that stands in the text.
fn decimal_mark(text: &[u8], decided: Option<u8>) -> Option<u8>
    ensures { result ≡ decimal_mark text.now decided }
{
    match decided {
        Some(mark) => {
            if has_byte(text, mark) {
                Some(mark)
            } else {
                None
            }
        }
        None => kept_mark(text, last_mark(text)),
    }
}

/// Whether a byte stands in the text.
fn has_byte(text: &[u8], byte: u8) -> bool
    ensures { result ≡ list_any (λ b. b == byte) text.now }
{
    text.iter().any(|b| *b == byte)
}

/// How many times a byte stands in the text.
fn count_of(text: &[u8], byte: u8) -> usize
    ensures { result ≡ count_by (λ b. b == byte) text.now }
{
    text.iter().filter(|b| **b == byte).count()
}

/// Whether the last mark is the decimal mark.
fn is_kept(text: &[u8], mark: u8) -> bool
    ensures { result ≡ (list_any (λ b.
        b == other_mark mark) text.now || nat_lt (count_by (λ b. b == mark) text.now) 2) }
{
    has_byte(text, other_mark(mark)) || count_of(text, mark) < 2
}

/// The last mark, where it is the decimal mark.
fn kept_mark(text: &[u8], last: Option<u8>) -> Option<u8>
    ensures { result ≡ kept_mark text.now last }
{
    match last {
        Some(mark) => {
            if is_kept(text, mark) {
                Some(mark)
            } else {
                None
            }
        }
        None => None,
    }
}

/// The last mark.
fn last_mark(text: &[u8]) -> Option<u8>
    ensures { result ≡ find is_mark (reverse text.now) }
{
    let mut last = None;
    for byte in text {
        if is_mark(*byte) {
            last = Some(*byte);
        }
    }
    last
}

/// The first mark.
fn first_mark(text: &[u8]) -> Option<u8>
    ensures { result ≡ find is_mark text.now }
{
    for byte in text {
        if is_mark(*byte) {
            return Some(*byte);
        }
    }
    None
}

fn other_mark(mark: u8) -> u8
    ensures { result ≡ other_mark mark }
{
    if mark == b'.' { b',' } else { b'.' }
}

/// How many bytes stand before the decimal mark.
fn whole_len(text: &[u8], mark: Option<u8>) -> usize
    ensures len { result ≡ whole_len text.now mark }
    ensures bound { result ≤ length text.now }
{
    match mark {
        None => text.len(),
        Some(mark) => place_of(text, mark),
    }
}

/// The place of the first such byte, or the length.
fn place_of(text: &[u8], byte: u8) -> usize
    ensures place { result ≡ prefix_len (λ b. not (b == byte)) text.now }
    ensures bound { result ≤ length text.now }
{
    for (i, b) in text.iter().enumerate() {
        if *b == byte {
            return i;
        }
    }
    text.len()
}

/// The value of the digits, where it stays below 2^127.
fn mantissa(text: &[u8]) -> Option<u128>
    ensures { result ≡ (if nat_lt (mantissa_of text.now) (2 ^ 127) then Some (mantissa_of text.now)
        else None) }
{
    let mut value: u128 = 0;
    for byte in text {
        value = with_byte(value, *byte)?;
    }
    Some(value)
}

/// The value after one more byte, where it stays below 2^127.
fn with_byte(value: u128, byte: u8) -> Option<u128>
    requires { value < 2 ^ 127 }
    ensures value { IfSome result (λ more. more ≡ value_with value byte) }
    ensures small { IfSome result (λ more. more < 2 ^ 127) }
    ensures large { IfNone result (2 ^ 127 ≤ value_with value byte) }
{
    if !is_digit(byte) {
        return Some(value);
    }
    let more = value.checked_mul(10)?.checked_add(u128::from(byte - b'0'))?;
    if more <= i128::MAX as u128 {
        Some(more)
    } else {
        None
    }
}

/// What a run of bytes shows of its groups: how many marks stand in it, how many digits after the last one and
/// between the last two, and whether each group but the last has digits.
#[derive(Clone, Copy)]
struct Groups {
    marks: usize,
    last: usize,
    previous: usize,
    are_full: bool,
}

/// The groups of the bytes left of the decimal mark.
fn groups_of(whole: &[u8]) -> Groups
    ensures { IsSummary (group_sizes whole.now) result.marks result.last result.previous
        result.are_full }
{
    let mut groups = Groups {
        marks: 0,
        last: 0,
        previous: 0,
        are_full: true,
    };
    for byte in whole {
        if is_mark(*byte) {
            groups = Groups {
                marks: groups.marks + 1,
                last: 0,
                previous: groups.last,
                are_full: 0 < groups.last && groups.are_full,
            };
        } else {
            groups.last += 1;
        }
    }
    groups
}

/// Whether each group mark has digits on both sides.
fn are_groups(whole: &[u8]) -> bool
    ensures { result ≡ are_groups (group_sizes whole.now) }
{
    let groups = groups_of(whole);
    groups.marks == 0 || (0 < groups.last && groups.are_full)
}

/// The size of the rightmost group.
fn first_size(whole: &[u8]) -> u8
    ensures { result ≡ first_size (group_sizes whole.now) }
{
    let groups = groups_of(whole);
    if groups.marks == 0 {
        3
    } else {
        groups.last.min(255) as u8
    }
}

/// The size of the groups left of it.
fn rest_size(whole: &[u8]) -> u8
    ensures { result ≡ rest_size (group_sizes whole.now) }
{
    let groups = groups_of(whole);
    if groups.marks < 2 {
        first_size(whole)
    } else {
        groups.previous.min(255) as u8
    }
}

/// The number that the text is, with the decimal mark that stands in it.
fn number_with(text: &[u8], mark: Option<u8>) -> Option<Number>
    ensures { result ≡ number_with text.now mark }
{
    let end = whole_len(text, mark);
    let whole = &text[..end];
    let decimals = after(text, end);
    if !is_written(text, whole, decimals) {
        return None;
    }
    let mantissa = mantissa(text)? as i128;
    let places = decimals.len() as u8;
    Some(Number {
        value: Dec { mantissa, places },
        mark,
        group: first_mark(whole),
        first: first_size(whole),
        rest: rest_size(whole),
    })
}

/// The bytes right of a place.
fn after(text: &[u8], place: usize) -> &[u8]
    ensures { result.now ≡ drop (place + 1) text.now }
{
    if place < text.len() {
        &text[place + 1..]
    } else {
        &[]
    }
}

/// Whether a text is written as a number, with these bytes left and right of its decimal mark.
fn is_written(text: &[u8], whole: &[u8], decimals: &[u8]) -> bool
    ensures few { IsTrue result → length decimals.now ≤ 18 }
    ensures written { result ≡ is_written text.now whole.now decimals.now }
{
    if !are_number_bytes(text) || !has_digit(text) {
        return false;
    }
    if !are_digits(decimals) || 18 < decimals.len() {
        return false;
    }
    are_groups(whole)
}

/// Whether all bytes are digits and marks.
fn are_number_bytes(text: &[u8]) -> bool
    ensures { result ≡ list_all is_number_byte text.now }
{
    text.iter().all(|byte| is_number_byte(*byte))
}

/// Whether a digit is among the bytes.
fn has_digit(text: &[u8]) -> bool
    ensures { result ≡ list_any is_digit text.now }
{
    text.iter().any(|byte| is_digit(*byte))
}

/// The number that the whole text is. `mark` is the decimal mark that was decided, where one was.
///
/// At least one digit stands in it. A decided mark stands at most once. Where none is decided, one mark in all is the
/// decimal mark; one kind of mark more than once groups; of two kinds the last one is the decimal mark and stands
/// once. The other mark groups the digits before it, with digits on both sides. At most 18 decimals, and the digits
/// without the marks are below 2^127.
pub fn read_number(text: &[u8], mark: Option<u8>) -> Result<Number, BadNumber>
    ensures { result ≡ reading text.now mark }
{
    match plain_number(text, mark) {
        Some(number) => Ok(number),
        None => read_any(text, mark),
    }
}

/// The number that the whole text is, whatever marks stand in it.
fn read_any(text: &[u8], mark: Option<u8>) -> Result<Number, BadNumber>
    ensures { result ≡ reading text.now mark }
{
    match number_with(text, decimal_mark(text, mark)) {
        Some(number) => Ok(number),
        None => Err(BadNumber {
            at: number_end(text) as u64,
        }),
    }
}

/// The number that digits with one mark between them are, where the digits are few: as most amounts are written.
fn plain_number(text: &[u8], decided: Option<u8>) -> Option<Number>
    ensures { IfSome result (λ number. number_of text.now decided ≡ Some number) }
{
    let end = digits_end(text);
    if text.len() <= end || text.len() < 2 {
        return None;
    }
    let mark = text[end];
    let decimals = &text[end + 1..];
    if !is_own_mark(mark, decided) || !are_few_digits(decimals) {
        return None;
    }
    let digits = small_mantissa(text)?;
    Some(Number {
        value: Dec {
            mantissa: i128::from(digits),
            places: decimals.len() as u8,
        },
        mark: Some(mark),
        group: None,
        first: 3,
        rest: 3,
    })
}

/// The place of the first byte that is no digit, or the length.
fn digits_end(text: &[u8]) -> usize
    ensures { result ≡ prefix_len is_digit text.now }
{
    for (i, byte) in text.iter().enumerate() {
        if !is_digit(*byte) {
            return i;
        }
    }
    text.len()
}

/// Whether the only mark of a text is its decimal mark.
fn is_own_mark(mark: u8, decided: Option<u8>) -> bool
    ensures { result ≡ (is_mark mark && unwrap_or decided mark == mark) }
{
    is_mark(mark) && decided.unwrap_or(mark) == mark
}

/// Whether some bytes are digits, and at most 18.
fn are_few_digits(bytes: &[u8]) -> bool
    ensures few { IsTrue result → length bytes.now ≤ 18 }
    ensures digits { IsTrue result → IsTrue (list_all is_digit bytes.now) }
{
    bytes.len() <= 18 && are_digits(bytes)
}

/// What no digits may reach before the last one, so that their value fits 64 bits.
const FEW: u64 = 1_000_000_000_000_000_000;

/// The value of the digits, where they are few.
fn small_mantissa(text: &[u8]) -> Option<u64>
    ensures { IfSome result (λ value. value ≡ mantissa_of text.now) }
{
    let mut value: u64 = 0;
    for byte in text {
        value = with_digit(value, *byte)?;
    }
    Some(value)
}

/// The value after one more byte, where it was small.
fn with_digit(value: u64, byte: u8) -> Option<u64>
    ensures { IfSome result (λ more. more ≡ value_with value byte) }
{
    if !is_digit(byte) {
        return Some(value);
    }
    if FEW <= value {
        return None;
    }
    Some(value * 10 + u64::from(byte - b'0'))
}

/// The number of some digits, or the greatest that is told.
pub fn digits_number(text: &[u8]) -> u64
    requires { list_all is_digit text.now ≡ true }
    ensures { result ≡ min (digits_value 10 text.now) most }
{
    let mut value: u64 = 0;
    for byte in text {
        value = value
            .saturating_mul(10)
            .saturating_add(u64::from(*byte - b'0'));
    }
    value
}

/// Whether a number from 1 may begin so: not with a zero.
pub fn begins_number(text: &[u8]) -> bool
    ensures { result ≡ begins_number text.now }
{
    match text.first() {
        Some(byte) => *byte != b'0',
        None => false,
    }
}
