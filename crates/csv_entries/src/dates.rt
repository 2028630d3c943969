//! The day of a record.
ghost use Rattle.std.specs.Prelude.{◌≡◌, ◌<◌, true, [], take, slice_index, option_map, Some, IfSome};
ghost use Rattle.hl_time.specs.Date as dates;
ghost use Rattle.csv_entries.specs.Dates as spec;

use csv_rules::DatePart;
use csv_rules::words::is_same_word;
use hl_base::List;
use hl_base::ascii::past;
use hl_time::{Day, day_of, read_date};

/// A year, a month and a day, each where it has been read.
#[derive(Clone, Copy)]
pub struct Parts {
    pub year: Option<u16>,
    pub month: Option<u8>,
    pub day: Option<u8>,
}

/// The byte at a place, 0 past the text's end.
fn byte_at(text: &[u8], at: usize) -> u8
    ensures { result ≡ slice_index text.now at }
{
    if at < text.len() { text[at] } else { 0 }
}

/// Whether a digit stands at a place.
fn is_digit_at(text: &[u8], at: usize) -> bool
    ensures { result ≡ dates.is_digit_at text.now at }
{
    byte_at(text, at).is_ascii_digit()
}

/// The digit at a place, 0 where none stands there.
fn digit_at(text: &[u8], at: usize) -> u16
    ensures value { dates.is_digit_at text.now at ≡ true → result ≡ dates.digit_at text.now at }
    ensures small { result < 10 }
{
    let byte = byte_at(text, at);
    if byte.is_ascii_digit() {
        u16::from(byte - b'0')
    } else {
        0
    }
}

/// So many bytes of a text, or all of it.
#[tactic(auto, using(std::proofs::lemmas::List::take_all))]
fn front(text: &[u8], count: usize) -> &[u8]
    ensures { result.now ≡ take count text.now }
{
    if count <= text.len() {
        &text[..count]
    } else {
        text
    }
}

/// The number of four digits at the front of a text, and what follows them.
fn four_digits(text: &[u8]) -> Option<(u16, &[u8])>
    ensures { option_map (λ x. (x.0, x.1.now)) result ≡ spec.four_digits text.now }
{
    if is_digit_at(text, 0)
        && is_digit_at(text, 1)
        && is_digit_at(text, 2)
        && is_digit_at(text, 3)
    {
        let value = 1000 * digit_at(text, 0)
            + 100 * digit_at(text, 1)
            + 10 * digit_at(text, 2)
            + digit_at(text, 3);
        Some((value, past(text, 4)))
    } else {
        None
    }
}

/// The number of two digits at the front of a text, and what follows them.
fn two_digits(text: &[u8]) -> Option<(u8, &[u8])>
    ensures value { option_map (λ x. (x.0, x.1.now)) result ≡ spec.two_digits text.now }
    ensures small { IfSome result (λ x. x.0 < 100) }
{
    if is_digit_at(text, 0) && is_digit_at(text, 1) {
        let value = 10 * digit_at(text, 0) + digit_at(text, 1);
        Some((value as u8, past(text, 2)))
    } else {
        None
    }
}

/// The number of a digit at the front of a text, and what follows it.
fn one_digit(text: &[u8]) -> Option<(u8, &[u8])>
    ensures { option_map (λ x. (x.0, x.1.now)) result ≡ spec.one_digit text.now }
{
    if is_digit_at(text, 0) {
        Some((digit_at(text, 0) as u8, past(text, 1)))
    } else {
        None
    }
}

/// The number of one or two digits at the front of a text, and what follows them.
fn one_or_two(text: &[u8]) -> Option<(u8, &[u8])>
    ensures { option_map (λ x. (x.0, x.1.now)) result ≡ spec.one_or_two text.now }
{
    if is_digit_at(text, 1) {
        two_digits(text)
    } else {
        one_digit(text)
    }
}

/// The year of two digits.
fn century(value: u8) -> u16
    requires { value < 100 }
    ensures { result ≡ spec.century value }
{
    if 69 <= value {
        1900 + u16::from(value)
    } else {
        2000 + u16::from(value)
    }
}

#[tactic(auto, unfolding(crate::specs::Dates::late_month))]
fn late_month(text: &[u8]) -> Option<u8>
    ensures { result ≡ spec.late_month text.now }
{
    if is_same_word(text, b"jul") {
        Some(7)
    } else if is_same_word(text, b"aug") {
        Some(8)
    } else if is_same_word(text, b"sep") {
        Some(9)
    } else if is_same_word(text, b"oct") {
        Some(10)
    } else if is_same_word(text, b"nov") {
        Some(11)
    } else if is_same_word(text, b"dec") {
        Some(12)
    } else {
        None
    }
}

/// The number of the month that three letters begin, in any case.
#[tactic(auto, unfolding(crate::specs::Dates::month_of))]
fn month_of(text: &[u8]) -> Option<u8>
    ensures { result ≡ spec.month_of text.now }
{
    if is_same_word(text, b"jan") {
        Some(1)
    } else if is_same_word(text, b"feb") {
        Some(2)
    } else if is_same_word(text, b"mar") {
        Some(3)
    } else if is_same_word(text, b"apr") {
        Some(4)
    } else if is_same_word(text, b"may") {
        Some(5)
    } else if is_same_word(text, b"jun") {
        Some(6)
    } else {
        late_month(text)
    }
}

impl Parts {
    fn with_year(self, year: u16) -> Parts
        ensures { result ≡ record self { year = Some year } }
    {
        Parts {
            year: Some(year),
            month: self.month,
            day: self.day,
        }
    }

    fn with_month(self, month: u8) -> Parts
        ensures { result ≡ record self { month = Some month } }
    {
        Parts {
            year: self.year,
            month: Some(month),
            day: self.day,
        }
    }

    fn with_day(self, day: u8) -> Parts
        ensures { result ≡ record self { day = Some day } }
    {
        Parts {
            year: self.year,
            month: self.month,
            day: Some(day),
        }
    }
}

/// What follows a byte that the text goes on with.
fn past_byte(byte: u8, parts: Parts, text: &[u8]) -> Option<(Parts, &[u8])>
    ensures { option_map (λ x. (x.0, x.1.now)) result ≡ spec.past_byte byte parts text.now }
{
    match text {
        [] => None,
        [first, rest @ ..] => {
            if *first == byte {
                Some((parts, rest))
            } else {
                None
            }
        }
    }
}

/// One part of a date at the front of a text, and what follows it.
fn read_part(part: DatePart, parts: Parts, text: &[u8]) -> Option<(Parts, &[u8])>
    ensures { option_map (λ x. (x.0, x.1.now)) result ≡ spec.part_at part parts text.now }
{
    match part {
        DatePart::Year => {
            let (year, rest) = four_digits(text)?;
            Some((parts.with_year(year), rest))
        }
        DatePart::ShortYear => {
            let (year, rest) = two_digits(text)?;
            Some((parts.with_year(century(year)), rest))
        }
        DatePart::Month => {
            let (month, rest) = one_or_two(text)?;
            Some((parts.with_month(month), rest))
        }
        DatePart::MonthName => {
            let month = month_of(front(text, 3))?;
            Some((parts.with_month(month), past(text, 3)))
        }
        DatePart::Day => {
            let (day, rest) = one_or_two(text)?;
            Some((parts.with_day(day), rest))
        }
        DatePart::Byte(byte) => past_byte(byte, parts, text),
    }
}

/// The parts of a date, where nothing follows them.
fn at_end(parts: Parts, rest: &[u8]) -> Option<Parts>
    ensures { result ≡ spec.parts_of [] parts rest.now }
{
    match rest {
        [] => Some(parts),
        [_, ..] => None,
    }
}

/// The parts of a date that are the whole of a text.
#[tactic(auto, using(crate::proofs::DateParts::one_more, crate::proofs::DateParts::no_part, crate::proofs::DateParts::all_read))]
pub fn read_parts(format: &[DatePart], text: &[u8]) -> Option<Parts>
    ensures { result ≡ spec.parts_of format.now spec.no_parts text.now }
{
    let mut parts = Parts {
        year: None,
        month: None,
        day: None,
    };
    let mut rest = text;
    for part in format {
        match read_part(*part, parts, rest) {
            Some((more, behind)) => {
                parts = more;
                rest = behind;
            }
            None => return None,
        }
    }
    at_end(parts, rest)
}

/// The day of a year, a month and a day, where all three are there.
fn day_with_all(year: Option<u16>, month: Option<u8>, day: Option<u8>) -> Option<Day>
    ensures { option_map (λ d. d.0) result ≡ spec.day_with_all year month day }
{
    match (year, month, day) {
        (Some(year), Some(month), Some(day)) => day_of(year, month, day),
        _ => None,
    }
}

/// The day that a text writes: as the format says, else as journals write it, with its year.
pub(crate) fn read_day(format: &Option<List<DatePart>>, text: &[u8]) -> Option<Day>
    ensures { option_map (λ d. d.0) result ≡ spec.day_of format.now text.now }
{
    match format {
        Some(format) => {
            let parts = read_parts(format.as_slice(), text)?;
            day_with_all(parts.year, parts.month, parts.day)
        }
        None => match read_date(text, None) {
            Ok(day) => Some(day),
            Err(_) => None,
        },
    }
}
