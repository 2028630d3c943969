//! How dates are written.
ghost use Rattle.std.specs.Prelude.{◌≡◌, IfOk};
ghost use Rattle.csv_rules.specs.Formats as spec;

use crate::kinds::DatePart;
use hl_base::{List, Memory};
use std::alloc::Global;

/// What the byte before says of the next one.
#[derive(Clone, Copy)]
pub(crate) enum Before {
    /// Nothing.
    Nothing,
    /// It was a `%`.
    Percent,
    /// It was the `-` of `%-`.
    Dash,
}

/// The part that a letter behind `%` stands for.
fn part_named(byte: u8) -> Option<DatePart>
    ensures { result ≡ spec.part_named byte }
{
    if byte == b'Y' {
        Some(DatePart::Year)
    } else if byte == b'y' {
        Some(DatePart::ShortYear)
    } else if byte == b'm' {
        Some(DatePart::Month)
    } else if byte == b'b' {
        Some(DatePart::MonthName)
    } else if byte == b'd' {
        Some(DatePart::Day)
    } else if byte == b'%' {
        Some(DatePart::Byte(byte))
    } else {
        None
    }
}

/// The part that a letter behind `%-` stands for.
fn short_part(byte: u8) -> Option<DatePart>
    ensures { result ≡ spec.short_part byte }
{
    if byte == b'm' {
        Some(DatePart::Month)
    } else if byte == b'd' {
        Some(DatePart::Day)
    } else {
        None
    }
}

/// What a byte says behind others: that more is to come, a part, or nothing that is known.
fn next_part(before: Before, byte: u8) -> Next
    ensures { result ≡ spec.next_part before byte }
{
    match before {
        Before::Nothing => {
            if byte == b'%' {
                Next::More(Before::Percent)
            } else {
                Next::Part(DatePart::Byte(byte))
            }
        }
        Before::Percent => {
            if byte == b'-' {
                Next::More(Before::Dash)
            } else {
                known(part_named(byte))
            }
        }
        Before::Dash => known(short_part(byte)),
    }
}

/// What a byte of a format says.
#[derive(Clone, Copy)]
pub(crate) enum Next {
    /// More is to come.
    More(Before),
    Part(DatePart),
    /// Nothing that is known.
    Unknown,
}

fn known(part: Option<DatePart>) -> Next
    ensures { result ≡ spec.known part }
{
    match part {
        Some(part) => Next::Part(part),
        None => Next::Unknown,
    }
}

fn is_done(before: Before) -> bool
    ensures { result ≡ spec.is_done before }
{
    match before {
        Before::Nothing => true,
        Before::Percent | Before::Dash => false,
    }
}

/// The parts of a date that a format says, if it says no other.
#[tactic(auto, using(crate::proofs::FormatLaws::one_more, crate::proofs::FormatLaws::goes_on, crate::proofs::FormatLaws::stops, crate::proofs::FormatLaws::all_done))]
pub(crate) fn read_format(alloc: Global, text: &[u8]) -> Result<Option<List<DatePart>>, Memory>
    ensures { IfOk result (λ parts. parts ≡ spec.format_of text.now) }
{
    let mut parts = Vec::new(alloc);
    let mut before = Before::Nothing;
    for byte in text {
        match next_part(before, *byte) {
            Next::More(next) => before = next,
            Next::Part(part) => {
                parts.push(part)?;
                before = Before::Nothing;
            }
            Next::Unknown => return Ok(None),
        }
    }
    if is_done(before) {
        Ok(Some(List::from_vec(parts)))
    } else {
        Ok(None)
    }
}
