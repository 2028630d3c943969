//! Reading written dates.
ghost use Rattle.std.specs.Prelude.{◌≡◌, ◌+◌, ◌≤◌, ◌<◌, ◌*◌, ◌==◌, slice_index, if◌then◌else◌, IfOk};
ghost use Rattle.hl_time.specs.Calendar.{IsDay};
ghost use Rattle.hl_time.specs.Date as spec;
ghost use Rattle.hl_time.specs.declared.fault.TimeFault.TheVariants.{BadDate};

use crate::day::{Day, day_of};
use crate::fault::TimeFault;

/// One or two digits of a month or a day: how many, and what they write.
#[derive(Clone, Copy)]
pub(crate) struct Part {
    pub(crate) length: usize,
    pub(crate) value: u8,
}

/// The byte at a place, 0 past the text's end.
pub(crate) fn byte_at(text: &[u8], at: usize) -> u8
    ensures { result ≡ slice_index text.now at }
{
    if at < text.len() { text[at] } else { 0 }
}

/// What the digit at a place counts, if one stands there.
pub(crate) fn digit_at(text: &[u8], at: usize) -> Option<u8>
    ensures { result ≡ (if spec.is_digit_at text.now at then Some (spec.digit_at text.now at) else
        None) }
{
    let byte = byte_at(text, at);
    if byte.is_ascii_digit() {
        Some(byte - b'0')
    } else {
        None
    }
}

#[tactic(auto, unfolding(crate::specs::Date::part_length, crate::specs::Date::part_value))]
pub(crate) fn read_part(text: &[u8], at: usize) -> Part
    requires { at ≤ 16 }
    ensures short { result.length ≤ 2 }
    ensures length { result.length ≡ spec.part_length text.now at }
    ensures value { 0 < result.length → result.value ≡ spec.part_value text.now at }
    ensures below { result.value < 100 }
{
    let Some(first) = digit_at(text, at) else {
        return Part {
            length: 0,
            value: 0,
        };
    };
    match digit_at(text, at + 1) {
        Some(second) => Part {
            length: 2,
            value: 10 * first + second,
        },
        None => Part {
            length: 1,
            value: first,
        },
    }
}

/// The day of a year, a month and a day of the month, or the place of the part that the calendar hasn't.
#[tactic(auto, unfolding(crate::specs::Date::calendar_day))]
fn calendar_day(
    year: u16,
    month: u8,
    day: u8,
    month_at: usize,
    day_at: usize,
) -> Result<Day, TimeFault>
    ensures answer { result ≡ spec.day_answer (spec.calendar_day year month day month_at day_at) }
    ensures range { IfOk result (λ found. IsDay found.0) }
{
    if let Some(found) = day_of(year, month, day) {
        return Ok(found);
    }
    if year < 1 || year > 9999 {
        return Err(bad_date(0));
    }
    if month < 1 || month > 12 {
        return Err(bad_date(month_at));
    }
    Err(bad_date(day_at))
}

fn bad_date(at: usize) -> TimeFault
    ensures { result ≡ BadDate at }
{
    TimeFault::BadDate { at: at as u64 }
}

/// Month and day up to the text's end.
#[tactic(auto, unfolding(crate::specs::Date::month_day))]
fn month_day(text: &[u8], at: usize, separator: u8, year: u16) -> Result<Day, TimeFault>
    requires { at ≤ 5 }
    ensures answer { result ≡ spec.day_answer (spec.month_day text.now at separator year) }
    ensures range { IfOk result (λ found. IsDay found.0) }
{
    let month = read_part(text, at);
    if month.length == 0 {
        return Err(bad_date(at));
    }
    let month_end = at + month.length;
    if byte_at(text, month_end) != separator {
        return Err(bad_date(month_end));
    }
    let day_at = month_end + 1;
    let day = read_part(text, day_at);
    if day.length == 0 {
        return Err(bad_date(day_at));
    }
    let day_end = day_at + day.length;
    if day_end != text.len() {
        return Err(bad_date(day_end));
    }
    calendar_day(year, month.value, day.value, at, day_at)
}

pub(crate) fn is_separator(byte: u8) -> bool
    ensures { result ≡ spec.is_separator byte }
{
    byte == b'-' || byte == b'.' || byte == b'/'
}

/// The year that four digits write, or the place of the first that is none.
#[tactic(auto, unfolding(crate::specs::Date::year_digits, crate::specs::Date::year_value))]
pub(crate) fn read_year(text: &[u8]) -> Result<u16, usize>
    ensures { result ≡ (if spec.year_digits text.now == 4 then Ok (spec.year_value text.now) else
        Err (spec.year_digits text.now)) }
{
    let Some(thousands) = digit_at(text, 0) else {
        return Err(0)
    };
    let Some(hundreds) = digit_at(text, 1) else {
        return Err(1)
    };
    let Some(tens) = digit_at(text, 2) else {
        return Err(2)
    };
    let Some(ones) = digit_at(text, 3) else {
        return Err(3)
    };
    Ok(
        1000 * u16::from(thousands)
            + 100 * u16::from(hundreds)
            + 10 * u16::from(tens)
            + u16::from(ones),
    )
}

/// A date with its year.
#[tactic(auto, unfolding(crate::specs::Date::full_date))]
fn full_date(text: &[u8]) -> Result<Day, TimeFault>
    ensures answer { result ≡ spec.day_answer (spec.full_date text.now) }
    ensures range { IfOk result (λ found. IsDay found.0) }
{
    match read_year(text) {
        Err(at) => Err(bad_date(at)),
        Ok(year) => {
            let separator = byte_at(text, 4);
            if is_separator(separator) {
                month_day(text, 5, separator, year)
            } else {
                Err(bad_date(4))
            }
        }
    }
}

/// The day that a text writes: `Y-M-D`, `Y/M/D` or `Y.M.D` with four digits of year and one or two of month and day,
/// or the same without the year where `year` gives it. A `BadDate` has the first place at which the text is no beginning
/// of a date, or, of a date that no calendar has, that of the month or the day, and 0 for the year.
#[tactic(auto, unfolding(crate::specs::Date::date_of))]
pub fn read_date(text: &[u8], year: Option<u16>) -> Result<Day, TimeFault>
    ensures answer { result ≡ spec.day_answer (spec.date_of text.now year) }
    ensures range { IfOk result (λ day. IsDay day.0) }
{
    if let Some(given) = year {
        let month = read_part(text, 0);
        let separator = byte_at(text, month.length);
        if is_separator(separator) {
            return month_day(text, 0, separator, given);
        }
    }
    full_date(text)
}
