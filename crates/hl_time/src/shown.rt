//! Days and columns as they are printed.
ghost use Rattle.std.specs.Prelude.{◌≡◌, ◌+◌, ◌<◌, ◌≤◌, ◌++◌, OnOk, IfOk};
ghost use Rattle.std.specs.String.{string_bytes};
ghost use Rattle.hl_time.specs.Calendar.{IsDay, day_end};
ghost use Rattle.hl_time.specs.Shown as spec;

use crate::day::{Day, civil_of};
use crate::spans::{Span, Unit};
use crate::units::{DAY_END, begins, unit_of};
use hl_base::{Memory, Text};
use std::alloc::Global;

fn tens(number: u8) -> u8
    requires { number < 100 }
    ensures digit { result ≡ spec.tens number }
    ensures ascii { result < 58 }
{
    b'0' + number / 10
}

fn ones(number: u8) -> u8
    ensures digit { result ≡ spec.ones number }
    ensures ascii { result < 58 }
{
    b'0' + number % 10
}

/// A day as `Y-MM-DD`, in ASCII.
#[tactic(auto, unfolding(crate::specs::Shown::day_text))]
pub fn print_day(day: Day) -> [u8; 10]
    requires { IsDay day.0 }
    ensures { result ≡ spec.day_text day.0 }
{
    let date = civil_of(day);
    let century = (date.year / 100) as u8;
    let year = (date.year % 100) as u8;
    [
        tens(century),
        ones(century),
        tens(year),
        ones(year),
        b'-',
        tens(date.month),
        ones(date.month),
        b'-',
        tens(date.day),
        ones(date.day),
    ]
}

/// Appends a day as `Y-MM-DD`, for a number that is no day of the calendar its first or its last one.
pub fn push_calendar_day(out: &mut Vec<u8>, day: Day) -> Result<(), Memory>
    ensures { OnOk result (out.new.items ≡ out.old.items ++ spec.calendar_text day.0) }
{
    let shown = print_day(Day(day.0.min(DAY_END - 1).max(1)));
    out.extend_from_slice(&shown)?;
    Ok(())
}

fn push_two(text: &mut String, number: u8) -> Result<(), Memory>
    requires { number < 100 }
    ensures { OnOk result (string_bytes text.new ≡ string_bytes text.old
        ++ spec.two_digits number) }
{
    text.push(char::from(tens(number)))?;
    text.push(char::from(ones(number)))?;
    Ok(())
}

fn push_year(text: &mut String, year: u16) -> Result<(), Memory>
    requires { year < 10000 }
    ensures { OnOk result (string_bytes text.new ≡ string_bytes text.old ++ spec.four_digits year) }
{
    push_two(text, (year / 100) as u8)?;
    push_two(text, (year % 100) as u8)
}

#[tactic(auto, unfolding(crate::specs::Shown::day_text))]
fn push_day(text: &mut String, day: Day) -> Result<(), Memory>
    requires { IsDay day.0 }
    ensures { OnOk result (string_bytes text.new ≡ string_bytes text.old ++ spec.day_text day.0) }
{
    let date = civil_of(day);
    push_year(text, date.year)?;
    text.push('-')?;
    push_two(text, date.month)?;
    text.push('-')?;
    push_two(text, date.day)
}

#[tactic(auto, unfolding(crate::specs::Shown::is_unit))]
fn is_unit(unit: Unit, first: Day, end: u32) -> bool
    requires { IsDay first.0 }
    ensures { result ≡ spec.is_unit unit first.0 end }
{
    let index = unit_of(unit, first);
    first.0 == begins(unit, index) && end == begins(unit, index + 1)
}

/// Appends the name of the days from the first up to the end.
#[tactic(auto, unfolding(crate::specs::Shown::days_text))]
fn push_days(text: &mut String, first: Day, end: u32) -> Result<(), Memory>
    requires first { IsDay first.0 }
    requires some { first.0 < end }
    requires last { end ≤ day_end }
    ensures { OnOk result (string_bytes text.new ≡ string_bytes text.old
        ++ spec.days_text first.0 end) }
{
    let date = civil_of(first);
    if is_unit(Unit::Year, first, end) {
        return push_year(text, date.year);
    }
    if is_unit(Unit::Quarter, first, end) {
        push_year(text, date.year)?;
        text.push('Q')?;
        text.push(char::from(b'1' + (date.month - 1) / 3))?;
        return Ok(());
    }
    if is_unit(Unit::Month, first, end) {
        push_year(text, date.year)?;
        text.push('-')?;
        return push_two(text, date.month);
    }
    push_day(text, first)?;
    if end == first.0 + 1 {
        return Ok(());
    }
    text.push('.')?;
    text.push('.')?;
    push_day(text, Day(end - 1))
}

/// The head of a column: `Y`, `YQn`, `Y-MM` or `Y-MM-DD` where the span is exactly that year, quarter, month or day, else
/// its first and its last day as `A..B`. In a span without days the first day stands for the last too.
pub fn column_name(alloc: Global, span: Span) -> Result<Text, Memory>
    requires first { 1 ≤ span.from }
    requires last { span.end ≤ day_end }
    ensures { IfOk result (λ name. name ≡ spec.column_text span) }
{
    let from = span.from.min(DAY_END - 1);
    let end = span.end.max(from + 1);
    let mut text = String::new(alloc);
    push_days(&mut text, Day(from), end)?;
    Ok(Text::from_string(text))
}
