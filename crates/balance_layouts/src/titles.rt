//! The heads of a table's columns, and its title.
ghost use Rattle.std.specs.Prelude.{◌≡◌, ◌<◌, ◌≤◌, ◌++◌, ◌∷◌, [], IfOk, OnOk, length, if◌then◌else◌};
ghost use Rattle.std.specs.String.{string_bytes};
ghost use Rattle.hl_time.specs.Calendar.{IsDay, day_end};
ghost use Rattle.hl_time.specs.Shown.{day_text};
ghost use Rattle.balance_layouts.specs.Titles.{first_of, head_text, heads_of, in_calendar, kind_text, last_of, span_text, title_of};

use balance_rows::{Basis, Layout};
use hl_base::{List, Memory, Text};
use hl_time::{DAY_END, Day, Span, column_name, print_day};
use std::alloc::Global;

/// The number of 9999-12-31, the last day.
const LAST_DAY: u32 = DAY_END - 1;

/// The days of a span that the calendar has.
fn in_calendar(span: Span) -> Span
    ensures days { result ≡ in_calendar span }
    ensures from { 1 ≤ result.from }
    ensures end { result.end ≤ day_end }
{
    Span {
        from: span.from.max(1),
        end: span.end.min(DAY_END),
    }
}

/// The first day of a span, from 0001-01-01 to 9999-12-31.
fn first_of(span: Span) -> Day
    ensures value { result.0 ≡ first_of span }
    ensures day { IsDay result.0 }
{
    Day(span.from.max(1).min(LAST_DAY))
}

/// The last day of a span; in one without days its first.
fn last_of(span: Span) -> Day
    ensures value { result.0 ≡ last_of span }
    ensures day { IsDay result.0 }
{
    let first = span.from.max(1).min(LAST_DAY);
    Day(span.end.min(DAY_END).max(first + 1) - 1)
}

/// Appends a day.
fn push_day(alloc: Global, text: &mut String, day: Day) -> Result<(), Memory>
    requires { IsDay day.0 }
    ensures { OnOk result (string_bytes text.new ≡ string_bytes text.old ++ day_text day.0) }
{
    text.push_str(day_name(alloc, day)?.as_str())?;
    Ok(())
}

/// A day as it is printed.
fn day_name(alloc: Global, day: Day) -> Result<Text, Memory>
    requires { IsDay day.0 }
    ensures { IfOk result (λ name. name ≡ day_text day.0) }
{
    let digits = print_day(day);
    match str::from_utf8(&digits) {
        Ok(name) => Text::copied(alloc, name),
        Err(_) => unreachable!(),
    }
}

/// The head of a column: its name, or for ending balances its last day.
fn head(alloc: Global, basis: Basis, column: Span) -> Result<Text, Memory>
    ensures { IfOk result (λ head. head ≡ head_text basis column) }
{
    match basis {
        Basis::Changes => column_name(alloc, in_calendar(column)),
        Basis::Cumulative => day_name(alloc, last_of(column)),
        Basis::Historical => day_name(alloc, last_of(column)),
    }
}

/// The heads of the columns, of their total and of their average, where these are asked for: a column's name, or for
/// ending balances its last day.
pub fn heads(alloc: Global, layout: &Layout, columns: &[Span]) -> Result<List<Text>, Memory>
    ensures { IfOk result (λ heads. heads ≡ heads_of layout.now columns.now) }
{
    let mut heads = Vec::new(alloc);
    for column in columns {
        heads.push(head(alloc, layout.basis, *column)?)?;
    }
    push_asked(alloc, &mut heads, layout.row_total, "Total")?;
    push_asked(alloc, &mut heads, layout.average, "Average")?;
    Ok(List::from_vec(heads))
}

/// Appends a head, where it is asked for.
fn push_asked(alloc: Global, heads: &mut Vec<Text>, asked: bool, head: &str) -> Result<(), Memory>
    ensures { OnOk result (heads.new.items ≡ heads.old.items
        ++ (if asked then head.now ∷ [] else [])) }
{
    if asked {
        heads.push(Text::copied(alloc, head)?)?;
    }
    Ok(())
}

/// What a table shows.
fn kind(basis: Basis) -> &'static str
    ensures { result.now ≡ kind_text basis }
{
    match basis {
        Basis::Changes => "Balance changes in ",
        Basis::Cumulative => "Ending balances (cumulative) in ",
        Basis::Historical => "Ending balances (historical) in ",
    }
}

/// The first day of the first column and the last day of the last one, as `A..B`.
pub fn span_name(alloc: Global, columns: &[Span]) -> Result<Text, Memory>
    requires { 0 < length columns.now }
    ensures { IfOk result (λ name. name ≡ span_text columns.now) }
{
    let mut text = String::new(alloc);
    push_day(alloc, &mut text, first_of(columns[0]))?;
    text.push_str("..")?;
    push_day(alloc, &mut text, last_of(columns[columns.len() - 1]))?;
    Ok(Text::from_string(text))
}

/// The title of a table: what it shows, and of which days.
pub fn title(alloc: Global, basis: Basis, columns: &[Span]) -> Result<Text, Memory>
    requires { 0 < length columns.now }
    ensures { IfOk result (λ title. title ≡ title_of basis columns.now) }
{
    let mut text = String::from_str(alloc, kind(basis))?;
    text.push_str(span_name(alloc, columns)?.as_str())?;
    text.push(':')?;
    Ok(Text::from_string(text))
}
