//! The values of options.
ghost use Rattle.std.specs.Prelude.{◌≡◌, ◌++◌, IfOk, IfSome, length, codes, option_map};
ghost use Rattle.std.specs.List.{before_first, after_first};
ghost use Rattle.hl_time.specs.Calendar.{IsDay};
ghost use Rattle.hl_time.specs.Periods.{IsPeriod};
ghost use Rattle.report_options.specs.Values as spec;

use crate::names::Name;
use crate::options::{Valuation, When};
use crate::texts::is_same;
use hl_base::{Memory, Text, are_digits};
use hl_num::{begins_number, digits_number};
use hl_time::{Day, Interval, Period, Unit, read_date, read_period};
use std::alloc::Global;

/// What is behind an option.
#[derive(Debug, Drop)]
pub(crate) enum Value {
    Nothing,
    Days(Period),
    Depth(u64),
    Worth(Valuation),
    /// The name of a file or a store.
    Named(Text),
}

/// A period without bounds.
fn unbounded(interval: Option<Interval>) -> Period
    ensures { result ≡ spec.unbounded interval }
{
    Period {
        from: None,
        end: None,
        interval,
    }
}

/// A period of one unit after the other.
fn every(unit: Unit) -> Value
    ensures value { result ≡ spec.every unit }
    ensures days { spec.HasDays result }
{
    Value::Days(unbounded(Some(Interval { unit, n: 1 })))
}

/// The value of an option behind which nothing is written, if it may stand so.
pub(crate) fn bare_value(name: Name) -> Option<Value>
    ensures value { result ≡ spec.bare_value name }
    ensures days { IfSome result spec.HasDays }
{
    match name {
        Name::Begin | Name::End | Name::Period => None,
        Name::Depth | Name::Exchange | Name::Value => None,
        Name::File | Name::Store => None,
        Name::Daily => Some(every(Unit::Day)),
        Name::Weekly => Some(every(Unit::Week)),
        Name::Monthly => Some(every(Unit::Month)),
        Name::Quarterly => Some(every(Unit::Quarter)),
        Name::Yearly => Some(every(Unit::Year)),
        Name::Forecast => Some(Value::Days(unbounded(None))),
        Name::Market => Some(Value::Worth(Valuation {
            when: When::End,
            target: None,
        })),
        _ => Some(Value::Nothing),
    }
}

/// The period that a text is.
fn period_of(text: &[u8], day: Day) -> Option<Value>
    requires { IsDay day.0 }
    ensures value { result ≡ spec.period_in text.now day.0 }
    ensures days { IfSome result spec.HasDays }
{
    match read_period(text, day) {
        Ok(period) => Some(Value::Days(period)),
        Err(_) => None,
    }
}

/// The period that a text is behind a word of periods.
fn period_behind(alloc: Global, link: &str, text: &str, day: Day) -> Result<Option<Value>, Memory>
    requires { IsDay day.0 }
    ensures value { IfOk result (λ value. value ≡ spec.period_in (link.now ++ text.now) day.0) }
    ensures days { IfOk result (λ value. IfSome value spec.HasDays) }
{
    let mut whole = String::from_str(alloc, link)?;
    whole.push_str(text)?;
    Ok(period_of(whole.as_bytes(), day))
}

/// The depth that a text is.
fn depth_of(text: &[u8]) -> Option<Value>
    ensures value { result ≡ spec.depth_in text.now }
    ensures days { IfSome result spec.HasDays }
{
    if !are_digits(text) || !begins_number(text) {
        return None;
    }
    Some(Value::Depth(digits_number(text)))
}

/// The day of valuation that a text writes.
fn day_of(text: &[u8]) -> Option<When>
    ensures value { result ≡ spec.day_in text.now }
    ensures days { IfSome result spec.IsWhen }
{
    match read_date(text, None) {
        Ok(day) => Some(When::On(day)),
        Err(_) => None,
    }
}

/// The time of valuation that a text names.
fn when_of(text: &[u8]) -> Option<When>
    ensures value { result ≡ spec.when_in text.now }
    ensures days { IfSome result spec.IsWhen }
{
    if is_same(text, b"cost") {
        Some(When::Cost)
    } else if is_same(text, b"then") {
        Some(When::Then)
    } else if is_same(text, b"end") {
        Some(When::End)
    } else if is_same(text, b"now") {
        Some(When::Now)
    } else {
        day_of(text)
    }
}

/// What stands before the first comma.
fn before_comma(text: &str) -> &str
    ensures { result.now ≡ spec.before_comma text.now }
{
    match text.split_once(',') {
        Some((kind, _)) => kind,
        None => text,
    }
}

/// What stands after the first comma, or nothing.
fn after_comma(text: &str) -> &str
    ensures { result.now ≡ spec.after_comma text.now }
{
    match text.split_once(',') {
        Some((_, symbol)) => symbol,
        None => "",
    }
}

/// The symbol in which amounts are valued; nothing is none.
#[tactic(auto, using(crate::proofs::Cuts::target_none, crate::proofs::Cuts::target_some))]
fn target_of(alloc: Global, text: &str) -> Result<Option<Text>, Memory>
    ensures { IfOk result (λ target. target ≡ spec.target_in text.now) }
{
    if text.is_empty() {
        return Ok(None);
    }
    Ok(Some(Text::copied(alloc, text)?))
}

/// The valuation that a text names.
fn worth_of(alloc: Global, text: &str) -> Result<Option<Value>, Memory>
    ensures value { IfOk result (λ value. value ≡ spec.worth_in text.now) }
    ensures days { IfOk result (λ value. IfSome value spec.HasDays) }
{
    match when_of(before_comma(text).as_bytes()) {
        Some(when) => {
            let target = target_of(alloc, after_comma(text))?;
            Ok(Some(Value::Worth(Valuation { when, target })))
        }
        None => Ok(None),
    }
}

/// The valuation at the end, in a symbol.
fn exchange_of(alloc: Global, text: &str) -> Result<Option<Value>, Memory>
    ensures value { IfOk result (λ value. value ≡ spec.exchange_in text.now) }
    ensures days { IfOk result (λ value. IfSome value spec.HasDays) }
{
    let target = Some(Text::copied(alloc, text)?);
    let when = When::End;
    Ok(Some(Value::Worth(Valuation { when, target })))
}

/// The name that a text is.
fn name_of(alloc: Global, text: &str) -> Result<Option<Value>, Memory>
    ensures value { IfOk result (λ value. value ≡ spec.name_in text.now) }
    ensures days { IfOk result (λ value. IfSome value spec.HasDays) }
{
    Ok(Some(Value::Named(Text::copied(alloc, text)?)))
}

/// The value of an option that a text writes, if it reads.
pub(crate) fn written_value(
    alloc: Global,
    day: Day,
    name: Name,
    text: &str,
) -> Result<Option<Value>, Memory>
    requires { IsDay day.0 }
    ensures value { IfOk result (λ value. value ≡ spec.written_value day.0 name text.now) }
    ensures days { IfOk result (λ value. IfSome value spec.HasDays) }
{
    match name {
        Name::Begin => period_behind(alloc, "since ", text, day),
        Name::End => period_behind(alloc, "until ", text, day),
        Name::Period | Name::Forecast => Ok(period_of(text.as_bytes(), day)),
        Name::Depth => Ok(depth_of(text.as_bytes())),
        Name::Exchange => exchange_of(alloc, text),
        Name::Value => worth_of(alloc, text),
        Name::File | Name::Store => name_of(alloc, text),
        _ => Ok(None),
    }
}
