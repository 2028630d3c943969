//! Reading periods.
ghost use Rattle.std.specs.Prelude.{◌≡◌, ◌+◌, ◌<◌, ◌≤◌, ◌^◌, IfOk, IfSome, length};
ghost use Rattle.hl_time.specs.Calendar.{IsDay, day_end};
ghost use Rattle.hl_time.specs.Periods as spec;
ghost use Rattle.hl_time.specs.Periods.{IsPeriod};

use crate::day::Day;
use crate::fault::TimeFault;
use crate::spans::{Interval, Period, Span, Unit};
use crate::units::{DAY_END, unit_of};
use crate::words::{Link, Step, Word, is_end, place_of, whole, words_of};

fn word_at(words: &[Word], at: usize) -> Word
    ensures { result ≡ spec.word_at words.now at }
{
    if at < words.len() {
        words[at]
    } else {
        Word::End
    }
}

/// The unit before that of today, that of today, or the one after it.
#[tactic(auto, unfolding(crate::specs::Periods::near))]
fn near(step: Step, unit: Unit, today: Day) -> Option<Span>
    requires { IsDay today.0 }
    ensures { result ≡ spec.near step unit today.0 }
{
    let index = unit_of(unit, today);
    match step {
        Step::Last => {
            if index == 0 {
                None
            } else {
                whole(unit, index - 1)
            }
        }
        Step::This => whole(unit, index),
        Step::Next => whole(unit, index + 1),
    }
}

fn found(days: Option<Span>, at: usize) -> Result<Span, usize>
    ensures answer { result ≡ spec.found days at }
    ensures within { IfOk result (λ s. (1 ≤ s.from) × (s.from < s.end) × (s.end ≤ day_end)) }
{
    match days {
        Some(days) => {
            if days.from >= 1 && days.from < days.end && days.end <= DAY_END {
                Ok(days)
            } else {
                Err(at)
            }
        }
        None => Err(at),
    }
}

fn near_moment(today: Day, step: Step, next: Word, at: usize) -> Result<Span, usize>
    requires today { IsDay today.0 }
    requires small { at ≤ 16 }
    ensures answer { result ≡ spec.near_moment today.0 step next at }
    ensures within { IfOk result (λ s. (1 ≤ s.from) × (s.from < s.end) × (s.end ≤ day_end)) }
{
    match next {
        Word::One(unit) => found(near(step, unit, today), at),
        _ => Err(at + 1),
    }
}

/// The days of a moment, or the number of the word at fault.
#[tactic(auto, unfolding(crate::specs::Periods::moment))]
fn moment(today: Day, words: &[Word], at: usize) -> Result<Span, usize>
    requires today { IsDay today.0 }
    requires small { at ≤ 16 }
    ensures answer { result ≡ spec.moment today.0 words.now at }
    ensures within { IfOk result (λ s. (1 ≤ s.from) × (s.from < s.end) × (s.end ≤ day_end)) }
{
    match word_at(words, at) {
        Word::Days(days) => found(Some(days), at),
        Word::Day(step) => found(near(step, Unit::Day, today), at),
        Word::Near(step) => near_moment(today, step, word_at(words, at + 1), at),
        _ => Err(at),
    }
}

/// The number of the word after a moment.
#[tactic(auto, unfolding(crate::specs::Periods::after))]
fn after(words: &[Word], at: usize) -> usize
    requires { at ≤ 16 }
    ensures next { result ≡ spec.after words.now at }
    ensures near { result ≤ at + 2 }
{
    match word_at(words, at) {
        Word::Near(_) => at + 2,
        _ => at + 1,
    }
}

/// A period that takes all words.
#[tactic(auto, unfolding(crate::specs::Periods::ended))]
fn ended(words: &[Word], at: usize, given: Period) -> Result<Period, usize>
    ensures answer { result ≡ spec.ended words.now at given }
    ensures same { IfOk result (λ p. p ≡ given) }
{
    if is_end(word_at(words, at)) {
        Ok(given)
    } else {
        Err(at)
    }
}

/// `S`, as its days.
#[tactic(auto, unfolding(crate::specs::Periods::in_moment))]
fn in_moment(
    interval: Option<Interval>,
    today: Day,
    words: &[Word],
    at: usize,
) -> Result<Period, usize>
    requires today { IsDay today.0 }
    requires small { at ≤ 12 }
    requires units { IfSome interval (λ i. 1 ≤ i.n) }
    ensures answer { result ≡ spec.in_moment interval today.0 words.now at }
    ensures valid { IfOk result IsPeriod }
{
    let s = moment(today, words, at)?;
    let given = Period {
        from: Some(s.from),
        end: Some(s.end),
        interval,
    };
    ended(words, after(words, at), given)
}

/// `S`, from its first day.
#[tactic(auto, unfolding(crate::specs::Periods::since_moment))]
fn since_moment(
    interval: Option<Interval>,
    today: Day,
    words: &[Word],
    at: usize,
) -> Result<Period, usize>
    requires today { IsDay today.0 }
    requires small { at ≤ 12 }
    requires units { IfSome interval (λ i. 1 ≤ i.n) }
    ensures answer { result ≡ spec.since_moment interval today.0 words.now at }
    ensures valid { IfOk result IsPeriod }
{
    let s = moment(today, words, at)?;
    let given = Period {
        from: Some(s.from),
        end: None,
        interval,
    };
    ended(words, after(words, at), given)
}

/// `T`, up to its first day, after a bound that may be there.
#[tactic(auto, unfolding(crate::specs::Periods::until_moment))]
fn until_moment(
    from: Option<u32>,
    interval: Option<Interval>,
    today: Day,
    words: &[Word],
    at: usize,
) -> Result<Period, usize>
    requires today { IsDay today.0 }
    requires small { at ≤ 12 }
    requires from { IfSome from (λ day. (1 ≤ day) × (day ≤ day_end)) }
    requires units { IfSome interval (λ i. 1 ≤ i.n) }
    ensures answer { result ≡ spec.until_moment from interval today.0 words.now at }
    ensures valid { IfOk result IsPeriod }
{
    let t = moment(today, words, at)?;
    let given = Period {
        from,
        end: Some(t.from),
        interval,
    };
    ended(words, after(words, at), given)
}

/// `from S`, and `to T` after it or nothing.
#[tactic(auto, unfolding(crate::specs::Periods::from_moment))]
fn from_moment(
    interval: Option<Interval>,
    today: Day,
    words: &[Word],
    at: usize,
) -> Result<Period, usize>
    requires today { IsDay today.0 }
    requires small { at ≤ 9 }
    requires units { IfSome interval (λ i. 1 ≤ i.n) }
    ensures answer { result ≡ spec.from_moment interval today.0 words.now at }
    ensures valid { IfOk result IsPeriod }
{
    let s = moment(today, words, at)?;
    let next = after(words, at);
    match word_at(words, next) {
        Word::End => Ok(Period {
            from: Some(s.from),
            end: None,
            interval,
        }),
        Word::Link(Link::To) => until_moment(Some(s.from), interval, today, words, next + 1),
        _ => Err(next),
    }
}

/// After `S ..`: nothing, or `T`.
fn after_dots(
    first: u32,
    interval: Option<Interval>,
    today: Day,
    words: &[Word],
    at: usize,
) -> Result<Period, usize>
    requires today { IsDay today.0 }
    requires small { at ≤ 12 }
    requires first { (1 ≤ first) × (first ≤ day_end) }
    requires units { IfSome interval (λ i. 1 ≤ i.n) }
    ensures answer { result ≡ spec.dots_by (spec.word_at words.now at) first interval today.0
        words.now at }
    ensures valid { IfOk result IsPeriod }
{
    match word_at(words, at) {
        Word::End => Ok(Period {
            from: Some(first),
            end: None,
            interval,
        }),
        _ => until_moment(Some(first), interval, today, words, at),
    }
}

/// `S`, and after it nothing, `to T`, `..` or `.. T`.
#[tactic(auto, unfolding(crate::specs::Periods::bare_moment))]
fn bare_moment(
    interval: Option<Interval>,
    today: Day,
    words: &[Word],
    at: usize,
) -> Result<Period, usize>
    requires today { IsDay today.0 }
    requires small { at ≤ 9 }
    requires units { IfSome interval (λ i. 1 ≤ i.n) }
    ensures answer { result ≡ spec.bare_moment interval today.0 words.now at }
    ensures valid { IfOk result IsPeriod }
{
    let s = moment(today, words, at)?;
    let next = after(words, at);
    match word_at(words, next) {
        Word::End => Ok(Period {
            from: Some(s.from),
            end: Some(s.end),
            interval,
        }),
        Word::Link(Link::To) => until_moment(Some(s.from), interval, today, words, next + 1),
        Word::Link(Link::Dots) => after_dots(s.from, interval, today, words, next + 1),
        _ => Err(next),
    }
}

/// The forms of spans.
#[tactic(auto, unfolding(crate::specs::Periods::span_of))]
fn span_of(
    interval: Option<Interval>,
    today: Day,
    words: &[Word],
    at: usize,
) -> Result<Period, usize>
    requires today { IsDay today.0 }
    requires small { at ≤ 8 }
    requires units { IfSome interval (λ i. 1 ≤ i.n) }
    ensures answer { result ≡ spec.span_of interval today.0 words.now at }
    ensures valid { IfOk result IsPeriod }
{
    match word_at(words, at) {
        Word::Link(Link::In) => in_moment(interval, today, words, at + 1),
        Word::Link(Link::From) => from_moment(interval, today, words, at + 1),
        Word::Link(Link::Since) => since_moment(interval, today, words, at + 1),
        Word::Link(Link::To) => until_moment(None, interval, today, words, at + 1),
        Word::Link(Link::Until) => until_moment(None, interval, today, words, at + 1),
        Word::Link(Link::Dots) => until_moment(None, interval, today, words, at + 1),
        _ => bare_moment(interval, today, words, at),
    }
}

/// After an interval: nothing, or a span.
#[tactic(auto, unfolding(crate::specs::Periods::interval_then))]
fn interval_then(unit: Unit, n: u16, today: Day, words: &[Word], at: usize) -> Result<Period, usize>
    requires today { IsDay today.0 }
    requires small { at ≤ 8 }
    requires units { 1 ≤ n }
    ensures answer { result ≡ spec.interval_then (record { unit = unit; n = n }) today.0 words.now
        at }
    ensures valid { IfOk result IsPeriod }
{
    let interval = Interval { unit, n };
    if is_end(word_at(words, at)) {
        return Ok(Period {
            from: None,
            end: None,
            interval: Some(interval),
        });
    }
    span_of(Some(interval), today, words, at)
}

/// After `every N`: the units.
fn number_of_units(n: u16, today: Day, words: &[Word]) -> Result<Period, usize>
    requires today { IsDay today.0 }
    requires units { 1 ≤ n }
    ensures answer { result ≡ spec.number_by n (spec.word_at words.now 2) today.0 words.now }
    ensures valid { IfOk result IsPeriod }
{
    match word_at(words, 2) {
        Word::Many(unit) => interval_then(unit, n, today, words, 3),
        _ => Err(2),
    }
}

/// After `every`: a unit, or a number of units.
fn every(today: Day, words: &[Word]) -> Result<Period, usize>
    requires { IsDay today.0 }
    ensures answer { result ≡ spec.every_by (spec.word_at words.now 1) today.0 words.now }
    ensures valid { IfOk result IsPeriod }
{
    match word_at(words, 1) {
        Word::One(unit) => interval_then(unit, 1, today, words, 2),
        Word::Number(n) => {
            if n >= 1 && n <= 999 {
                number_of_units(n, today, words)
            } else {
                Err(1)
            }
        }
        _ => Err(1),
    }
}

/// The period that words make, or the number of the word at fault.
#[tactic(auto, unfolding(crate::specs::Periods::period_of_words))]
fn period_of_words(today: Day, words: &[Word]) -> Result<Period, usize>
    requires { IsDay today.0 }
    ensures answer { result ≡ spec.period_of_words today.0 words.now }
    ensures valid { IfOk result IsPeriod }
{
    match word_at(words, 0) {
        Word::Each(unit) => interval_then(unit, 1, today, words, 1),
        Word::Second(unit) => interval_then(unit, 2, today, words, 1),
        Word::Every => every(today, words),
        _ => span_of(None, today, words, 0),
    }
}

/// The period that a text writes on the day of today. Its words are divided by spaces, tabs and carriage returns, `..` is a
/// word of its own, and case is ignored. A `BadPeriod` has the place of the first word with which the text is no beginning
/// of a period, and the text's length where more has to come.
#[tactic(auto, unfolding(crate::specs::Periods::period_of))]
pub fn read_period(text: &[u8], today: Day) -> Result<Period, TimeFault>
    requires { IsDay today.0 }
    ensures answer { result ≡ spec.period_of text.now today.0 }
    ensures valid { IfOk result IsPeriod }
{
    let words = words_of(text);
    match period_of_words(today, &words) {
        Ok(given) => Ok(given),
        Err(word) => Err(TimeFault::BadPeriod {
            at: place_of(text, word) as u64,
        }),
    }
}
