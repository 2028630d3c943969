//! The words of a period.
ghost use Rattle.std.specs.Prelude.{◌≡◌, ◌+◌, ◌-◌, ◌<◌, ◌≤◌, length, IsTrue, ◌^◌, slice_index, if◌then◌else◌};
ghost use Rattle.hl_time.specs.Words as spec;

use crate::spans::{Span, Unit};
use crate::units::start_within;
use crate::written_date::{byte_at, digit_at, is_separator, read_date, read_part, read_year};

/// The one before that of today, that of today, and the one after it.
#[derive(Clone, Copy)]
pub enum Step {
    Last,
    This,
    Next,
}

/// What begins or joins moments.
#[derive(Clone, Copy)]
pub enum Link {
    In,
    From,
    Since,
    To,
    Until,
    Dots,
}

/// What a word means in a period.
#[derive(Clone, Copy)]
pub enum Word {
    /// The text has ended.
    End,
    /// No word of a period.
    Other,
    Link(Link),
    /// `last`, `this` or `next`.
    Near(Step),
    /// `yesterday`, `today` or `tomorrow`.
    Day(Step),
    /// `day` to `year`.
    One(Unit),
    /// `days` to `years`.
    Many(Unit),
    Every,
    /// `daily` to `yearly`.
    Each(Unit),
    /// `biweekly` and `bimonthly`.
    Second(Unit),
    Number(u16),
    /// A written year, quarter, month or day.
    Days(Span),
}

fn is_word(word: &[u8], name: &[u8]) -> bool
    ensures { result ≡ spec.is_word word.now name.now }
{
    word.eq_ignore_ascii_case(name)
}

#[tactic(auto, unfolding(crate::specs::Words::interval_word))]
fn interval_word(word: &[u8]) -> Word
    ensures { result ≡ spec.interval_word word.now }
{
    if is_word(word, b"daily") {
        Word::Each(Unit::Day)
    } else if is_word(word, b"weekly") {
        Word::Each(Unit::Week)
    } else if is_word(word, b"biweekly") {
        Word::Second(Unit::Week)
    } else if is_word(word, b"monthly") {
        Word::Each(Unit::Month)
    } else if is_word(word, b"bimonthly") {
        Word::Second(Unit::Month)
    } else if is_word(word, b"quarterly") {
        Word::Each(Unit::Quarter)
    } else if is_word(word, b"yearly") {
        Word::Each(Unit::Year)
    } else if is_word(word, b"every") {
        Word::Every
    } else {
        Word::Other
    }
}

#[tactic(auto, unfolding(crate::specs::Words::many_word))]
fn many_word(word: &[u8]) -> Word
    ensures { result ≡ spec.many_word word.now }
{
    if is_word(word, b"days") {
        Word::Many(Unit::Day)
    } else if is_word(word, b"weeks") {
        Word::Many(Unit::Week)
    } else if is_word(word, b"months") {
        Word::Many(Unit::Month)
    } else if is_word(word, b"quarters") {
        Word::Many(Unit::Quarter)
    } else if is_word(word, b"years") {
        Word::Many(Unit::Year)
    } else {
        interval_word(word)
    }
}

#[tactic(auto, unfolding(crate::specs::Words::one_word))]
fn one_word(word: &[u8]) -> Word
    ensures { result ≡ spec.one_word word.now }
{
    if is_word(word, b"day") {
        Word::One(Unit::Day)
    } else if is_word(word, b"week") {
        Word::One(Unit::Week)
    } else if is_word(word, b"month") {
        Word::One(Unit::Month)
    } else if is_word(word, b"quarter") {
        Word::One(Unit::Quarter)
    } else if is_word(word, b"year") {
        Word::One(Unit::Year)
    } else {
        many_word(word)
    }
}

#[tactic(auto, unfolding(crate::specs::Words::near_word))]
fn near_word(word: &[u8]) -> Word
    ensures { result ≡ spec.near_word word.now }
{
    if is_word(word, b"last") {
        Word::Near(Step::Last)
    } else if is_word(word, b"this") {
        Word::Near(Step::This)
    } else if is_word(word, b"next") {
        Word::Near(Step::Next)
    } else if is_word(word, b"yesterday") {
        Word::Day(Step::Last)
    } else if is_word(word, b"today") {
        Word::Day(Step::This)
    } else if is_word(word, b"tomorrow") {
        Word::Day(Step::Next)
    } else {
        one_word(word)
    }
}

#[tactic(auto, unfolding(crate::specs::Words::keyword))]
pub(crate) fn keyword(word: &[u8]) -> Word
    ensures { result ≡ spec.keyword word.now }
{
    if is_word(word, b"in") {
        Word::Link(Link::In)
    } else if is_word(word, b"from") {
        Word::Link(Link::From)
    } else if is_word(word, b"since") {
        Word::Link(Link::Since)
    } else if is_word(word, b"to") {
        Word::Link(Link::To)
    } else if is_word(word, b"until") {
        Word::Link(Link::Until)
    } else if is_word(word, b"..") {
        Word::Link(Link::Dots)
    } else {
        near_word(word)
    }
}

pub(crate) fn is_end(word: Word) -> bool
    ensures { result ≡ spec.is_end word }
{
    matches!(word, Word::End)
}

/// A number of units, from 1 to 999.
#[tactic(auto, unfolding(crate::specs::Words::number_of))]
fn number_of(word: &[u8]) -> Option<u16>
    ensures { result ≡ spec.number_of word.now }
{
    let hundred = digit_at(word, 0)?;
    let value = match word.len() {
        1 => u16::from(hundred),
        2 => 10 * u16::from(hundred) + u16::from(digit_at(word, 1)?),
        3 => 100 * u16::from(hundred)
            + 10 * u16::from(digit_at(word, 1)?)
            + u16::from(digit_at(word, 2)?),
        _ => return None,
    };
    if value >= 1 { Some(value) } else { None }
}

/// All days of a unit, where they are days of the calendar.
#[tactic(auto, using(crate::proofs::UnitLaws::unit_start_next), unfolding(crate::specs::Words::whole, crate::specs::Units::start_within))]
pub(crate) fn whole(unit: Unit, index: u32) -> Option<Span>
    requires { index < 2 ^ 23 }
    ensures { result ≡ spec.whole unit index }
{
    match (start_within(unit, index), start_within(unit, index + 1)) {
        (Some(from), Some(end)) => Some(Span { from, end }),
        _ => None,
    }
}

#[tactic(auto, unfolding(crate::specs::Words::is_quarter))]
fn quarter_of(word: &[u8]) -> Option<u8>
    ensures { result ≡ (if spec.is_quarter word.now then Some (slice_index word.now 5 - 49) else
        None) }
{
    if word.len() == 6
        && (word[4] == b'Q' || word[4] == b'q')
        && (word[5] >= b'1' && word[5] <= b'4')
    {
        Some(word[5] - b'1')
    } else {
        None
    }
}

/// A written year, quarter, month or day.
#[tactic(auto, unfolding(crate::specs::Words::written, crate::specs::Words::is_month))]
fn written(word: &[u8]) -> Option<Span>
    ensures { result ≡ spec.written word.now }
{
    let Ok(year) = read_year(word) else {
        return None
    };
    if year < 1 || year > 9999 {
        return None;
    }
    let years = u32::from(year) - 1;
    if word.len() == 4 {
        return whole(Unit::Year, years);
    }
    if let Some(quarter) = quarter_of(word) {
        return whole(Unit::Quarter, 4 * years + u32::from(quarter));
    }
    let month = read_part(word, 5);
    if is_separator(byte_at(word, 4)) && month.length != 0 && 5 + month.length == word.len() {
        if month.value < 1 || month.value > 12 {
            return None;
        }
        return whole(Unit::Month, 12 * years + u32::from(month.value - 1));
    }
    match read_date(word, None) {
        Ok(day) => Some(Span {
            from: day.0,
            end: day.0 + 1,
        }),
        Err(_) => None,
    }
}

/// What a word means.
#[tactic(auto, unfolding(crate::specs::Words::word_of))]
fn word_of(word: &[u8]) -> Word
    ensures { result ≡ spec.word_of word.now }
{
    if word.is_empty() {
        return Word::End;
    }
    if digit_at(word, 0).is_none() {
        return keyword(word);
    }
    if let Some(number) = number_of(word) {
        return Word::Number(number);
    }
    match written(word) {
        Some(days) => Word::Days(days),
        None => Word::Other,
    }
}

fn is_blank(byte: u8) -> bool
    ensures { result ≡ spec.is_blank byte }
{
    byte == b' ' || byte == b'\t' || byte == b'\r'
}

fn is_dots_at(text: &[u8], at: usize) -> bool
    requires { at ≤ length text.now }
    ensures dots { result ≡ spec.is_dots_at text.now at }
    ensures room { IsTrue result → at + 2 ≤ length text.now }
{
    byte_at(text, at) == b'.' && byte_at(text, at + 1) == b'.'
}

/// Where the next word begins, at the text's end if there is none.
#[tactic(auto, using(crate::proofs::TextLaws::blanks_more, crate::proofs::TextLaws::blanks_none, crate::proofs::TextLaws::blanks_end), unfolding(crate::specs::Words::word_start))]
fn word_start(text: &[u8], at: usize) -> usize
    requires { at ≤ length text.now }
    ensures start { result ≡ spec.word_start text.now at }
    ensures order { at ≤ result }
    ensures within { result ≤ length text.now }
{
    let mut start = at;
    while start < text.len() && is_blank(text[start]) {
        start += 1;
    }
    start
}

/// Where the word ends that begins at a place.
#[tactic(auto, using(crate::proofs::TextLaws::run_more, crate::proofs::TextLaws::run_blank, crate::proofs::TextLaws::run_dots, crate::proofs::TextLaws::run_end), unfolding(crate::specs::Words::word_stop))]
fn word_stop(text: &[u8], start: usize) -> usize
    requires { start ≤ length text.now }
    ensures stop { result ≡ spec.word_stop text.now start }
    ensures order { start ≤ result }
    ensures within { result ≤ length text.now }
{
    if is_dots_at(text, start) {
        return start + 2;
    }
    let mut stop = start;
    while stop < text.len() && !is_blank(text[stop]) && !is_dots_at(text, stop) {
        stop += 1;
    }
    stop
}

/// The meanings of the first ten words, with `End` where the text has no more.
pub(crate) fn words_of(text: &[u8]) -> [Word; 10]
    ensures { result ≡ spec.words 10 text.now 0 }
{
    let mut words = [Word::End; 10];
    let mut at = 0;
    for i in 0..10 {
        let start = word_start(text, at);
        let stop = word_stop(text, start);
        words[i] = word_of(&text[start..stop]);
        at = stop;
    }
    words
}

/// The place of a word by its number, from 0.
pub(crate) fn place_of(text: &[u8], word: usize) -> usize
    ensures { result ≡ spec.place_of word text.now 0 }
{
    let mut at = 0;
    let mut left = word;
    while left > 0 {
        at = word_stop(text, word_start(text, at));
        left -= 1;
    }
    word_start(text, at)
}
