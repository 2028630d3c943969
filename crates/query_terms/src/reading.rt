//! Words read as terms.
ghost use Rattle.std.specs.Prelude.{◌≡◌, ◌≤◌, true, IfOk, IfSome, length};
ghost use Rattle.std.specs.List.{list_all};
ghost use Rattle.std.specs.Str.{is_utf8, bytes_eq};
ghost use Rattle.hl_time.specs.Calendar.{IsDay};
ghost use Rattle.hl_num.specs.Reading.{number_of};
ghost use Rattle.hl_time.specs.Periods.{period_of, IsPeriod};
ghost use Rattle.query_terms.specs.Patterns as patterns;
ghost use Rattle.query_terms.specs.Reading as spec;
ghost use Rattle.query_terms.specs.declared.kinds.Kind.TheVariants as kinds;
ghost use Rattle.query_terms.specs.declared.reading.Head.TheVariants as heads;

use crate::cutting::{after, before, bytes_of, has, text_of};
use crate::kinds::{AmountTest, Field, Kind, Order, Pattern, Term};
use crate::patterns::{read_pattern, read_symbol};
use book::Mark;
use hl_base::ascii::{begins, past};
use hl_base::{Memory, Text, are_digits};
use hl_num::{Dec, Number, begins_number, digits_number, read_number};
use hl_time::{Day, Period, read_period};
use std::alloc::Global;

/// The kind of term that a word names before its first colon; `Bare` where it names none.
#[derive(Clone, Copy)]
pub(crate) enum Head {
    Bare,
    Account,
    Description,
    Payee,
    Note,
    Code,
    Symbol,
    Amount,
    Date,
    Depth,
    Real,
    Status,
    Tag,
    Type,
}

fn is_same(a: &[u8], b: &[u8]) -> bool
    ensures { result ≡ bytes_eq a.now b.now }
{
    a == b
}

/// The kind that a name before a colon stands for.
fn head_named(name: &[u8]) -> Head
    ensures { result ≡ spec.head_named name.now }
{
    if is_same(name, b"acct") {
        Head::Account
    } else if is_same(name, b"desc") {
        Head::Description
    } else if is_same(name, b"payee") {
        Head::Payee
    } else if is_same(name, b"note") {
        Head::Note
    } else if is_same(name, b"code") {
        Head::Code
    } else if is_same(name, b"cur") {
        Head::Symbol
    } else if is_same(name, b"amt") {
        Head::Amount
    } else if is_same(name, b"date") {
        Head::Date
    } else if is_same(name, b"depth") {
        Head::Depth
    } else if is_same(name, b"real") {
        Head::Real
    } else if is_same(name, b"status") {
        Head::Status
    } else if is_same(name, b"tag") {
        Head::Tag
    } else if is_same(name, b"type") {
        Head::Type
    } else {
        Head::Bare
    }
}

/// The kind that a word names before its first colon.
#[tactic(auto, unfolding(crate::specs::Reading::head_of))]
fn head_of(text: &[u8]) -> Head
    ensures { result ≡ spec.head_of text.now }
{
    if has(text, b':') {
        head_named(before(text, b':'))
    } else {
        Head::Bare
    }
}

/// The text that a kind of term looks at.
fn text_under(head: Head, text: &[u8]) -> &[u8]
    ensures value { result.now ≡ spec.text_under head text.now }
    ensures utf8 { is_utf8 text.now ≡ true → is_utf8 result.now ≡ true }
{
    match head {
        Head::Bare => text,
        _ => after(text, b':'),
    }
}

/// Whether a text begins with `not:`.
fn begins_not(text: &[u8]) -> bool
    ensures value { result ≡ spec.begins_not text.now }
    ensures long { result ≡ true → 4 ≤ length text.now }
{
    text.starts_with(b"not:")
}

/// Under how many `not:` a word stands, and the word under them.
#[tactic(auto, using(crate::proofs::Nots::nots_more, crate::proofs::Nots::bare_more, crate::proofs::Nots::nots_none, crate::proofs::Nots::bare_none, crate::proofs::Nots::not_utf8))]
fn under_nots(word: &[u8]) -> (usize, &[u8])
    ensures nots { result.0 ≡ spec.nots_of word.now }
    ensures bare { result.1.now ≡ spec.bare word.now }
    ensures utf8 { is_utf8 word.now ≡ true → is_utf8 result.1.now ≡ true }
{
    let mut nots = 0;
    let mut rest = word;
    while begins_not(rest) {
        nots += 1;
        rest = past(rest, 4);
    }
    (nots, rest)
}

/// `<`, `<=`, `>`, `>=` or none of these at the front of a text.
fn order_of(text: &[u8]) -> Order
    ensures { result ≡ spec.order_of text.now }
{
    if begins(text, b'<') {
        if begins(past(text, 1), b'=') {
            Order::AtMost
        } else {
            Order::Below
        }
    } else if begins(text, b'>') {
        if begins(past(text, 1), b'=') {
            Order::AtLeast
        } else {
            Order::Above
        }
    } else {
        Order::Equal
    }
}

/// How many bytes an order takes.
fn order_size(order: Order) -> usize
    ensures { result ≡ spec.order_size order }
{
    match order {
        Order::Equal => 0,
        Order::Below | Order::Above => 1,
        Order::AtMost | Order::AtLeast => 2,
    }
}

fn has_sign(text: &[u8]) -> bool
    ensures { result ≡ spec.has_sign text.now }
{
    begins(text, b'+') || begins(text, b'-')
}

fn with_minus(minus: bool, number: Dec) -> Dec
    ensures { result ≡ spec.with_minus minus number }
{
    if minus { number.negated() } else { number }
}

fn is_zero(number: Dec) -> bool
    ensures { result ≡ spec.is_zero number }
{
    number.magnitude() == 0
}

/// The test of a number after an order and a sign.
fn test_with(order: Order, text: &[u8], number: Number) -> AmountTest
    ensures { result ≡ spec.test_with order text.now number }
{
    AmountTest {
        order,
        signed: has_sign(text) || is_zero(number.value),
        number: with_minus(begins(text, b'-'), number.value),
    }
}

/// The number that a text is.
fn number_in(text: &[u8]) -> Option<Number>
    ensures { result ≡ number_of text.now None }
{
    match read_number(text, None) {
        Ok(number) => Some(number),
        Err(_) => None,
    }
}

/// The test of a number with a sign or without.
fn signed_test(order: Order, text: &[u8]) -> Option<AmountTest>
    ensures { result ≡ spec.signed_test order text.now }
{
    let digits = past(text, if has_sign(text) { 1 } else { 0 });
    match number_in(digits) {
        Some(number) => Some(test_with(order, text, number)),
        None => None,
    }
}

/// What an `amt:` term asks.
fn amount_test(text: &[u8]) -> Option<AmountTest>
    ensures { result ≡ spec.amount_test text.now }
{
    let order = order_of(text);
    signed_test(order, past(text, order_size(order)))
}

/// A period without an interval.
fn plain_period(text: &[u8], day: Day) -> Option<Period>
    requires { IsDay day.0 }
    ensures value { result ≡ spec.plain_period (period_of text.now day.0) }
    ensures days { IfSome result IsPeriod }
{
    match read_period(text, day) {
        Ok(period) => match period.interval {
            None => Some(period),
            Some(_) => None,
        },
        Err(_) => None,
    }
}

/// What a `depth:` term says.
fn depth_of(text: &[u8]) -> Option<u64>
    ensures { result ≡ spec.depth_of text.now }
{
    if !are_digits(text) || !begins_number(text) {
        return None;
    }
    Some(digits_number(text))
}

/// What a `real:` term says.
fn real_of(text: &[u8]) -> Option<bool>
    ensures { result ≡ spec.real_of text.now }
{
    if is_same(text, b"1") {
        Some(true)
    } else if is_same(text, b"0") {
        Some(false)
    } else {
        None
    }
}

/// What a `status:` term says.
pub fn status_of(text: &[u8]) -> Option<Mark>
    ensures { result ≡ spec.status_of text.now }
{
    if is_same(text, b"*") {
        Some(Mark::Cleared)
    } else if is_same(text, b"!") {
        Some(Mark::Pending)
    } else if is_same(text, b"") {
        Some(Mark::Unmarked)
    } else {
        None
    }
}

/// A byte, as a capital where it is a small letter.
pub fn upper(byte: u8) -> u8
    ensures { result ≡ spec.upper byte }
{
    if b'a' <= byte && byte <= b'z' {
        byte - 32
    } else {
        byte
    }
}

/// Whether a byte is a letter of an account's type, in either case.
fn is_letter(byte: u8) -> bool
    ensures { result ≡ spec.is_letter byte }
{
    let capital = upper(byte);
    b"ALERXCV".iter().any(|letter| *letter == capital)
}

fn has_letters_alone(text: &[u8]) -> bool
    ensures { result ≡ list_all spec.is_letter text.now }
{
    text.iter().all(|byte| is_letter(*byte))
}

/// Whether a text is one letter or more, and nothing else.
fn are_letters(text: &[u8]) -> bool
    ensures { result ≡ spec.are_letters text.now }
{
    !is_same(text, b"") && has_letters_alone(text)
}

/// The pattern of a tag's value, where an `=` stands.
fn value_pattern(alloc: Global, text: &[u8]) -> Result<Option<Pattern>, Memory>
    requires { is_utf8 text.now ≡ true }
    ensures { IfOk result (λ pattern. pattern ≡ spec.value_pattern text.now) }
{
    if has(text, b'=') {
        Ok(Some(read_pattern(alloc, after(text, b'='))?))
    } else {
        Ok(None)
    }
}

/// A term on what a transaction says.
fn read_said(alloc: Global, field: Field, text: &[u8]) -> Result<Option<Kind>, Memory>
    requires { is_utf8 text.now ≡ true }
    ensures value { IfOk result (λ kind.
        kind ≡ Some (kinds.Said field (patterns.pattern_of text.now))) }
    ensures days { IfOk result (λ kind. IfSome kind spec.HasDays) }
{
    Ok(Some(Kind::Said(field, read_pattern(alloc, text)?)))
}

/// A term on accounts.
fn read_account(alloc: Global, text: &[u8]) -> Result<Option<Kind>, Memory>
    requires { is_utf8 text.now ≡ true }
    ensures value { IfOk result (λ kind.
        kind ≡ Some (kinds.Account (patterns.pattern_of text.now))) }
    ensures days { IfOk result (λ kind. IfSome kind spec.HasDays) }
{
    Ok(Some(Kind::Account(read_pattern(alloc, text)?)))
}

/// A term on tags.
fn read_tag(alloc: Global, text: &[u8]) -> Result<Option<Kind>, Memory>
    requires { is_utf8 text.now ≡ true }
    ensures value { IfOk result (λ kind. kind ≡ spec.kind_under heads.Tag 0 text.now) }
    ensures days { IfOk result (λ kind. IfSome kind spec.HasDays) }
{
    let name = read_pattern(alloc, before(text, b'='))?;
    let value = value_pattern(alloc, text)?;
    Ok(Some(Kind::Tag(name, value)))
}

/// A term on the letters of accounts.
fn read_type(alloc: Global, text: &[u8]) -> Result<Option<Kind>, Memory>
    requires { is_utf8 text.now ≡ true }
    ensures value { IfOk result (λ kind. kind ≡ spec.kind_under heads.Type 0 text.now) }
    ensures days { IfOk result (λ kind. IfSome kind spec.HasDays) }
{
    if are_letters(text) {
        Ok(Some(Kind::Type(text_of(alloc, text)?)))
    } else {
        Ok(None)
    }
}

/// A term that holds no text; `None` for every other head too.
fn textless(head: Head, day: Day, text: &[u8]) -> Option<Kind>
    requires { IsDay day.0 }
    ensures value { result ≡ spec.textless head day.0 text.now }
    ensures days { IfSome result spec.HasDays }
{
    match head {
        Head::Amount => Some(Kind::Amount(amount_test(text)?)),
        Head::Date => Some(Kind::Date(plain_period(text, day)?)),
        Head::Depth => Some(Kind::Depth(depth_of(text)?)),
        Head::Real => Some(Kind::Real(real_of(text)?)),
        Head::Status => Some(Kind::Status(status_of(text)?)),
        _ => None,
    }
}

/// What a term of a head asks, of the text after its colon.
fn kind_under(alloc: Global, head: Head, day: Day, text: &[u8]) -> Result<Option<Kind>, Memory>
    requires day { IsDay day.0 }
    requires utf8 { is_utf8 text.now ≡ true }
    ensures value { IfOk result (λ kind. kind ≡ spec.kind_under head day.0 text.now) }
    ensures days { IfOk result (λ kind. IfSome kind spec.HasDays) }
{
    match head {
        Head::Bare | Head::Account => read_account(alloc, text),
        Head::Description => read_said(alloc, Field::Description, text),
        Head::Payee => read_said(alloc, Field::Payee, text),
        Head::Note => read_said(alloc, Field::Note, text),
        Head::Code => read_said(alloc, Field::Code, text),
        Head::Symbol => Ok(Some(Kind::Symbol(read_symbol(alloc, text)?))),
        Head::Tag => read_tag(alloc, text),
        Head::Type => read_type(alloc, text),
        _ => Ok(textless(head, day, text)),
    }
}

/// The term that a word reads as on a day, if it reads.
#[tactic(auto, unfolding(crate::specs::Reading::term_of))]
pub fn read_term(alloc: Global, word: &Text, day: Day) -> Result<Option<Term>, Memory>
    requires { IsDay day.0 }
    ensures value { IfOk result (λ term. term ≡ spec.term_of day.0 word.now) }
    ensures days { IfOk result (λ term. IfSome term (λ t. spec.HasDays t.kind)) }
{
    let (nots, text) = under_nots(bytes_of(word.as_str()));
    let head = head_of(text);
    match kind_under(alloc, head, day, text_under(head, text))? {
        Some(kind) => Ok(Some(Term { nots, kind })),
        None => Ok(None),
    }
}
