//! What the terms of a query hold of.
ghost use Rattle.std.specs.Prelude.{◌≡◌, ◌+◌, true, not, ◌&&◌, ◌||◌, map};
ghost use Rattle.std.specs.List.{list_any, list_all};
ghost use Rattle.std.specs.Str.{is_utf8};
ghost use Rattle.std.specs.declared.cmp.Ordering.{Ordering};
ghost use Rattle.hl_num.specs.Decimal.{Decimal};
ghost use Rattle.query.specs.Matching as spec;
ghost use Rattle.query.specs.Asking as asking;
ghost use Rattle.query_terms.specs.Finders.{known_in};
ghost use Rattle.query.specs.OwnLetters.{own_in};
ghost use Rattle.query_terms.specs.Reading as reading;

use crate::account_types::Types;
use book::{Amount, Mark, Posting, Side, Tag, Txn};
use hl_base::Text;
use hl_num::Dec;
use hl_time::Period;
use query_terms::cutting::{after, before, bytes_of, has, str_of, trimmed};
use query_terms::{AmountTest, Field, Finder, Kind, Order, Pattern, Term, upper};
use std::cmp::Ordering;

/// Terms of which one has to hold, and the others, which all have to.
#[derive(Clone, Copy, PartialEq, Eq)]
pub(crate) enum Group {
    Description,
    Account,
    Status,
    Other,
}

/// What a query is asked about.
#[derive(Clone, Copy)]
pub(crate) enum Asked<'a> {
    Posting(&'a Posting, &'a Txn),
    /// A posting, whatever its day.
    Undated(&'a Posting, &'a Txn),
    /// A posting, whatever bounds there are on days.
    Boundless(&'a Posting, &'a Txn),
    Txn(&'a Txn),
}

/// The payee of a description: what stands before its first `|`, trimmed, or all of it.
pub fn payee_of(description: &Text) -> &str
    ensures { result.now ≡ spec.payee_of description.now }
{
    let bytes = bytes_of(description.as_str());
    if has(bytes, b'|') {
        str_of(trimmed(before(bytes, b'|')))
    } else {
        str_of(bytes)
    }
}

/// The note of a description: what stands after its first `|`, trimmed, or all of it.
fn note_of(description: &Text) -> &str
    ensures { result.now ≡ spec.note_of description.now }
{
    let bytes = bytes_of(description.as_str());
    if has(bytes, b'|') {
        str_of(trimmed(after(bytes, b'|')))
    } else {
        str_of(bytes)
    }
}

/// What a transaction says in a field.
fn said(field: Field, txn: &Txn) -> &str
    ensures { result.now ≡ spec.said field txn.now }
{
    match field {
        Field::Description => txn.description.as_str(),
        Field::Payee => payee_of(&txn.description),
        Field::Note => note_of(&txn.description),
        Field::Code => txn.code.as_str(),
    }
}

fn has_symbol(finder: &mut Finder, pattern: &Pattern, amount: &Option<Amount>) -> bool
    ensures found { result ≡ spec.has_symbol (known_in finder.old) pattern.now amount.now }
    ensures same { known_in finder.new ≡ known_in finder.old }
{
    match amount {
        Some(amount) => finder.is_whole(pattern, amount.symbol.as_str()),
        None => false,
    }
}

fn magnitude(number: Dec) -> Dec
    ensures { result ≡ spec.magnitude number }
{
    Dec {
        mantissa: number.magnitude() as i128,
        places: number.decimals(),
    }
}

fn passes(order: Order, found: Ordering) -> bool
    ensures { result ≡ spec.passes order found }
{
    match order {
        Order::Equal => found == Ordering::Equal,
        Order::Below => found == Ordering::Less,
        Order::AtMost => found != Ordering::Greater,
        Order::Above => found == Ordering::Greater,
        Order::AtLeast => found != Ordering::Less,
    }
}

fn compares(test: &AmountTest, value: Dec) -> bool
    ensures { result ≡ spec.compares test.now value }
{
    let compared = if test.signed { value } else { magnitude(value) };
    passes(test.order, compared.compare(test.number))
}

fn amount_compares(test: &AmountTest, amount: &Option<Amount>) -> bool
    ensures { result ≡ spec.amount_compares test.now amount.now }
{
    match amount {
        Some(amount) => compares(test, amount.value),
        None => false,
    }
}

fn is_from(from: Option<u32>, day: u32) -> bool
    ensures { result ≡ spec.is_from from day }
{
    match from {
        Some(from) => from <= day,
        None => true,
    }
}

fn is_before(end: Option<u32>, day: u32) -> bool
    ensures { result ≡ spec.is_before end day }
{
    match end {
        Some(end) => day < end,
        None => true,
    }
}

fn lies_in(period: &Period, day: u32) -> bool
    ensures { result ≡ spec.lies_in period.now day }
{
    is_from(period.from, day) && is_before(period.end, day)
}

fn is_real(side: Side) -> bool
    ensures { result ≡ spec.is_real side }
{
    match side {
        Side::Real => true,
        _ => false,
    }
}

/// Whether a posting is real where that is asked, or isn't where the contrary is.
fn is_as_real(real: bool, side: Side) -> bool
    ensures { result ≡ spec.is_as_real real side }
{
    if real { is_real(side) } else { !is_real(side) }
}

fn same_mark(a: Mark, b: Mark) -> bool
    ensures { result ≡ spec.same_mark a b }
{
    match a {
        Mark::Unmarked => b == Mark::Unmarked,
        Mark::Pending => b == Mark::Pending,
        Mark::Cleared => b == Mark::Cleared,
    }
}

fn mark_in(own: Mark, whole: Mark) -> Mark
    ensures { result ≡ spec.mark_in own whole }
{
    match own {
        Mark::Unmarked => whole,
        _ => own,
    }
}

fn value_matches(finder: &mut Finder, pattern: &Option<Pattern>, value: &Text) -> bool
    ensures found { result ≡ spec.value_matches (known_in finder.old) pattern.now value.now }
    ensures same { known_in finder.new ≡ known_in finder.old }
{
    match pattern {
        Some(pattern) => finder.finds(pattern, value.as_str()),
        None => true,
    }
}

fn tag_matches(finder: &mut Finder, name: &Pattern, value: &Option<Pattern>, tag: &Tag) -> bool
    ensures found { result ≡ spec.tag_matches (known_in finder.old) name.now value.now tag.now }
    ensures same { known_in finder.new ≡ known_in finder.old }
{
    if !finder.finds(name, tag.name.as_str()) {
        return false;
    }
    value_matches(finder, value, &tag.value)
}

fn has_tag(finder: &mut Finder, name: &Pattern, value: &Option<Pattern>, tags: &[Tag]) -> bool
    ensures found { result ≡ spec.has_tag (known_in finder.old) name.now value.now tags.now }
    ensures same { known_in finder.new ≡ known_in finder.old }
{
    for tag in tags {
        if tag_matches(finder, name, value, tag) {
            return true;
        }
    }
    false
}

/// Whether one of two lists of tags has a match.
fn either_has_tag(
    finder: &mut Finder,
    name: &Pattern,
    value: &Option<Pattern>,
    first: &[Tag],
    second: &[Tag],
) -> bool
    ensures found { result ≡ (spec.has_tag (known_in finder.old) name.now value.now first.now ||
        spec.has_tag (known_in finder.old) name.now value.now second.now) }
    ensures same { known_in finder.new ≡ known_in finder.old }
{
    if has_tag(finder, name, value, first) {
        return true;
    }
    has_tag(finder, name, value, second)
}

fn stands_for(asked: u8, letter: u8) -> bool
    ensures { result ≡ spec.stands_for asked letter }
{
    asked == letter || (asked == b'A' && letter == b'C') || (asked == b'E' && letter == b'V')
}

fn is_among(letters: &[u8], letter: u8) -> bool
    ensures { result ≡ list_any (λ b. spec.stands_for (reading.upper b) letter) letters.now }
{
    letters
        .iter()
        .any(|asked| stands_for(upper(*asked), letter))
}

fn has_letter(letters: &Text, letter: Option<u8>) -> bool
    ensures { result ≡ spec.has_letter letters.now letter }
{
    match letter {
        Some(letter) => is_among(letters.as_bytes(), letter),
        None => false,
    }
}

/// Whether what a term asks holds of a posting.
fn kind_holds(finder: &mut Finder, types: &Types, posting: &Posting, txn: &Txn, kind: &Kind) -> bool
    ensures found { result ≡ spec.kind_holds (known_in finder.old) (own_in types.now) posting.now
        txn.now kind.now }
    ensures same { known_in finder.new ≡ known_in finder.old }
{
    match kind {
        Kind::Said(field, pattern) => finder.finds(pattern, said(*field, txn)),
        Kind::Account(pattern) => finder.finds(pattern, posting.account.as_str()),
        Kind::Symbol(pattern) => has_symbol(finder, pattern, &posting.amount),
        Kind::Amount(test) => amount_compares(test, &posting.amount),
        Kind::Date(period) => lies_in(period, posting.day_in(txn).0),
        Kind::Depth(_) => true,
        Kind::Real(real) => is_as_real(*real, posting.side),
        Kind::Status(mark) => same_mark(*mark, mark_in(posting.mark, txn.mark)),
        Kind::Tag(name, value) => {
            let own = posting.tags.as_slice();
            either_has_tag(finder, name, value, own, txn.tags.as_slice())
        }
        Kind::Type(letters) => has_letter(letters, types.of(&posting.account)),
    }
}

/// What is said under so many `not:`.
fn under(nots: usize, holds: bool) -> bool
    ensures { result ≡ spec.under nots holds }
{
    let mut said = holds;
    for _not in 0..nots {
        said = !said;
    }
    said
}

/// Whether what a term asks, under some `not:`, holds of some posting of a transaction.
fn holds_of_some(finder: &mut Finder, types: &Types, txn: &Txn, nots: usize, kind: &Kind) -> bool
    ensures found { result ≡ spec.holds_of_some (known_in finder.old) (own_in types.now) txn.now
        nots kind.now }
    ensures same { known_in finder.new ≡ known_in finder.old }
{
    for posting in txn.postings.as_slice() {
        if under(nots, kind_holds(finder, types, posting, txn, kind)) {
            return true;
        }
    }
    false
}

/// Whether a transaction's own tags match, or those of one of its postings.
fn tag_holds_of(finder: &mut Finder, types: &Types, txn: &Txn, kind: &Kind) -> bool
    ensures found { result ≡ asking.tag_holds_of (known_in finder.old) (own_in types.now) txn.now
        kind.now }
    ensures same { known_in finder.new ≡ known_in finder.old }
{
    if let Kind::Tag(name, value) = kind {
        if has_tag(finder, name, value, txn.tags.as_slice()) {
            return true;
        }
    }
    holds_of_some(finder, types, txn, 0, kind)
}

/// Whether what a term asks holds of a transaction.
fn kind_holds_of(finder: &mut Finder, types: &Types, txn: &Txn, kind: &Kind) -> bool
    ensures found { result ≡ spec.kind_holds_of (known_in finder.old) (own_in types.now) txn.now
        kind.now }
    ensures same { known_in finder.new ≡ known_in finder.old }
{
    match kind {
        Kind::Said(field, pattern) => finder.finds(pattern, said(*field, txn)),
        Kind::Date(period) => lies_in(period, txn.day.0),
        Kind::Depth(_depth) => true,
        Kind::Status(mark) => same_mark(*mark, txn.mark),
        Kind::Tag(_, _) => tag_holds_of(finder, types, txn, kind),
        _ => holds_of_some(finder, types, txn, 0, kind),
    }
}

/// Whether a term holds of a transaction.
fn term_holds_of(finder: &mut Finder, types: &Types, txn: &Txn, term: &Term) -> bool
    ensures found { result ≡ spec.term_holds_of (known_in finder.old) (own_in types.now) txn.now
        term.now }
    ensures same { known_in finder.new ≡ known_in finder.old }
{
    if term.nots == 0 {
        return kind_holds_of(finder, types, txn, &term.kind);
    }
    !holds_of_some(finder, types, txn, term.nots - 1, &term.kind)
}

/// Whether a term holds of a posting.
fn term_holds(finder: &mut Finder, types: &Types, posting: &Posting, txn: &Txn, term: &Term) -> bool
    ensures found { result ≡ spec.term_holds (known_in finder.old) (own_in types.now) posting.now
        txn.now term.now }
    ensures same { known_in finder.new ≡ known_in finder.old }
{
    under(
        term.nots,
        kind_holds(finder, types, posting, txn, &term.kind),
    )
}

fn is_date(kind: &Kind) -> bool
    ensures { result ≡ spec.is_date kind.now }
{
    match kind {
        Kind::Date(_) => true,
        _ => false,
    }
}

/// Whether a term bounds the days of a report.
fn bounds_days(term: &Term) -> bool
    ensures { result ≡ spec.bounds_days term.now.nots term.now.kind }
{
    if term.nots != 0 {
        return false;
    }
    is_date(&term.kind)
}

/// Whether a term holds of what is asked about.
fn holds(finder: &mut Finder, types: &Types, asked: Asked, term: &Term) -> bool
    ensures found { result ≡ asking.holds (known_in finder.old) (own_in types.now) asked.entry
        term.now }
    ensures same { known_in finder.new ≡ known_in finder.old }
{
    match asked {
        Asked::Posting(posting, txn) => term_holds(finder, types, posting, txn, term),
        Asked::Undated(posting, txn) => {
            if is_date(&term.kind) {
                return true;
            }
            term_holds(finder, types, posting, txn, term)
        }
        Asked::Boundless(posting, txn) => {
            if bounds_days(term) {
                return true;
            }
            term_holds(finder, types, posting, txn, term)
        }
        Asked::Txn(txn) => term_holds_of(finder, types, txn, term),
    }
}

fn field_group(field: Field) -> Group
    ensures { result ≡ spec.field_group field }
{
    match field {
        Field::Code => Group::Other,
        _ => Group::Description,
    }
}

fn kind_group(kind: &Kind) -> Group
    ensures { result ≡ spec.kind_group kind.now }
{
    match kind {
        Kind::Said(field, _) => field_group(*field),
        Kind::Account(_) => Group::Account,
        Kind::Status(_) => Group::Status,
        _ => Group::Other,
    }
}

fn group_of(term: &Term) -> Group
    ensures { result ≡ spec.group_of term.now }
{
    if term.nots == 0 {
        kind_group(&term.kind)
    } else {
        Group::Other
    }
}

fn same_group(a: Group, b: Group) -> bool
    ensures { result ≡ spec.same_group a b }
{
    match a {
        Group::Description => b == Group::Description,
        Group::Account => b == Group::Account,
        Group::Status => b == Group::Status,
        Group::Other => b == Group::Other,
    }
}

/// Whether a term of a group holds, or there is none, one term after the other.
fn walk_group(
    finder: &mut Finder,
    types: &Types,
    asked: Asked,
    group: Group,
    terms: &[Term],
) -> bool
    ensures found { result ≡ asking.one_in group
        (asking.holds (known_in finder.old) (own_in types.now) asked.entry) terms.now }
    ensures same { known_in finder.new ≡ known_in finder.old }
{
    let mut none = true;
    for term in terms {
        if same_group(group, group_of(term)) {
            none = false;
            if holds(finder, types, asked, term) {
                return true;
            }
        }
    }
    none
}

/// Whether every term that counts by itself holds, one term after the other.
fn walk_others(finder: &mut Finder, types: &Types, asked: Asked, terms: &[Term]) -> bool
    ensures found { result ≡ asking.all_others
        (asking.holds (known_in finder.old) (own_in types.now) asked.entry) terms.now }
    ensures same { known_in finder.new ≡ known_in finder.old }
{
    for term in terms {
        if same_group(Group::Other, group_of(term)) {
            if !holds(finder, types, asked, term) {
                return false;
            }
        }
    }
    true
}

/// Whether a term of a group holds, or there is none.
#[tactic(auto, using(crate::proofs::Walks::one_is))]
fn one_holds(finder: &mut Finder, types: &Types, asked: Asked, group: Group, terms: &[Term]) -> bool
    ensures found { result ≡ spec.one_holds
        (asking.holds (known_in finder.old) (own_in types.now) asked.entry)
        (spec.among group terms.now) }
    ensures same { known_in finder.new ≡ known_in finder.old }
{
    walk_group(finder, types, asked, group, terms)
}

/// Whether every term that counts by itself holds.
#[tactic(auto, using(crate::proofs::Walks::others_are))]
fn others_hold(finder: &mut Finder, types: &Types, asked: Asked, terms: &[Term]) -> bool
    ensures found { result ≡ list_all
        (asking.holds (known_in finder.old) (own_in types.now) asked.entry)
        (spec.among Group.Other terms.now) }
    ensures same { known_in finder.new ≡ known_in finder.old }
{
    walk_others(finder, types, asked, terms)
}

/// Whether the terms mean what is asked about.
pub(crate) fn matches(finder: &mut Finder, types: &Types, asked: Asked, terms: &[Term]) -> bool
    ensures found { result ≡ spec.matches
        (asking.holds (known_in finder.old) (own_in types.now) asked.entry) terms.now }
    ensures same { known_in finder.new ≡ known_in finder.old }
{
    if !one_holds(finder, types, asked, Group::Description, terms) {
        return false;
    }
    if !one_holds(finder, types, asked, Group::Account, terms) {
        return false;
    }
    if !one_holds(finder, types, asked, Group::Status, terms) {
        return false;
    }
    others_hold(finder, types, asked, terms)
}
