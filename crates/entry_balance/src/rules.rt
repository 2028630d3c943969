//! The rules by which sums count as zero, and by which one symbol is exchanged for another.
ghost use Rattle.std.specs.Prelude.{◌≡◌, ◌++◌, ◌∷◌, [], ◌==◌, ℕ, List, true, false, not, filter, count_by, IfOk, Option, option_map};
ghost use Rattle.std.specs.List.{list_any};
ghost use Rattle.std.specs.Str.{bytes_eq};
ghost use Rattle.entry_balance.specs.Values.{Value, value_of};
ghost use Rattle.entry_balance.specs.Tally.{named, numbers_of};
ghost use Rattle.entry_balance.specs.Entry.{is_assignment, has_assignment, is_absent, absent_count, lacks_two, is_date_tag, is_dated, assignment_fault, is_assignable, is_missing, misses, missing_count, has_two_missing, written_amount, written_amounts, written_cost, written_costs, places_among, precision_of, is_nothing_at, are_opposite, is_positive, is_plain, are_plain, is_of, is_real_of, is_of_either, is_not_of, second_is_first, recorded, recorded_between};
ghost use Rattle.book.specs.declared.transaction.Side.TheVariants.{Real};

use crate::sums::same_side;
use crate::tally::Sum;
use crate::value::absolute;
use book::{Amount, Cause, Cost, Posting, Side, Tag};
use hl_base::{Memory, Text};
use hl_num::Dec;
use std::alloc::Global;

/// How many postings of a side have no amount.
fn missing(postings: &[Posting], side: Side) -> usize
    ensures { result ≡ missing_count side postings.now }
{
    postings
        .iter()
        .filter(|posting| is_missing(side, posting))
        .count()
}

/// Whether a posting is of a side and has no amount.
fn is_missing(side: Side, posting: &Posting) -> bool
    ensures { result ≡ is_missing side posting.now }
{
    same_side(side, posting.side) && posting.amount.is_none()
}

/// Whether an amount of a side is missing.
pub(crate) fn misses(postings: &[Posting], side: Side) -> bool
    ensures { result ≡ misses side postings.now }
{
    0 < missing(postings, side)
}

/// Whether more amounts are missing than one real and one balanced virtual one.
pub(crate) fn has_two_missing(postings: &[Posting]) -> bool
    ensures { result ≡ has_two_missing postings.now }
{
    1 < missing(postings, Side::Real)
        || 1 < missing(postings, Side::Balanced)
        || misses(postings, Side::Free)
}

/// Whether a posting has no amount but an assertion.
fn is_assignment(posting: &Posting) -> bool
    ensures { result ≡ is_assignment posting.now }
{
    posting.amount.is_none() && posting.wanted.is_some()
}

/// Whether a posting is an assignment.
pub(crate) fn has_assignment(postings: &[Posting]) -> bool
    ensures { result ≡ has_assignment postings.now }
{
    postings.iter().any(is_assignment)
}

/// Whether a posting is of a side and has neither an amount nor an assertion.
fn is_absent(side: Side, posting: &Posting) -> bool
    ensures { result ≡ is_absent side posting.now }
{
    is_missing(side, posting) && posting.wanted.is_none()
}

/// How many postings of a side have neither an amount nor an assertion.
fn absent(postings: &[Posting], side: Side) -> usize
    ensures { result ≡ absent_count side postings.now }
{
    postings
        .iter()
        .filter(|posting| is_absent(side, posting))
        .count()
}

/// Whether beside assignments more amounts are missing than one real and one balanced virtual one.
fn lacks_two(postings: &[Posting]) -> bool
    ensures { result ≡ lacks_two postings.now }
{
    1 < absent(postings, Side::Real)
        || 1 < absent(postings, Side::Balanced)
        || 0 < absent(postings, Side::Free)
}

/// Whether a tag is named `date`.
fn is_date_tag(tag: &Tag) -> bool
    ensures { result ≡ is_date_tag tag.now }
{
    tag.name.as_str() == "date"
}

/// Whether a posting has a tag named `date`.
fn has_date_tag(posting: &Posting) -> bool
    ensures { result ≡ list_any is_date_tag posting.now.tags }
{
    posting.tags.as_slice().iter().any(is_date_tag)
}

/// Whether a posting has a tag named `date`, or a day of its own.
fn is_dated(posting: &Posting) -> bool
    ensures { result ≡ is_dated posting.now }
{
    posting.day.is_some() || has_date_tag(posting)
}

/// Whether a posting is dated.
fn has_dated(postings: &[Posting]) -> bool
    ensures { result ≡ list_any is_dated postings.now }
{
    postings.iter().any(is_dated)
}

/// What is wrong with a transaction that has an assignment, before any amount is known.
pub(crate) fn assignment_fault(postings: &[Posting]) -> Option<Cause>
    ensures { result ≡ assignment_fault postings.now }
{
    if lacks_two(postings) {
        Some(Cause::TwoMissing)
    } else if has_dated(postings) {
        Some(Cause::NotAllowed)
    } else {
        None
    }
}

/// Whether a transaction has assignments, and they can be made.
pub fn is_assignable(postings: &[Posting]) -> bool
    ensures { result ≡ is_assignable postings.now }
{
    has_assignment(postings) && assignment_fault(postings).is_none()
}

/// The sums that don't count as zero.
pub(crate) fn left_over<'a>(
    alloc: Global,
    postings: &[Posting],
    sums: &[Sum<'a>],
) -> Result<Vec<Sum<'a>>, Memory>
    ensures { IfOk result (λ left. named left.items
        ≡ filter (λ sum.
        not (is_nothing_at (precision_of sum.0 postings.now) sum.1)) (named sums.now)) }
{
    let mut left = Vec::new(alloc);
    for sum in sums {
        if !counts_as_zero(postings, sum.0, sum.1) {
            match left.push((sum.0, sum.1)) {
                Ok(()) => {}
                Err(_) => return Err(Memory),
            }
        }
    }
    Ok(left)
}

/// Whether a sum of a symbol is zero when it is rounded to the decimals of its symbol.
fn counts_as_zero(postings: &[Posting], symbol: &str, sum: Dec) -> bool
    ensures { result ≡ is_nothing_at (precision_of symbol.now postings.now) sum }
{
    if sum.is_zero() {
        return true;
    }
    match precision(postings, symbol) {
        Some(places) => sum.round_half_even(places).is_zero(),
        None => false,
    }
}

/// The decimals by which a sum of a symbol is judged.
fn precision(postings: &[Posting], symbol: &str) -> Option<u8>
    ensures { result ≡ precision_of symbol.now postings.now }
{
    match amount_places(postings, symbol) {
        Some(places) => Some(places),
        None => cost_places(postings, symbol),
    }
}

/// The most decimals that amounts of a symbol are written with.
fn amount_places(postings: &[Posting], symbol: &str) -> Option<u8>
    ensures { result ≡ places_among (numbers_of symbol.now (written_amounts postings.now)) }
{
    let mut most = None;
    for posting in postings {
        most = match &posting.amount {
            Some(amount) if !posting.filled => wider(most, symbol, amount),
            _ => most,
        };
    }
    most
}

/// The most decimals that costs of a symbol are written with.
fn cost_places(postings: &[Posting], symbol: &str) -> Option<u8>
    ensures { result ≡ places_among (numbers_of symbol.now (written_costs postings.now)) }
{
    let mut most = None;
    for posting in postings {
        most = match &posting.cost {
            Some(cost) => wider(most, symbol, cost.get().amount()),
            None => most,
        };
    }
    most
}

/// The most decimals of a symbol, after one more amount.
fn wider(most: Option<u8>, symbol: &str, amount: &Amount) -> Option<u8>
    ensures { (before : List Value) → most ≡ places_among (numbers_of symbol.now before)
        → result ≡ places_among (numbers_of symbol.now (before ++ value_of amount.now ∷ [])) }
{
    if amount.symbol.as_str() != symbol {
        return most;
    }
    let places = amount.value.places;
    match most {
        Some(most) => Some(most.max(places)),
        None => Some(places),
    }
}

/// Whether of two sums that are left one is above zero and the other isn't.
pub(crate) fn are_opposite(left: &[Sum]) -> bool
    ensures { result ≡ are_opposite (named left.now) }
{
    if left.len() != 2 {
        return false;
    }
    is_positive(left[0].1) != is_positive(left[1].1)
}

/// Whether a number is above zero.
fn is_positive(number: Dec) -> bool
    ensures { result ≡ is_positive number }
{
    !number.is_negative() && !number.is_zero()
}

/// Whether each posting has an amount and none a cost.
pub(crate) fn are_plain(postings: &[Posting]) -> bool
    ensures { result ≡ are_plain postings.now }
{
    postings.iter().all(is_plain)
}

/// Whether a posting has an amount and no cost.
fn is_plain(posting: &Posting) -> bool
    ensures { result ≡ is_plain posting.now }
{
    posting.amount.is_some() && posting.cost.is_none()
}

/// A symbol with a number of it.
pub(crate) type Found = (Text, Dec);

/// A symbol, and the total cost that is recorded at its one posting.
pub(crate) type Recorded = (Text, Found);

/// The cost that is recorded where the two sums that are left stand against each other: at the one real posting of
/// the symbol that stands first.
pub(crate) fn recorded_between(
    alloc: Global,
    postings: &[Posting],
    left: &[Sum],
) -> Result<Option<Recorded>, Memory>
    ensures { IfOk result (λ cost. cost ≡ recorded_between (named left.now) postings.now) }
{
    if left.len() != 2 {
        return Ok(None);
    }
    let a = left[0].0;
    let b = left[1].0;
    if second_is_first(postings, a, b) {
        recorded(alloc, postings, b, a, left[0].1)
    } else {
        recorded(alloc, postings, a, b, left[1].1)
    }
}

/// Whether the first real posting that has one of two symbols hasn't the first of them.
fn second_is_first(postings: &[Posting], a: &str, b: &str) -> bool
    ensures { result ≡ second_is_first a.now b.now postings.now }
{
    for posting in postings {
        if is_of_either(posting, a, b) {
            return !is_real_of(posting, a);
        }
    }
    false
}

/// Whether a posting is real and its amount is of one of two symbols.
fn is_of_either(posting: &Posting, a: &str, b: &str) -> bool
    ensures { result ≡ is_of_either a.now b.now posting.now }
{
    is_real_of(posting, a) || is_real_of(posting, b)
}

/// Whether a posting is real and its amount is of a symbol.
pub(crate) fn is_real_of(posting: &Posting, symbol: &str) -> bool
    ensures { result ≡ is_real_of symbol.now posting.now }
{
    same_side(Side::Real, posting.side) && is_of(&posting.amount, symbol)
}

/// Whether an amount is there and is of a symbol.
fn is_of(amount: &Option<Amount>, symbol: &str) -> bool
    ensures { result ≡ is_of symbol.now amount.now }
{
    match amount {
        Some(amount) => amount.symbol.as_str() == symbol,
        None => false,
    }
}

/// The cost that is recorded at the one real posting of a symbol, if there is one: so much of another symbol.
fn recorded(
    alloc: Global,
    postings: &[Posting],
    symbol: &str,
    other: &str,
    sum: Dec,
) -> Result<Option<Recorded>, Memory>
    ensures { IfOk result (λ cost. cost ≡ recorded symbol.now (other.now, sum) postings.now) }
{
    if real_count(postings, symbol) != 1 {
        return Ok(None);
    }
    let symbol = Text::copied(alloc, symbol)?;
    let other = Text::copied(alloc, other)?;
    Ok(Some((symbol, (other, absolute(sum)))))
}

/// How many real postings have an amount of a symbol.
fn real_count(postings: &[Posting], symbol: &str) -> usize
    ensures { result ≡ count_by (is_real_of symbol.now) postings.now }
{
    postings
        .iter()
        .filter(|posting| is_real_of(posting, symbol))
        .count()
}
