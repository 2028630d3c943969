//! The places of one day, with a transaction more and without one.
ghost use Rattle.std.specs.Prelude.{◌≡◌, ◌≤◌, IfOk, length, take, drop};
ghost use Rattle.placed_sums.specs.Days.{numbers_in};
ghost use Rattle.placed_sums.specs.Placing.{without_number};
ghost use Rattle.shared_days.specs.Places as spec;

use hl_base::Memory;
use hl_time::Day;
use placed_sums::OnDay;
use std::alloc::Global;

/// Whether a place has a lower number.
fn is_lower(place: &OnDay, number: usize) -> bool
    ensures { result ≡ spec.is_lower number place.now }
{
    place.number < number
}

/// How many places at the front have lower numbers.
fn lower_count(places: &[OnDay], number: usize) -> usize
    ensures count { result ≡ spec.lower_count number places.now }
    ensures within { result ≤ length places.now }
{
    let mut at = 0;
    while at < places.len() {
        let lower = is_lower(&places[at], number);
        if !lower {
            return at;
        }
        at += 1;
    }
    at
}

/// So many places at the front.
fn front_of(places: &[OnDay], count: usize) -> &[OnDay]
    requires { count ≤ length places.now }
    ensures { result.now ≡ take count places.now }
{
    let (front, _) = places.split_at(count);
    front
}

/// The places behind them.
fn back_of(places: &[OnDay], count: usize) -> &[OnDay]
    requires { count ≤ length places.now }
    ensures { result.now ≡ drop count places.now }
{
    let (_, back) = places.split_at(count);
    back
}

/// The places at the front that have lower numbers.
pub(crate) fn lower_front(places: &[OnDay], number: usize) -> &[OnDay]
    ensures { result.now ≡ spec.lower_front number places.now }
{
    let count = lower_count(places, number);
    front_of(places, count)
}

/// The others, without the first where it has the number.
fn past_number(places: &[OnDay], number: usize) -> &[OnDay]
    ensures { result.now ≡ spec.past_number number places.now }
{
    match places.split_first() {
        Some((first, rest)) => past_first(places, first, rest, number),
        None => places,
    }
}

fn past_first<'a>(
    places: &'a [OnDay],
    first: &OnDay,
    rest: &'a [OnDay],
    number: usize,
) -> &'a [OnDay]
    ensures { result.now ≡ spec.past_first number places.now first.now rest.now }
{
    if first.number == number { rest } else { places }
}

/// The places with that of a transaction under a number, which takes time for those of the day.
pub(crate) fn with_number(
    alloc: Global,
    day: Day,
    places: &[OnDay],
    number: usize,
) -> Result<Vec<OnDay>, Memory>
    ensures { IfOk result
        (λ new. numbers_in new.items ≡ spec.with_number number (numbers_in places.now)) }
{
    let count = lower_count(places, number);
    let front = front_of(places, count);
    let back = back_of(places, count);
    let rest = past_number(back, number);
    let mut new = Vec::from_slice(alloc, front)?;
    new.push(OnDay { day, number })?;
    new.extend_from_slice(rest)?;
    Ok(new)
}

/// The places without that of the transaction under a number.
pub(crate) fn without_number(
    alloc: Global,
    places: &[OnDay],
    number: usize,
) -> Result<Vec<OnDay>, Memory>
    ensures { IfOk result (λ new. numbers_in new.items ≡ spec.left number (numbers_in places.now)) }
{
    let mut new = Vec::from_slice(alloc, places)?;
    leave_out(&mut new, number);
    Ok(new)
}

fn leave_out(places: &mut Vec<OnDay>, number: usize)
    ensures { places.new.items ≡ without_number number places.old.items }
{
    places.retain(|place| place.number != number);
}
