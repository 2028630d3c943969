//! Where a transaction stands in the order in which a journal is checked.
ghost use Rattle.std.specs.Prelude.{◌≡◌, ◌==◌, ◌<◌, ◌^◌, Some, drop, length};
ghost use Rattle.std.specs.List.{slice_get};
ghost use Rattle.reached_walk.specs.Spots as spec;

use hl_time::Day;
use watchers::Place;

/// Where a transaction stands: its day, and its number in the text, counted from 0.
#[derive(Clone, Copy, Debug, PartialEq, Eq)]
pub struct Spot {
    pub day: Day,
    pub number: u64,
}

impl Spot {
    /// Whether it stands before another one: by day, then by number.
    pub(crate) fn is_before(&self, other: &Spot) -> bool
        ensures { result ≡ spec.is_before self.now other.now }
    {
        self.day.0 < other.day.0 || (self.day.0 == other.day.0 && self.number < other.number)
    }

    pub(crate) fn is_same(&self, other: &Spot) -> bool
        ensures { result ≡ spec.is_same self.now other.now }
    {
        self.day.0 == other.day.0 && self.number == other.number
    }
}

/// Where the transaction of a posting stands.
pub(crate) fn spot_at(place: &Place) -> Spot
    ensures spot { result ≡ spec.spot_at place.now }
    ensures small { place.now.posting < 2 ^ 64 }
{
    let _posting = place.posting;
    Spot {
        day: place.day,
        number: place.txn,
    }
}

/// The earlier of two, where there are two.
pub(crate) fn sooner(a: Option<Spot>, b: Option<Spot>) -> Option<Spot>
    ensures { result ≡ spec.sooner a b }
{
    match a {
        None => b,
        Some(first) => match b {
            None => Some(first),
            Some(second) => Some(sooner_of(first, second)),
        },
    }
}

/// The earlier of two.
fn sooner_of(a: Spot, b: Spot) -> Spot
    ensures { result ≡ spec.sooner_of a b }
{
    if b.is_before(&a) { b } else { a }
}

/// Whether the next one, if there is one, is this.
pub(crate) fn is_due(next: Option<Spot>, spot: Spot) -> bool
    ensures { result ≡ spec.is_due next spot }
{
    match next {
        Some(next) => next.is_same(&spot),
        None => false,
    }
}

/// The first of the places from an index on, if there is one.
pub(crate) fn first_from(spots: &[Spot], at: usize) -> Option<Spot>
    ensures { result ≡ spec.first_of (drop at spots.now) }
{
    match spots.get(at) {
        Some(spot) => Some(*spot),
        None => None,
    }
}

/// From which index on places are still to come once a transaction was answered: behind the first of them, where it is that.
pub(crate) fn passed(spots: &[Spot], at: usize, spot: Spot) -> usize
    ensures { drop result spots.now ≡ spec.waiting (drop at spots.now) spot }
{
    match spots.get(at) {
        Some(next) => behind(spots, at, next, spot),
        None => at,
    }
}

fn behind(spots: &[Spot], at: usize, next: &Spot, spot: Spot) -> usize
    requires inside { at < length spots.now }
    requires there { slice_get spots.now at ≡ Some next.now }
    ensures { drop result spots.now ≡ spec.waiting (drop at spots.now) spot }
{
    let _count = spots.len();
    if is_number(next, spot.number) {
        at + 1
    } else {
        at
    }
}

fn is_number(spot: &Spot, number: u64) -> bool
    ensures { result ≡ (spot.now.number == number) }
{
    spot.number == number
}
