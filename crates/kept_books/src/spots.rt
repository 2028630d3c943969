//! Where edited transactions stand.
ghost use Rattle.std.specs.Prelude.{◌≡◌, ◌∷◌, ◌++◌, [], ◌+◌, ◌^◌, ◌<◌, IfOk, OnOk, length, map};
ghost use Rattle.std.specs.List.Sorted.{IsPermutation};
ghost use Rattle.reached_walk.specs.Spots.{Rise};
ghost use Rattle.kept_books.specs.Renewing as spec;

use crate::written::Entries;
use book::Txn;
use hl_base::Memory;
use reached_walk::Spot;
use std::alloc::Global;

/// Notes where a transaction stands that has a number.
fn push_spot(spots: &mut Vec<Spot>, number: u64, txn: &Txn) -> Result<(), Memory>
    ensures { OnOk result (spots.new.items
        ≡ spots.old.items ++ record { day = txn.now.day; number = number } ∷ []) }
{
    spots.push(Spot {
        day: txn.day,
        number,
    })?;
    Ok(())
}

/// Where transactions stand that are counted from a number, in the order of their numbers.
fn spots_from(alloc: Global, first: usize, forms: &[&Txn]) -> Result<Vec<Spot>, Memory>
    requires { first + length forms.now < 2 ^ 64 }
    ensures { IfOk result (λ spots. spots.items
        ≡ spec.spots_from first (map (λ t. t.now) forms.now)) }
{
    let mut spots = Vec::new(alloc);
    let mut at = 0;
    while at < forms.len() {
        push_spot(&mut spots, (first + at) as u64, forms[at])?;
        at += 1;
    }
    Ok(spots)
}

/// Puts places in their order: by day, then by number.
fn in_order(mut spots: Vec<Spot>) -> Vec<Spot>
    ensures same { IsPermutation spots.items result.items }
    ensures sorted { spec.IsSorted result.items }
{
    spots.sort_unstable_by_key(|spot| (spot.day.0, spot.number));
    spots
}

/// Where transactions stand that are counted from a number, in the order of their places.
pub(crate) fn spots_of(alloc: Global, first: usize, forms: &Entries) -> Result<Vec<Spot>, Memory>
    requires { first + length forms.now.txns.items < 2 ^ 64 }
    ensures rise { IfOk result (λ spots. Rise spots.items) }
    ensures same { IfOk result (λ spots. IsPermutation
        (spec.spots_from first (map (λ t. t.now) forms.now.txns.items)) spots.items) }
{
    let unordered = spots_from(alloc, first, forms.txns.as_slice())?;
    let spots = in_order(unordered);
    Ok(spots)
}
