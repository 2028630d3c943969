//! The amounts of one symbol, by their number of decimals.
ghost use Rattle.std.specs.Prelude.{◌≡◌, ◌<◌, ◌==◌, ℕ, length, unsigned_abs, OnOk, [], IfOk};
ghost use Rattle.std.specs.Bool.{OnTrue};
ghost use Rattle.kept_turnover.specs.Keeping.{is_fit, less_at, more_at, no_part, part_at};

use crate::part::{Part, is_within};
use hl_base::Memory;
use hl_num::Dec;
use std::alloc::Global;

/// Makes room for amounts with a number of decimals.
fn fill(parts: &mut Vec<Part>, places: u8) -> Result<(), Memory>
    ensures room { OnOk result (places < length parts.new.items) }
    ensures same { OnOk result ((n : ℕ) → part_at parts.new.items n ≡ part_at parts.old.items n) }
{
    let needed = usize::from(places) + 1;
    if parts.len() < needed {
        parts.resize(needed, Part::none())?;
    }
    Ok(())
}

/// Takes in one more amount of a mantissa, in a place that is there.
fn raise_at(parts: &mut Vec<Part>, places: u8, mantissa: u128) -> Result<(), Memory>
    requires { places < length parts.old.items }
    ensures { OnOk result ((n : ℕ)
        → part_at parts.new.items n ≡ more_at (places == n) mantissa (part_at parts.old.items n)) }
{
    let place = usize::from(places);
    match parts[place].with_number(mantissa) {
        Some(part) => {
            parts[place] = part;
            Ok(())
        }
        None => Err(Memory),
    }
}

/// Takes in one more amount.
pub(crate) fn raise(parts: &mut Vec<Part>, number: Dec) -> Result<(), Memory>
    ensures { OnOk result ((n : ℕ) → part_at parts.new.items n
        ≡ more_at (number.places == n) (unsigned_abs number.mantissa) (part_at parts.old.items n)) }
{
    let places = number.decimals();
    fill(parts, places)?;
    raise_at(parts, places, number.magnitude())
}

/// One amount.
pub(crate) fn first(alloc: Global, number: Dec) -> Result<Vec<Part>, Memory>
    ensures { IfOk result (λ parts. (n : ℕ) → part_at parts.items n
        ≡ more_at (number.places == n) (unsigned_abs number.mantissa) (part_at [] n)) }
{
    let mut parts = Vec::new(alloc);
    raise(&mut parts, number)?;
    Ok(parts)
}

/// Takes an amount off.
pub(crate) fn lower(parts: &mut Vec<Part>, number: Dec)
    ensures { (n : ℕ) → part_at parts.new.items n
        ≡ less_at (number.places == n) (unsigned_abs number.mantissa) (part_at parts.old.items n) }
{
    let place = usize::from(number.decimals());
    if place < parts.len() {
        parts[place] = parts[place].without_number(number.magnitude());
    }
}

/// Whether there are no amounts.
pub(crate) fn are_none(parts: &[Part]) -> bool
    ensures { OnTrue result ((n : ℕ) → part_at parts.now n ≡ no_part) }
{
    for part in parts {
        if !part.is_none() {
            return false;
        }
    }
    true
}

/// Whether the amounts sum to less than 2^127, in units of the greatest number of decimals among them.
pub(crate) fn fit(parts: &[Part]) -> bool
    ensures { result ≡ is_fit parts.now }
{
    let mut sum = 0_u128;
    let mut whole = 0_u128;
    for part in parts {
        sum = part.behind(sum);
        whole = part.chosen(sum, whole);
    }
    is_within(whole)
}
