//! Sums that are kept for the accounts that assertions ask for.
ghost use Rattle.std.specs.Prelude.{◌≡◌, ◌++◌, ◌∷◌, [], ◌<◌, true, false, length, slice_index_or, slice_set, List, ℕ, OnOk, IfOk, IfErr, IsSomeAnd};
ghost use Rattle.std.specs.Ordering.{nat_cmp};
ghost use Rattle.std.specs.Cmp.Lexicographic.{slice_cmp};
ghost use Rattle.std.specs.FinMap.Entries.{put};
ghost use Rattle.book.specs.Entries.{held};
ghost use Rattle.book.specs.Mixed.{fits_with};
ghost use Rattle.entry_balance.specs.Values.{Value};
ghost use Rattle.entry_balance.specs.Tally.{sums_of, added_to, turnover_fits, IsRange};
ghost use Rattle.assertions.specs.Kept.{IsKept, keeps, no_values, and_at};
ghost use Rattle.assertions.specs.Texts.{names_in, places_in};

use crate::totals::Totals;
use entry_balance::TallyFault;
use hl_base::Memory;
use hl_num::Dec;
use std::alloc::Global;
use std::collections::BTreeMap;
use std::marker::Model;

/// The sums of each account that is asked for. Contracts see the accounts, the place of each, and the sums of each.
#[derive(Drop)]
pub struct Kept {
    names: Vec<Vec<u8>>,
    places: BTreeMap<Vec<u8>, usize>,
    totals: Vec<Totals>,
}

impl Model for Kept {
    ghost use Rattle.assertions.specs.Kept.{Keeping};
    ghost use Rattle.assertions.specs.Texts.{names_in, places_in};

    ghost Value = { Keeping };

    ghost view = { λ k. (names_in k.names.items, places_in k.places.entries, k.totals.items) };
}

impl Kept {
    /// No accounts, which takes no memory.
    pub fn new(alloc: Global) -> Kept
        ensures { IsKept no_values result }
    {
        Kept {
            names: Vec::new(alloc),
            places: BTreeMap::new(alloc),
            totals: Vec::new(alloc),
        }
    }

    /// Whether no account is asked for.
    pub fn is_empty(&self) -> bool
        ensures { result ≡ true → self.now.0 ≡ [] }
    {
        self.names.is_empty()
    }

    /// Keeps the sums of an account from now on.
    pub fn ask(&mut self, alloc: Global, name: &[u8]) -> Result<(), Memory>
        ensures fresh { OnOk result (IsKept no_values self.old → IsKept no_values self.new) }
        ensures keeps { OnOk result (keeps name.now self.new ≡ true) }
        ensures stays { OnOk result ((a : List ℕ) → keeps a self.old ≡ true
            → keeps a self.new ≡ true) }
    {
        if place_of(&self.places, name).is_some() {
            return Ok(());
        }
        let place = self.names.len();
        push_name(alloc, &mut self.names, name)?;
        push_totals(alloc, &mut self.totals)?;
        put_place(alloc, &mut self.places, name, place)
    }

    /// Adds a number to the sum of a symbol of an account, if it is asked for.
    pub fn add(
        &mut self,
        alloc: Global,
        name: &[u8],
        symbol: &str,
        value: Dec,
    ) -> Result<(), TallyFault>
        ensures ok { OnOk result ((values : List ℕ → List Value) → IsKept values self.old
            → IsKept (and_at values name.now (symbol.now, value)) self.new) }
        ensures places { OnOk result (self.new.1 ≡ self.old.1) }
        ensures range { IfErr result (λ e. IsRange e → (values : List ℕ → List Value)
            → IsKept values self.old
            → turnover_fits (values name.now ++ (symbol.now, value) ∷ []) ≡ false) }
    {
        match place_of(&self.places, name) {
            Some(place) => add_at(alloc, &mut self.totals, place, symbol, value),
            None => Ok(()),
        }
    }

    /// The sums of an account.
    pub fn totals(&self, name: &[u8]) -> Option<&Totals>
        ensures { (values : List ℕ → List Value) → IsKept values self.now
            → keeps name.now self.now ≡ true
            → IsSomeAnd result (λ totals. totals.now ≡ sums_of (values name.now)) }
    {
        match place_of(&self.places, name) {
            Some(place) => self.totals.get(place),
            None => None,
        }
    }
}

/// The place of an account.
fn place_of(places: &BTreeMap<Vec<u8>, usize>, name: &[u8]) -> Option<usize>
    ensures { result ≡ held name.now (places_in places.now.entries) }
{
    places.get(name).copied()
}

fn push_name(alloc: Global, names: &mut Vec<Vec<u8>>, name: &[u8]) -> Result<(), Memory>
    ensures { OnOk result (names_in names.new.items ≡ names_in names.old.items ++ name.now ∷ []) }
{
    let copy = copied_name(alloc, name)?;
    names.push(copy)?;
    Ok(())
}

fn copied_name(alloc: Global, name: &[u8]) -> Result<Vec<u8>, Memory>
    ensures { IfOk result (λ copy. copy.items ≡ name.now) }
{
    let mut copy = Vec::with_capacity(alloc, name.len())?;
    copy.extend_from_slice(name)?;
    Ok(copy)
}

fn push_totals(alloc: Global, totals: &mut Vec<Totals>) -> Result<(), Memory>
    ensures { OnOk result (totals.new.items ≡ totals.old.items ++ [] ∷ []) }
{
    match totals.push(Totals::new(alloc)) {
        Ok(()) => Ok(()),
        Err(_) => Err(Memory),
    }
}

fn put_place(
    alloc: Global,
    places: &mut BTreeMap<Vec<u8>, usize>,
    name: &[u8],
    place: usize,
) -> Result<(), Memory>
    ensures { OnOk result (places_in places.new.entries
        ≡ put (slice_cmp nat_cmp) name.now place (places_in places.old.entries)) }
{
    let copy = copied_name(alloc, name)?;
    put_copy(places, copy, place)
}

fn put_copy(
    places: &mut BTreeMap<Vec<u8>, usize>,
    copy: Vec<u8>,
    place: usize,
) -> Result<(), Memory>
    ensures { OnOk result (places_in places.new.entries
        ≡ put (slice_cmp nat_cmp) copy.items place (places_in places.old.entries)) }
{
    places.insert(copy, place)?;
    Ok(())
}

/// Adds a number to the sum of a symbol at a place.
fn add_at(
    alloc: Global,
    totals: &mut Vec<Totals>,
    place: usize,
    symbol: &str,
    value: Dec,
) -> Result<(), TallyFault>
    ensures ok { OnOk result ((old : List Value) → place < length totals.old.items
        → slice_index_or totals.old.items place [] ≡ old
        → totals.new.items ≡ slice_set totals.old.items place (added_to old symbol.now value)) }
    ensures range { IfErr result (λ e. IsRange e
        → fits_with (held symbol.now (slice_index_or totals.old.items place [])) value ≡ false) }
{
    if totals.len() <= place {
        return Ok(());
    }
    totals[place].add(alloc, symbol, value)
}
