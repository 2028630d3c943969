//! Sums of numbers by their symbols.
ghost use Rattle.std.specs.Prelude.{◌≡◌, IfOk, IfSome, OnOk, IfErr, OnErr, IsTrue, map, [], true, false, Option, option_copied, List};
ghost use Rattle.std.specs.Ordering.{nat_cmp};
ghost use Rattle.std.specs.Cmp.Lexicographic.{slice_cmp};
ghost use Rattle.std.specs.FinMap.Entries.{put};
ghost use Rattle.book.specs.Entries.{held, IsRising};
ghost use Rattle.book.specs.Mixed.{plus, sum_with, fits_with};
ghost use Rattle.entry_balance.specs.Tally.{is_within, are_within, named, only_sum, all_sums, added_to, sums_of, total_of, IsRange};
ghost use Rattle.entry_balance.specs.Values.{Value};

use hl_base::Memory;
use hl_num::{Dec, Range};
use std::alloc::Global;
use std::collections::BTreeMap;
use std::marker::Model;

/// A sum of a symbol.
pub type Sum<'a> = (&'a str, Dec);

/// The sum of each symbol that was added. Contracts see the symbols with their sums, in the order of the symbols.
/// A sum that is the only one stands by itself, so that most tallies take no memory.
#[derive(Drop)]
pub(crate) struct Tally<'a> {
    only: Option<Sum<'a>>,
    sums: BTreeMap<&'a str, Dec>,
}

/// Why a number can't be added: the sum would be out of range, or memory ran out.
#[derive(Clone, Copy, Debug, PartialEq, Eq)]
pub enum TallyFault {
    Range,
    Memory,
}

impl<'a> Model for Tally<'a> {
    ghost use Rattle.std.specs.Prelude.{List, ℕ};
    ghost use Rattle.hl_num.specs.Decimal.{Decimal};
    ghost use Rattle.entry_balance.specs.Tally.{all_sums};

    ghost Value = { List (List ℕ × Decimal) };

    ghost view = { λ t. all_sums t.only t.sums.entries };
}

impl<'a> Tally<'a> {
    /// No sums, which takes no memory.
    pub fn new(alloc: Global) -> Tally<'a>
        ensures { result ≡ [] }
    {
        Tally {
            only: None,
            sums: BTreeMap::new(alloc),
        }
    }

    /// Adds a number to the sum of a symbol.
    pub fn add(&mut self, symbol: &'a str, value: Dec) -> Result<(), TallyFault>
        ensures ok { OnOk result (self.new ≡ added_to self.old symbol.now value) }
        ensures within { OnOk result (are_within self.old ≡ true → are_within self.new ≡ true) }
        ensures range { IfErr result (λ e. IsRange e
            → fits_with (held symbol.now self.old) value ≡ false) }
    {
        if self.sums.is_empty() {
            add_to_only(&mut self.only, &mut self.sums, symbol, value)
        } else {
            add_to(&mut self.sums, symbol, value)
        }
    }

    /// The sum of a symbol, zero where none was added.
    pub fn total(&self, symbol: &str) -> Dec
        ensures { (values : List Value) → self.now ≡ sums_of values
            → result ≡ total_of symbol.now values }
    {
        match self.held(symbol) {
            Some(sum) => sum,
            None => Dec::zero(),
        }
    }

    /// The sum of a symbol, if one was added.
    fn held(&self, symbol: &str) -> Option<Dec>
        ensures { result ≡ held symbol.now self.now }
    {
        if self.sums.is_empty() {
            only_held(&self.only, symbol)
        } else {
            self.sums.get(symbol).copied()
        }
    }

    /// The symbols with their sums.
    pub fn sums(&self, alloc: Global) -> Result<Vec<Sum<'a>>, Memory>
        ensures { IfOk result (λ sums. named sums.items ≡ self.now) }
    {
        if self.sums.is_empty() {
            only_listed(alloc, &self.only)
        } else {
            listed(alloc, &self.sums)
        }
    }
}

/// The only sum, if there is one.
fn only_listed<'a>(alloc: Global, only: &Option<Sum<'a>>) -> Result<Vec<Sum<'a>>, Memory>
    ensures { IfOk result (λ list. named list.items ≡ only_sum only.now) }
{
    let mut list = Vec::new(alloc);
    if let Some(sum) = only {
        match list.push((sum.0, sum.1)) {
            Ok(()) => {}
            Err(_) => return Err(Memory),
        }
    }
    Ok(list)
}

/// The only sum, if it is of a symbol.
fn only_held(only: &Option<Sum>, symbol: &str) -> Option<Dec>
    ensures { result ≡ held symbol.now (only_sum only.now) }
{
    match only {
        Some(sum) => { if symbol == sum.0 { Some(sum.1) } else { None } }
        None => None,
    }
}

/// Adds a number to the only sum, if it is of its symbol; else both go into the map.
fn add_to_only<'a>(
    only: &mut Option<Sum<'a>>,
    sums: &mut BTreeMap<&'a str, Dec>,
    symbol: &'a str,
    value: Dec,
) -> Result<(), TallyFault>
    requires { sums.old.entries ≡ [] }
    ensures ok { OnOk result (all_sums only.new sums.new.entries
        ≡ added_to (only_sum only.old) symbol.now value) }
    ensures within { OnOk result (are_within (only_sum only.old) ≡ true
        → are_within (all_sums only.new sums.new.entries) ≡ true) }
    ensures range { IfErr result (λ e. IsRange e
        → fits_with (held symbol.now (only_sum only.old)) value ≡ false) }
{
    match *only {
        None => {
            *only = Some((symbol, value));
            Ok(())
        }
        Some((first, sum)) => {
            if symbol == first {
                *only = Some((first, checked_sum(sum, value)?));
                Ok(())
            } else {
                put(sums, first, sum)?;
                put(sums, symbol, value)
            }
        }
    }
}

/// Adds a number to the sum of a symbol in a map.
fn add_to<'a>(
    sums: &mut BTreeMap<&'a str, Dec>,
    symbol: &'a str,
    value: Dec,
) -> Result<(), TallyFault>
    ensures ok { OnOk result (named sums.new.entries
        ≡ added_to (named sums.old.entries) symbol.now value) }
    ensures within { OnOk result (are_within (named sums.old.entries) ≡ true
        → are_within (named sums.new.entries) ≡ true) }
    ensures range { IfErr result (λ e. IsRange e
        → fits_with (held symbol.now (named sums.old.entries)) value ≡ false) }
{
    let old = sums.get(symbol).copied();
    let sum = sum_with(old, value)?;
    put(sums, symbol, sum)
}

/// Puts the sum of a symbol into a map.
fn put<'a>(sums: &mut BTreeMap<&'a str, Dec>, symbol: &'a str, sum: Dec) -> Result<(), TallyFault>
    ensures ok { OnOk result (named sums.new.entries
        ≡ put (slice_cmp nat_cmp) symbol.now sum (named sums.old.entries)) }
    ensures fault { IfErr result (λ e. IsRange e → ⊥) }
{
    match sums.insert(symbol, sum) {
        Ok(_) => Ok(()),
        Err(_) => Err(TallyFault::Memory),
    }
}

/// The symbols of a map with their sums.
fn listed<'a>(alloc: Global, sums: &BTreeMap<&'a str, Dec>) -> Result<Vec<Sum<'a>>, Memory>
    ensures { IfOk result (λ list. list.items ≡ sums.now.entries) }
{
    let mut list = Vec::new(alloc);
    for (symbol, sum) in sums {
        match list.push((*symbol, *sum)) {
            Ok(()) => {}
            Err(_) => return Err(Memory),
        }
    }
    Ok(list)
}

/// A number with the sum that is there already.
pub fn sum_with(old: Option<Dec>, value: Dec) -> Result<Dec, TallyFault>
    ensures value { IfOk result (λ sum. sum ≡ sum_with old value) }
    ensures within { IfOk result (λ sum. is_within sum ≡ true) }
    ensures fault { IfErr result (λ e. fits_with old value ≡ false) }
{
    match old {
        Some(sum) => checked_sum(sum, value),
        None => Ok(value),
    }
}

/// The exact sum, with the greater number of places.
pub fn checked_sum(a: Dec, b: Dec) -> Result<Dec, TallyFault>
    ensures value { IfOk result (λ sum. sum ≡ plus a b) }
    ensures within { IfOk result (λ sum. is_within sum ≡ true) }
    ensures fault { IfErr result (λ e. fits_with (Some a) b ≡ false) }
{
    let _places = (a.places, b.places);
    match a.add(b) {
        Ok(sum) => Ok(sum),
        Err(Range { a: _, b: _ }) => Err(TallyFault::Range),
    }
}
