//! Sums of numbers by their symbols, which keep the symbols themselves.
ghost use Rattle.std.specs.Prelude.{◌≡◌, [], OnOk, IfErr, IsSomeAnd, Some, true, false, List, filter, option_map};
ghost use Rattle.std.specs.Ordering.{nat_cmp};
ghost use Rattle.std.specs.Cmp.Lexicographic.{slice_cmp};
ghost use Rattle.std.specs.FinMap.Entries.{put};
ghost use Rattle.book.specs.Entries.{held};
ghost use Rattle.book.specs.Mixed.{fits_with, plus};
ghost use Rattle.entry_balance.specs.Tally.{are_within, is_within, added_to, sums_of, total_of, IsRange};
ghost use Rattle.entry_balance.specs.Values.{Value};
ghost use Rattle.assertions.specs.Assertions.{first_of, is_other};
ghost use Rattle.assertions.specs.Texts.{values_in};

use entry_balance::{TallyFault, checked_sum, sum_with};
use hl_base::Memory;
use hl_num::Dec;
use std::alloc::Global;
use std::collections::BTreeMap;
use std::marker::Model;

/// The sum of each symbol that was added. Contracts see the symbols with their sums, in the order of the symbols.
#[derive(Drop)]
pub struct Totals {
    sums: BTreeMap<String, Dec>,
}

impl Model for Totals {
    ghost use Rattle.std.specs.Prelude.{List, ℕ};
    ghost use Rattle.hl_num.specs.Decimal.{Decimal};
    ghost use Rattle.assertions.specs.Texts.{values_in};

    ghost Value = { List (List ℕ × Decimal) };

    ghost view = { λ t. values_in t.sums.entries };
}

impl Totals {
    /// No sums, which takes no memory.
    pub fn new(alloc: Global) -> Totals
        ensures { result ≡ [] }
    {
        Totals {
            sums: BTreeMap::new(alloc),
        }
    }

    /// Adds a number to the sum of a symbol.
    pub fn add(&mut self, alloc: Global, symbol: &str, value: Dec) -> Result<(), TallyFault>
        ensures ok { OnOk result (self.new ≡ added_to self.old symbol.now value) }
        ensures within { OnOk result (are_within self.old ≡ true → are_within self.new ≡ true) }
        ensures range { IfErr result (λ e. IsRange e
            → fits_with (held symbol.now self.old) value ≡ false) }
    {
        if let Some(sum) = self.sums.get_mut(symbol) {
            return raise(sum, value);
        }
        let sum = sum_with(None, value)?;
        insert(alloc, &mut self.sums, symbol, sum)
    }

    /// The sum of a symbol, zero where none was added.
    pub fn total(&self, symbol: &str) -> Dec
        ensures { (values : List Value) → self.now ≡ sums_of values
            → result ≡ total_of symbol.now values }
    {
        match self.held(symbol) {
            Some(sum) => sum,
            None => Dec::zero(),
        }
    }

    /// The sum of a symbol, if one was added.
    fn held(&self, symbol: &str) -> Option<Dec>
        ensures { result ≡ held symbol.now self.now }
    {
        self.sums.get(symbol).copied()
    }

    /// The first sum of another symbol that isn't zero.
    pub fn first_other(&self, symbol: &str) -> Option<(&str, Dec)>
        ensures { option_map (λ sum.
            (sum.0.now, sum.1)) result ≡ first_of (filter (is_other symbol.now) self.now) }
    {
        for (other, sum) in &self.sums {
            if is_other(other, *sum, symbol) {
                return Some((other.as_str(), *sum));
            }
        }
        None
    }
}

/// Whether a sum is of another symbol and isn't zero.
fn is_other(other: &str, sum: Dec, symbol: &str) -> bool
    ensures { result ≡ is_other symbol.now (other.now, sum) }
{
    other != symbol && !sum.is_zero()
}

/// Adds a number to a sum.
fn raise(sum: &mut Dec, value: Dec) -> Result<(), TallyFault>
    ensures value { OnOk result (sum.new ≡ plus sum.old value) }
    ensures within { OnOk result (is_within sum.new ≡ true) }
    ensures fault { IfErr result (λ e. fits_with (Some sum.old) value ≡ false) }
{
    *sum = checked_sum(*sum, value)?;
    Ok(())
}

/// Inserts the sum of a symbol.
fn insert(
    alloc: Global,
    sums: &mut BTreeMap<String, Dec>,
    symbol: &str,
    sum: Dec,
) -> Result<(), TallyFault>
    ensures ok { OnOk result (values_in sums.new.entries
        ≡ put (slice_cmp nat_cmp) symbol.now sum (values_in sums.old.entries)) }
    ensures fault { IfErr result (λ e. IsRange e → ⊥) }
{
    match insert_named(alloc, sums, symbol, sum) {
        Ok(()) => Ok(()),
        Err(Memory) => Err(TallyFault::Memory),
    }
}

/// Inserts the sum of a symbol under a copy of its name.
fn insert_named(
    alloc: Global,
    sums: &mut BTreeMap<String, Dec>,
    symbol: &str,
    sum: Dec,
) -> Result<(), Memory>
    ensures { OnOk result (values_in sums.new.entries
        ≡ put (slice_cmp nat_cmp) symbol.now sum (values_in sums.old.entries)) }
{
    let name = String::from_str(alloc, symbol)?;
    sums.insert(name, sum)?;
    Ok(())
}

/// The sum of a symbol among some sums, zero where there are none.
pub fn total_in(totals: Option<&Totals>, symbol: &str) -> Dec
    ensures { (values : List Value) → IsSomeAnd totals.entry (λ t. t.now ≡ sums_of values)
        → result ≡ total_of symbol.now values }
{
    match totals {
        Some(totals) => totals.total(symbol),
        None => Dec::zero(),
    }
}
