//! Sums by day for each number of decimals.
ghost use Rattle.std.specs.Prelude.{◌≡◌, ◌-ℤ◌, ◌<◌, ◌-◌, ℕ, [], length, map, IfOk};
ghost use Rattle.std.specs.Bool.{OnTrue, OnFalse};
ghost use Rattle.std.specs.Int.{int_wrap, w128};
ghost use Rattle.live_index.specs.Runs.{before, AreRuns};
ghost use Rattle.live_index.specs.Cells.{runs_in, AreSummed, AreOfRows, HasDays, IsTrimmed};
ghost use Rattle.live_index.specs.Series.{IsSeries};

use crate::row::Row;
use crate::runs::{Run, Runs, wrapped_difference};
use hl_base::Memory;
use std::alloc::Global;
use std::marker::Model;

/// Sums by day, one list for each number of decimals, up to the greatest that has sums. Contracts see these lists.
#[derive(Drop)]
pub(crate) struct ByPlaces {
    lists: Vec<Runs>,
}

impl Model for ByPlaces {
    ghost use Rattle.std.specs.Prelude.{List};
    ghost use Rattle.live_index.specs.declared.runs.Run.{Run};
    ghost use Rattle.live_index.specs.Cells.{IsTrimmed};

    ghost Value = { List (List Run) };

    ghost view = { λ s. s.lists.items };

    ghost invariant = { λ s. IsTrimmed s.lists.items };
}

impl ByPlaces {
    /// The sums of the rows of a series.
    pub(crate) fn of(alloc: Global, rows: &[&Row]) -> Result<ByPlaces, Memory>
        requires some { 0 < length rows.now }
        requires series { IsSeries (map (λ r. r.now) rows.now) }
        ensures { IfOk result (λ sums. AreOfRows (map (λ r. r.now) rows.now) sums) }
    {
        Ok(ByPlaces {
            lists: lists_of(alloc, rows)?,
        })
    }

    /// These sums and others.
    pub(crate) fn plus(&self, alloc: Global, other: &ByPlaces) -> Result<ByPlaces, Memory>
        ensures { IfOk result (λ both. AreSummed self.now other.now both) }
    {
        Ok(ByPlaces {
            lists: summed(alloc, &self.lists, &other.lists)?,
        })
    }

    /// Whether sums are left.
    pub(crate) fn has_days(&self) -> bool
        ensures some { OnTrue result (HasDays self.now) }
        ensures none { OnFalse result (self.now ≡ []) }
    {
        !self.lists.is_empty()
    }

    /// The sum of the amounts with a number of decimals from a day to before another, modulo 2^128.
    pub(crate) fn sum_between(&self, places: u8, start: u64, end: u64) -> i128
        ensures { result ≡ int_wrap w128
            (before (runs_in self.now places) end -ℤ before (runs_in self.now places) start) }
    {
        match self.lists.get(usize::from(places)) {
            Some(runs) => wrapped_difference(runs.before(end), runs.before(start)),
            None => 0,
        }
    }
}

/// The sums of the rows of a series.
fn lists_of(alloc: Global, rows: &[&Row]) -> Result<Vec<Runs>, Memory>
    requires some { 0 < length rows.now }
    requires series { IsSeries (map (λ r. r.now) rows.now) }
    ensures sums { IfOk result (λ lists. AreOfRows (map (λ r. r.now) rows.now) lists.items) }
    ensures trimmed { IfOk result (λ lists. IsTrimmed lists.items) }
{
    let row = rows[0];
    let mut lists = no_sums(alloc, usize::from(row.value.places))?;
    lists.push(Runs::of(alloc, rows)?)?;
    shorten(&mut lists);
    Ok(lists)
}

/// So many empty lists of sums.
fn no_sums(alloc: Global, count: usize) -> Result<Vec<Runs>, Memory>
    ensures len { IfOk result (λ sums. length sums.items ≡ count) }
    ensures empty { IfOk result (λ sums. (places : ℕ) → runs_in sums.items places ≡ []) }
{
    let mut sums = Vec::new(alloc);
    while sums.len() < count {
        sums.push(Runs::new(alloc))?;
    }
    Ok(sums)
}

/// The sums of two lists of sums.
fn summed(alloc: Global, first: &[Runs], second: &[Runs]) -> Result<Vec<Runs>, Memory>
    ensures sums { IfOk result (λ sums. AreSummed first.now second.now sums.items) }
    ensures trimmed { IfOk result (λ sums. IsTrimmed sums.items) }
{
    let mut sums = Vec::new(alloc);
    for places in 0..first.len().max(second.len()) {
        let both = Runs::sum(alloc, items_at(first, places), items_at(second, places))?;
        sums.push(both)?;
    }
    shorten(&mut sums);
    Ok(sums)
}

/// The sums with a number of decimals.
fn items_at(sums: &[Runs], places: usize) -> &[Run]
    ensures all { result.now ≡ runs_in sums.now places }
    ensures kept { AreRuns result.now }
{
    match sums.get(places) {
        Some(runs) => runs.items(),
        None => &[],
    }
}

/// Takes empty sums away from the end.
fn shorten(sums: &mut Vec<Runs>)
    ensures same { (places : ℕ) → runs_in sums.new.items places ≡ runs_in sums.old.items places }
    ensures trimmed { IsTrimmed sums.new.items }
{
    while ends_empty(sums) {
        let _ = sums.pop();
    }
}

/// Whether the last sums are empty.
fn ends_empty(sums: &[Runs]) -> bool
    ensures some { OnTrue result (0 < length sums.now) }
    ensures empty { OnTrue result (runs_in sums.now (length sums.now - 1) ≡ []) }
    ensures trimmed { OnFalse result (IsTrimmed sums.now) }
{
    match sums.last() {
        Some(runs) => runs.is_empty(),
        None => false,
    }
}
