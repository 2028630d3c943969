//! Sums of amounts by day.
ghost use Rattle.std.specs.Prelude.{◌≡◌, ◌<◌, ◌≤◌, ◌++◌, ◌+ℤ◌, ◌-ℤ◌, ◌⊎◌, [], pos, drop, length, map, IfOk, OnOk, IsTrue, ◌↔◌, if◌then◌else◌};
ghost use Rattle.std.specs.Int.{int_wrap, w128};
ghost use Rattle.live_index.specs.Runs.{IsRising, before, place_in, sum_at, changed, earlier_of, AreTogether, AreRuns};
ghost use Rattle.live_index.specs.Series.{IsSeries, AreDaysOf};

use crate::row::Row;
use crate::series::ends_day;
use hl_base::Memory;
use hl_time::Day;
use std::alloc::Global;
use std::cmp::Ordering;
use std::marker::Model;

/// The sum of the amounts up to a day, modulo 2^128.
#[derive(Clone, Copy, Debug)]
pub(crate) struct Run {
    pub(crate) day: Day,
    pub(crate) sum: i128,
}

/// Sums of amounts by day: each day on which the sum changes, with the sum up to it. Contracts see these in turn.
#[derive(Drop)]
pub(crate) struct Runs {
    items: Vec<Run>,
}

impl Model for Runs {
    ghost use Rattle.std.specs.Prelude.{List};
    ghost use Rattle.live_index.specs.declared.runs.Run.{Run};
    ghost use Rattle.live_index.specs.Runs.{AreRuns};

    ghost Value = { List Run };

    ghost view = { λ r. r.items.items };

    ghost invariant = { λ r. AreRuns r.items.items };
}

impl Runs {
    /// No amounts.
    pub(crate) fn new(alloc: Global) -> Runs
        ensures { result ≡ [] }
    {
        Runs {
            items: Vec::new(alloc),
        }
    }

    /// The amounts of the rows of a series.
    pub(crate) fn of(alloc: Global, rows: &[&Row]) -> Result<Runs, Memory>
        requires { IsSeries (map (λ r. r.now) rows.now) }
        ensures { IfOk result (λ runs. AreDaysOf (map (λ r. r.now) rows.now) runs) }
    {
        Ok(Runs {
            items: days_of(alloc, rows)?,
        })
    }

    /// The sums of two lists of amounts.
    pub(crate) fn sum(alloc: Global, first: &[Run], second: &[Run]) -> Result<Runs, Memory>
        requires first { AreRuns first.now }
        requires second { AreRuns second.now }
        ensures { IfOk result (λ both. AreTogether first.now second.now both) }
    {
        Ok(Runs {
            items: together(alloc, first, second)?,
        })
    }

    pub(crate) fn is_empty(&self) -> bool
        ensures { IsTrue result ↔ (self.now ≡ []) }
    {
        self.items.is_empty()
    }

    /// The days on which the sum changes.
    pub(crate) fn items(&self) -> &[Run]
        ensures all { result.now ≡ self.now }
        ensures kept { AreRuns self.now }
    {
        &self.items
    }

    /// The sum of the amounts before a day, modulo 2^128.
    pub(crate) fn before(&self, end: u64) -> i128
        ensures { result ≡ before self.now end }
    {
        let at = place_of(&self.items, end);
        sum_at(&self.items, at)
    }
}

/// The sums of the rows of a series by one pass: with the last row of each day the sum up to it.
fn days_of(alloc: Global, rows: &[&Row]) -> Result<Vec<Run>, Memory>
    requires { IsSeries (map (λ r. r.now) rows.now) }
    ensures sums { IfOk result (λ runs. AreDaysOf (map (λ r. r.now) rows.now) runs.items) }
    ensures kept { IfOk result (λ runs. AreRuns runs.items) }
{
    let mut runs = Vec::new(alloc);
    let mut earlier = 0;
    let mut sum = 0;
    for at in 0..rows.len() {
        let row = rows[at];
        sum = wrapped_sum(sum, row.value.mantissa);
        let ends = ends_day(rows, at);
        earlier = push_last(&mut runs, row.day, sum, earlier, ends)?;
    }
    Ok(runs)
}

/// Puts a day last where its last row was added, unless its sum is that of the day before it. Answers the sum of the
/// last day that has ended.
fn push_last(
    runs: &mut Vec<Run>,
    day: Day,
    sum: i128,
    earlier: i128,
    ends: bool,
) -> Result<i128, Memory>
    ensures sum { IfOk result (λ last. last ≡ if ends then sum else earlier) }
    ensures put { OnOk result (runs.new.items ≡ runs.old.items
        ++ (if ends then changed earlier (record { day = day; sum = sum }) [] else [])) }
{
    if !ends {
        return Ok(earlier);
    }
    push_changed(runs, Run { day, sum }, earlier)?;
    Ok(sum)
}

/// Puts a day last, unless its sum is that of the day before it.
fn push_changed(runs: &mut Vec<Run>, run: Run, earlier: i128) -> Result<(), Memory>
    ensures { OnOk result (runs.new.items ≡ runs.old.items ++ changed earlier run []) }
{
    if run.sum != earlier {
        runs.push(run)?;
    }
    Ok(())
}

/// The sums of two lists of amounts, by one walk along both.
fn together(alloc: Global, first: &[Run], second: &[Run]) -> Result<Vec<Run>, Memory>
    requires first { AreRuns first.now }
    requires second { AreRuns second.now }
    ensures sums { IfOk result (λ both. AreTogether first.now second.now both.items) }
    ensures kept { IfOk result (λ both. AreRuns both.items) }
{
    let mut both = Vec::with_capacity(alloc, first.len().max(second.len()))?;
    let mut at = 0;
    let mut other = 0;
    while at < first.len() || other < second.len() {
        let earlier = sum_of_both(first, at, second, other);
        match earlier_of(first, at, second, other) {
            Ordering::Less => {
                let day = first[at].day;
                at += 1;
                let sum = sum_of_both(first, at, second, other);
                push_changed(&mut both, Run { day, sum }, earlier)?;
            }
            Ordering::Equal => {
                let day = first[at].day;
                at += 1;
                other += 1;
                let sum = sum_of_both(first, at, second, other);
                push_changed(&mut both, Run { day, sum }, earlier)?;
            }
            Ordering::Greater => {
                let day = second[other].day;
                other += 1;
                let sum = sum_of_both(first, at, second, other);
                push_changed(&mut both, Run { day, sum }, earlier)?;
            }
        }
    }
    Ok(both)
}

/// Which of two lists has the earlier day next.
fn earlier_of(first: &[Run], at: usize, second: &[Run], other: usize) -> Ordering
    ensures { result ≡ earlier_of (drop at first.now) (drop other second.now) }
{
    if first.len() <= at {
        Ordering::Greater
    } else if second.len() <= other {
        Ordering::Less
    } else {
        first[at].day.0.cmp(&second[other].day.0)
    }
}

/// The sum of two lists up to places of theirs, modulo 2^128.
fn sum_of_both(first: &[Run], at: usize, second: &[Run], other: usize) -> i128
    requires first { at ≤ length first.now }
    requires second { other ≤ length second.now }
    ensures { result ≡ int_wrap w128
        (sum_at (pos 0) first.now at +ℤ sum_at (pos 0) second.now other) }
{
    wrapped_sum(sum_at(first, at), sum_at(second, other))
}

/// How many of the days come before a day.
fn place_of(runs: &[Run], end: u64) -> usize
    requires { IsRising 0 runs.now }
    ensures { result ≡ place_in runs.now end }
{
    let mut low = 0;
    let mut high = runs.len();
    while low < high {
        let middle = low + (high - low) / 2;
        if u64::from(runs[middle].day.0) < end {
            low = middle + 1;
        } else {
            high = middle;
        }
    }
    low
}

/// The sum of the last of the first days.
fn sum_at(runs: &[Run], place: usize) -> i128
    requires { place ≤ length runs.now }
    ensures { result ≡ sum_at (pos 0) runs.now place }
{
    if place == 0 { 0 } else { runs[place - 1].sum }
}

/// The sum modulo 2^128.
pub(crate) fn wrapped_sum(a: i128, b: i128) -> i128
    ensures { result ≡ int_wrap w128 (a +ℤ b) }
{
    a.wrapping_add(b)
}

/// The difference modulo 2^128.
pub(crate) fn wrapped_difference(a: i128, b: i128) -> i128
    ensures { result ≡ int_wrap w128 (a -ℤ b) }
{
    a.wrapping_sub(b)
}
