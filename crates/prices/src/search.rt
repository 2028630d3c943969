//! The search for least chains, in levels from the target.
ghost use Rattle.std.specs.Prelude.{◌≡◌, ◌<◌, ◌≤◌, [], ◌∷◌, IfOk, OnOk};
ghost use Rattle.prices.specs.Search.{AreWays, after_steps, found_within, onward, way_in, with_step};

use crate::rate::Rate;
use crate::steps::Step;
use crate::symbol_key::SymbolKey;
use hl_base::{List, Memory, Text};
use std::alloc::Global;
use std::collections::BTreeMap;

/// A way to the target: the level at which it was found, and the rates along it.
#[derive(Drop)]
pub(crate) struct Found {
    pub level: u8,
    pub rates: List<Rate>,
}

/// How many steps a chain has at most.
const MOST_STEPS: u8 = 16;

/// The least way of each symbol from which the target is reached.
pub(crate) fn find_all<'a>(
    alloc: Global,
    target: &'a Text,
    steps: &[Step<'a>],
) -> Result<BTreeMap<SymbolKey<'a>, Found>, Memory>
    ensures { IfOk result (λ found. AreWays found.entries (found_within steps.now target.now 16)) }
{
    let mut found = at_target(alloc, target)?;
    for level in 0..MOST_STEPS {
        add_level(alloc, &mut found, steps, level)?;
    }
    Ok(found)
}

/// The way of the target itself, which has no step.
fn at_target<'a>(alloc: Global, target: &'a Text) -> Result<BTreeMap<SymbolKey<'a>, Found>, Memory>
    ensures { IfOk result (λ found. AreWays found.entries (found_within [] target.now 0)) }
{
    let mut found = BTreeMap::new(alloc);
    let way = Found {
        level: 0,
        rates: List::new(alloc),
    };
    found.insert(SymbolKey::new(target), way)?;
    Ok(found)
}

/// Adds the symbols that one step leads to those that were found so far.
fn add_level<'a>(
    alloc: Global,
    found: &mut BTreeMap<SymbolKey<'a>, Found>,
    steps: &[Step<'a>],
    level: u8,
) -> Result<(), Memory>
    requires { level < 255 }
    ensures { OnOk result (AreWays found.new.entries
        (after_steps level (way_in found.old.entries) steps.now)) }
{
    for step in steps {
        add_step(alloc, found, step, level)?;
    }
    Ok(())
}

/// Adds the symbol that a step leads to one that was found at the level or below, unless it was found already.
fn add_step<'a>(
    alloc: Global,
    found: &mut BTreeMap<SymbolKey<'a>, Found>,
    step: &Step<'a>,
    level: u8,
) -> Result<(), Memory>
    requires { level < 255 }
    ensures { OnOk result (AreWays found.new.entries
        (with_step level (way_in found.old.entries) step.now)) }
{
    if found.contains_key(&SymbolKey::new(step.from)) {
        return Ok(());
    }
    match onward(alloc, found, step, level)? {
        Some(way) => {
            found.insert(SymbolKey::new(step.from), way)?;
            Ok(())
        }
        None => Ok(()),
    }
}

/// The way that begins with a step, where it goes on from a symbol that was found at the level or below.
fn onward<'a>(
    alloc: Global,
    found: &BTreeMap<SymbolKey<'a>, Found>,
    step: &Step<'a>,
    level: u8,
) -> Result<Option<Found>, Memory>
    requires { level < 255 }
    ensures { IfOk result (λ way.
        way ≡ onward level step.now (way_in found.now.entries step.now.to)) }
{
    match found.get(&SymbolKey::new(step.to)) {
        Some(next) if next.level <= level => Ok(Some(Found {
            level: level + 1,
            rates: before(alloc, step.rate, next.rates.as_slice())?,
        })),
        _ => Ok(None),
    }
}

/// A rate and those that follow it.
fn before(alloc: Global, rate: Rate, rates: &[Rate]) -> Result<List<Rate>, Memory>
    ensures { IfOk result (λ all. all ≡ rate ∷ rates.now) }
{
    let mut all = Vec::new(alloc);
    all.push(rate)?;
    all.extend_from_slice(rates)?;
    Ok(List::from_vec(all))
}
