//! The absolute amounts of each symbol, and whether they are too large.
ghost use Rattle.std.specs.Prelude.{◌≡◌, ◌*◌, ◌^◌, ◌≤◌, Some, T, None, OnOk, IfOk, IfErr};
ghost use Rattle.std.specs.Option.{option_map};
ghost use Rattle.std.specs.Ordering.{nat_cmp};
ghost use Rattle.std.specs.Cmp.Lexicographic.{slice_cmp};
ghost use Rattle.std.specs.FinMap.Entries.{is_sorted};
ghost use Rattle.std.specs.List.{AllByRecursion};
ghost use Rattle.report_cells.specs.Bounds.{TurnoverFits, first_out};
ghost use Rattle.report_cells.specs.Faults.{IsFault};
ghost use Rattle.report_cells.specs.Kept.{HasFewPlaces};
ghost use Rattle.report_cells.specs.Turned.{fills, first_full, is_full, scaled, turned, turned_with};

use crate::fault::ReportFault;
use crate::symbol_key::SymbolKey;
use crate::taking::{Share, Taking};
use hl_base::{Memory, Text};
use hl_num::Dec;
use std::alloc::Global;
use std::collections::BTreeMap;
use std::marker::Model;

/// `2^127`.
const LIMIT: u128 = 0x8000_0000_0000_0000_0000_0000_0000_0000;

/// The absolute amounts of a symbol: their greatest number of decimals, and their sum in units of it, or 2^127 where
/// that is less. Contracts see both numbers.
#[derive(Drop)]
pub(crate) struct Turnover {
    places: u8,
    sum: u128,
}

impl Model for Turnover {
    ghost use Rattle.std.specs.Prelude.{ℕ, ◌≤◌, ◌^◌};

    ghost Value = { ℕ × ℕ };

    ghost view = { λ t. (t.places, t.sum) };

    ghost invariant = { λ t. (t.places ≤ 36) × (t.sum ≤ 2 ^ 127) };
}

impl Turnover {
    fn none() -> Turnover
        ensures { result ≡ (0, 0) }
    {
        Turnover { places: 0, sum: 0 }
    }

    fn add(&mut self, value: Dec)
        ensures { self.new ≡ turned self.old value }
    {
        let places = self.places.max(value.decimals());
        let old = scaled(self.sum, places - self.places);
        let more = scaled(value.magnitude(), places - value.decimals());
        self.places = places;
        self.sum = old.saturating_add(more).min(LIMIT);
    }

    fn is_full(&self) -> bool
        ensures { result ≡ is_full self.now }
    {
        LIMIT <= self.sum
    }
}

/// `number * 10^more`, or 2^127 where that is less. Most amounts of a symbol have the same decimals, and are as they are.
fn scaled(number: u128, more: u8) -> u128
    requires { more ≤ 36 }
    ensures { result ≡ scaled number more }
{
    if more == 0 {
        unscaled(number)
    } else {
        multiplied(number, more)
    }
}

/// The number, or 2^127 where that is less.
#[tactic(auto, using(crate::proofs::Sizes::scaled_once))]
fn unscaled(number: u128) -> u128
    ensures { result ≡ scaled number 0 }
{
    number.min(LIMIT)
}

/// `number * 10^more`, or 2^127 where that is less.
fn multiplied(number: u128, more: u8) -> u128
    requires { more ≤ 36 }
    ensures { result ≡ scaled number more }
{
    number
        .saturating_mul(10_u128.pow(u32::from(more)))
        .min(LIMIT)
}

/// Refuses takings whose absolute amounts in a symbol sum to 2^127 or more, in units of their greatest number of
/// decimals: `Range` names the least such symbol. Of other takings any can be summed in any order.
pub fn check_range(alloc: Global, takings: &[Taking]) -> Result<(), ReportFault>
    ensures fits { OnOk result (TurnoverFits takings.now) }
    ensures few { OnOk result (AllByRecursion (λ t. HasFewPlaces t.amount) takings.now) }
    ensures none { OnOk result (first_out takings.now ≡ None) }
    ensures fault { IfErr result (IsFault takings.now) }
{
    let mut kept = BTreeMap::new(alloc);
    for taking in takings {
        note(&mut kept, &taking.amount)?;
    }
    match first_full(kept) {
        Some(symbol) => {
            let symbol = Text::copied(alloc, symbol.as_str())?;
            Err(ReportFault::Range { symbol })
        }
        None => Ok(()),
    }
}

/// Adds an amount, if it is there, to those of its symbol, and tells whether these are too large now.
pub(crate) fn note<'a>(
    kept: &mut BTreeMap<SymbolKey<'a>, Turnover>,
    amount: &Option<Share<'a>>,
) -> Result<bool, Memory>
    requires { T (is_sorted (slice_cmp nat_cmp) kept.old.entries) }
    ensures new { OnOk result (kept.new.entries ≡ turned_with amount.now kept.old.entries) }
    ensures fills { IfOk result (λ full. full ≡ fills amount.now kept.old.entries) }
    ensures few { OnOk result (HasFewPlaces amount.now) }
{
    match amount {
        Some(share) => note_share(kept, share),
        None => Ok(false),
    }
}

/// Adds an amount to those of its symbol, and tells whether these are too large now.
fn note_share<'a>(
    kept: &mut BTreeMap<SymbolKey<'a>, Turnover>,
    share: &Share<'a>,
) -> Result<bool, Memory>
    requires { T (is_sorted (slice_cmp nat_cmp) kept.old.entries) }
    ensures new { OnOk result (kept.new.entries ≡ turned_with (Some share.now) kept.old.entries) }
    ensures fills { IfOk result (λ full. full ≡ fills (Some share.now) kept.old.entries) }
    ensures few { OnOk result (share.now.1.places ≤ 36) }
{
    let _places = share.value.decimals();
    if let Some(turnover) = kept.get_mut(&SymbolKey::new(share.symbol)) {
        turnover.add(share.value);
        return Ok(turnover.is_full());
    }
    let mut turnover = Turnover::none();
    turnover.add(share.value);
    let full = turnover.is_full();
    kept.insert(SymbolKey::new(share.symbol), turnover)?;
    Ok(full)
}

/// The least symbol whose absolute amounts are too large, if there is one.
pub(crate) fn first_full<'a>(kept: BTreeMap<SymbolKey<'a>, Turnover>) -> Option<&'a Text>
    ensures { option_map (λ symbol. symbol.now) result ≡ first_full kept.entry.entries }
{
    for (key, turnover) in kept {
        if turnover.is_full() {
            return Some(key.symbol());
        }
    }
    None
}
