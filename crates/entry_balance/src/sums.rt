//! Sums and turnovers of postings.
ghost use Rattle.std.specs.Prelude.{◌≡◌, ◌++◌, ◌∷◌, [], List, true, false, OnOk, IfOk, IfErr};
ghost use Rattle.entry_balance.specs.Values.{Value};
ghost use Rattle.entry_balance.specs.Tally.{named, sums_of, turnover_fits, IsRange};
ghost use Rattle.entry_balance.specs.Turnover.{IsTurnover};
ghost use Rattle.entry_balance.specs.Entry.{amount_cost_fits, costs_fit, moved_by, moved, same_side, share_of, side_values};

use crate::tally::{Sum, Tally, TallyFault};
use crate::value::{absolute, at_cost, cost_of};
use book::{Posting, Side};
use hl_base::Memory;
use hl_num::Dec;
use std::alloc::Global;

/// Whether two sides are one.
pub(crate) fn same_side(a: Side, b: Side) -> bool
    ensures { result ≡ same_side a b }
{
    match a {
        Side::Real => matches!(b, Side::Real),
        Side::Balanced => matches!(b, Side::Balanced),
        Side::Free => matches!(b, Side::Free),
    }
}

/// The sums of a side at cost, zero sums too, in the order of their symbols.
pub(crate) fn side_sums<'a>(
    alloc: Global,
    postings: &'a [Posting],
    side: Side,
) -> Result<Vec<Sum<'a>>, TallyFault>
    requires { costs_fit postings.now ≡ true }
    ensures value { IfOk result (λ sums.
        named sums.items ≡ sums_of (side_values side postings.now)) }
    ensures range { IfErr result (λ e. IsRange e
        → turnover_fits (side_values side postings.now) ≡ false) }
{
    let mut tally = Tally::new(alloc);
    for posting in postings {
        match add_share(&mut tally, posting, side) {
            Ok(()) => {}
            Err(fault) => return Err(fault),
        }
    }
    match tally.sums(alloc) {
        Ok(sums) => Ok(sums),
        Err(Memory) => Err(TallyFault::Memory),
    }
}

/// Adds what a posting adds to the sums of a side.
fn add_share<'a>(tally: &mut Tally<'a>, posting: &'a Posting, side: Side) -> Result<(), TallyFault>
    requires { amount_cost_fits posting.now.amount posting.now.cost ≡ true }
    ensures ok { OnOk result ((before : List Value) → tally.old ≡ sums_of before
        → tally.new ≡ sums_of (before ++ share_of side posting.now)) }
    ensures range { IfErr result (λ e. IsRange e → (before : List Value)
        → tally.old ≡ sums_of before
        → turnover_fits (before ++ share_of side posting.now) ≡ false) }
{
    if !same_side(side, posting.side) {
        return Ok(());
    }
    match &posting.amount {
        Some(amount) => {
            let (symbol, number) = at_cost(amount, &posting.cost);
            tally.add(symbol, number)
        }
        None => Ok(()),
    }
}

/// Whether what some postings move stays within the bound.
pub(crate) fn turnover_fits(alloc: Global, postings: &[Posting]) -> Result<bool, Memory>
    requires { costs_fit postings.now ≡ true }
    ensures { IfOk result (λ fits. fits ≡ turnover_fits (moved postings.now)) }
{
    let mut tally = Tally::new(alloc);
    for posting in postings {
        match add_moved(&mut tally, posting) {
            Ok(()) => {}
            Err(TallyFault::Range) => return Ok(false),
            Err(TallyFault::Memory) => return Err(Memory),
        }
    }
    Ok(true)
}

/// Adds what a posting moves.
fn add_moved<'a>(tally: &mut Tally<'a>, posting: &'a Posting) -> Result<(), TallyFault>
    requires { amount_cost_fits posting.now.amount posting.now.cost ≡ true }
    ensures ok { OnOk result ((before : List Value) → IsTurnover before tally.old
        → IsTurnover (before ++ moved_by posting.now) tally.new) }
    ensures range { IfErr result (λ e. IsRange e → (before : List Value)
        → IsTurnover before tally.old
        → turnover_fits (before ++ moved_by posting.now) ≡ false) }
{
    match &posting.amount {
        Some(amount) => {
            match add_value(tally, amount.symbol.as_str(), amount.value) {
                Ok(()) => {}
                Err(fault) => return Err(fault),
            }
            match &posting.cost {
                Some(cost) => {
                    let (symbol, number) = cost_of(amount.value, cost.get());
                    add_value(tally, symbol, number)
                }
                None => Ok(()),
            }
        }
        None => Ok(()),
    }
}

/// Adds a number without its sign.
fn add_value<'a>(tally: &mut Tally<'a>, symbol: &'a str, number: Dec) -> Result<(), TallyFault>
    ensures ok { OnOk result ((before : List Value) → IsTurnover before tally.old
        → IsTurnover (before ++ (symbol.now, number) ∷ []) tally.new) }
    ensures range { IfErr result (λ e. IsRange e → (before : List Value)
        → IsTurnover before tally.old
        → turnover_fits (before ++ (symbol.now, number) ∷ []) ≡ false) }
{
    let _decimals = number.decimals();
    tally.add(symbol, absolute(number))
}
