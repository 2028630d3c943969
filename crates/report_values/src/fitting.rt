//! The takings whose amounts aren't too large to sum.
ghost use Rattle.std.specs.Prelude.{◌≡◌, ◌+◌, ◌++◌, ◌∷◌, [], max, ℕ, List, IfOk, OnOk, Some, filter, not, unsigned_abs, unwrap_or};
ghost use Rattle.hl_num.specs.Decimal.{units_of};
ghost use Rattle.report_cells.specs.Bounds.{is_out};
ghost use Rattle.report_cells.specs.Taken.{Taken};
ghost use Rattle.report_values.specs.Cells as spec;
ghost use Rattle.report_values.specs.Known.{kept_at};
ghost use Rattle.report_values.specs.Totals.{AreTotals, IsTotal, absolute, is_full, no_total};

use crate::day_key::DayKey;
use crate::exchange::same;
use hl_base::{Memory, Text};
use hl_num::Dec;
use hl_time::Day;
use report_cells::{Share, Taking};
use std::alloc::Global;
use std::collections::BTreeMap;

/// A number without its sign.
fn absolute(value: Dec) -> Dec
    ensures { result ≡ absolute value }
{
    if value.is_negative() {
        value.negated()
    } else {
        value
    }
}

/// A sum of absolute amounts with one more.
fn sum_with(sum: Dec, value: Dec) -> Option<Dec>
    ensures { (turnover places : ℕ) → IsTotal (Some sum) turnover places
        → IsTotal result (turnover + unsigned_abs (units_of value)) (max places value.places) }
{
    let _sum_places = sum.decimals();
    let _value_places = value.decimals();
    match sum.add(absolute(value)) {
        Ok(total) => {
            let _magnitude = total.magnitude();
            Some(total)
        }
        Err(_) => None,
    }
}

/// The sum of absolute amounts, if it isn't too large already, with one more.
fn with_value(total: Option<Dec>, value: Dec) -> Option<Dec>
    ensures { (turnover places : ℕ) → IsTotal total turnover places
        → IsTotal result (turnover + unsigned_abs (units_of value)) (max places value.places) }
{
    match total {
        Some(sum) => sum_with(sum, value),
        None => None,
    }
}

/// The sum that is kept of a symbol, or zero.
fn total_of<'a>(totals: &BTreeMap<DayKey<'a>, Option<Dec>>, symbol: &'a Text) -> Option<Dec>
    ensures { result ≡ unwrap_or (kept_at totals.now.entries 0 symbol.now) no_total }
{
    match totals.get(&DayKey::new(Day(0), symbol)) {
        Some(total) => *total,
        None => Some(Dec::zero()),
    }
}

/// Adds an amount to those of its symbol.
fn note_share<'a>(
    totals: &mut BTreeMap<DayKey<'a>, Option<Dec>>,
    share: &Share<'a>,
) -> Result<(), Memory>
    ensures { OnOk result ((ts : List Taken) → (t : Taken) → AreTotals totals.old.entries ts
        → t.amount ≡ Some share.now → AreTotals totals.new.entries (ts ++ t ∷ [])) }
{
    let total = with_value(total_of(totals, share.symbol), share.value);
    totals.insert(DayKey::new(Day(0), share.symbol), total)?;
    Ok(())
}

/// Adds an amount, if it is there, to those of its symbol.
fn note<'a>(
    totals: &mut BTreeMap<DayKey<'a>, Option<Dec>>,
    amount: &Option<Share<'a>>,
) -> Result<(), Memory>
    ensures { OnOk result ((ts : List Taken) → (t : Taken) → AreTotals totals.old.entries ts
        → t.amount ≡ amount.now → AreTotals totals.new.entries (ts ++ t ∷ [])) }
{
    match amount {
        Some(share) => note_share(totals, share),
        None => Ok(()),
    }
}

/// The sums of the absolute amounts of each symbol, none where one is too large.
fn totals_of<'a>(
    alloc: Global,
    takings: &[Taking<'a>],
) -> Result<BTreeMap<DayKey<'a>, Option<Dec>>, Memory>
    ensures { IfOk result (λ totals. AreTotals totals.entries takings.now) }
{
    let mut totals = BTreeMap::new(alloc);
    for taking in takings {
        note(&mut totals, &taking.amount)?;
    }
    Ok(totals)
}

/// Whether the sum of a symbol is too large.
fn is_full<'a>(totals: &BTreeMap<DayKey<'a>, Option<Dec>>, symbol: &'a Text) -> bool
    ensures { result ≡ is_full (kept_at totals.now.entries 0 symbol.now) }
{
    match totals.get(&DayKey::new(Day(0), symbol)) {
        Some(total) => total.is_none(),
        None => false,
    }
}

/// Whether the symbol of an amount isn't out of range.
fn fits_share<'a>(totals: &BTreeMap<DayKey<'a>, Option<Dec>>, share: &Share<'a>) -> bool
    ensures { (ts : List Taken) → AreTotals totals.now.entries ts
        → result ≡ not (is_out ts share.now.0) }
{
    !is_full(totals, share.symbol)
}

/// Whether the symbol of an amount, if it is there, isn't out of range.
fn fits<'a>(totals: &BTreeMap<DayKey<'a>, Option<Dec>>, amount: &Option<Share<'a>>) -> bool
    ensures { (ts : List Taken) → AreTotals totals.now.entries ts
        → result ≡ spec.fits_in ts amount.now }
{
    match amount {
        Some(share) => fits_share(totals, share),
        None => true,
    }
}

/// A taking again.
fn again<'a>(taking: &Taking<'a>) -> Taking<'a>
    ensures { result ≡ taking.now }
{
    Taking {
        account: taking.account,
        day: taking.day,
        amount: match &taking.amount {
            Some(share) => Some(same(share)),
            None => None,
        },
    }
}

/// Keeps a taking, if the symbol of its amount isn't out of range.
fn keep<'a>(
    totals: &BTreeMap<DayKey<'a>, Option<Dec>>,
    taking: &Taking<'a>,
    kept: &mut Vec<Taking<'a>>,
) -> Result<(), Memory>
    ensures { OnOk result ((ts : List Taken) → AreTotals totals.now.entries ts
        → kept.new.items
        ≡ kept.old.items ++ filter (λ t. spec.fits_in ts t.amount) (taking.now ∷ [])) }
{
    if fits(totals, &taking.amount) {
        kept.push(again(taking))?;
    }
    Ok(())
}

/// The takings whose amounts aren't too large to sum.
pub(crate) fn fitting<'a>(alloc: Global, takings: &[Taking<'a>]) -> Result<Vec<Taking<'a>>, Memory>
    ensures { IfOk result (λ kept. kept.items ≡ spec.fitting takings.now) }
{
    let totals = totals_of(alloc, takings)?;
    let mut kept = Vec::new(alloc);
    for taking in takings {
        keep(&totals, taking, &mut kept)?;
    }
    Ok(kept)
}
