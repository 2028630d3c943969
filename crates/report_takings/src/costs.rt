//! Amounts that are taken at cost.
ghost use Rattle.std.specs.Prelude.{◌≡◌, true, false, not, if◌then◌else◌};
ghost use Rattle.std.specs.Option.{option_copied};
ghost use Rattle.entry_balance.specs.Entry.{amount_cost_fits, optional_cost_fits};
ghost use Rattle.entry_balance.specs.Values.{value_of, at_cost, cost_of, cost_fits};
ghost use Rattle.report_takings.specs.Costs as spec;

use crate::entries::Entry;
use book::{Amount, Boxed, Cost, Posting};
use entry_balance::{cost_of, costs_fit};
use hl_base::Text;
use hl_num::Dec;
use report_cells::Share;
use report_options::{Options, Valuation, When};
use std::cmp::Ordering;

/// Whether a valuation takes amounts at cost.
fn values_at_cost(value: &Option<Valuation>) -> bool
    ensures { result ≡ spec.values_at_cost value.now }
{
    match value {
        Some(worth) => matches!(worth.when, When::Cost),
        None => false,
    }
}

/// Whether a report takes amounts at cost: by `-B`, or by `--value=cost`.
pub fn is_at_cost(options: &Options) -> bool
    ensures { result ≡ spec.is_at_cost options.now }
{
    options.cost || values_at_cost(&options.value)
}

/// What an amount costs.
fn costed<'a>(amount: &'a Amount, cost: &'a Cost) -> Share<'a>
    requires { cost_fits amount.now.value cost.now ≡ true }
    ensures { result ≡ cost_of amount.now.value cost.now }
{
    let (_, value) = cost_of(amount.value, cost);
    Share {
        symbol: &cost.amount().symbol,
        value,
    }
}

/// An amount as it is written.
fn written<'a>(amount: &'a Amount) -> Share<'a>
    ensures { result ≡ value_of amount.now }
{
    Share {
        symbol: &amount.symbol,
        value: amount.value,
    }
}

/// An amount at cost.
fn at_cost<'a>(amount: &'a Amount, cost: &'a Option<Boxed<Cost>>) -> Share<'a>
    requires { optional_cost_fits amount.now cost.now ≡ true }
    ensures { result ≡ at_cost amount.now cost.now }
{
    match cost {
        Some(cost) => costed(amount, cost.get()),
        None => written(amount),
    }
}

/// An amount, or what it costs.
fn taken<'a>(amount: &'a Amount, cost: &'a Option<Boxed<Cost>>, costs: bool) -> Share<'a>
    requires { costs ≡ true → optional_cost_fits amount.now cost.now ≡ true }
    ensures { result ≡ (if costs then at_cost amount.now cost.now else value_of amount.now) }
{
    if costs {
        at_cost(amount, cost)
    } else {
        written(amount)
    }
}

/// Whether balancing found what a posting moves.
fn is_found(posting: &Posting, costs: bool) -> bool
    ensures { result ≡ spec.is_found costs posting.now }
{
    if costs && posting.cost.is_some() {
        posting.costed
    } else {
        posting.filled
    }
}

/// A value as it is taken, with as few decimals as it needs where balancing found it.
fn told_as<'a>(share: Share<'a>, found: bool) -> Share<'a>
    ensures { result ≡ spec.told_as found share.entry }
{
    if found {
        Share {
            symbol: share.symbol,
            value: share.value.trimmed(),
        }
    } else {
        share
    }
}

/// What a posting moves.
pub(crate) fn moved<'a>(posting: &'a Posting, costs: bool) -> Option<Share<'a>>
    requires { costs ≡ true → amount_cost_fits posting.now.amount posting.now.cost ≡ true }
    ensures { result ≡ spec.moved costs posting.now }
{
    match &posting.amount {
        Some(amount) => {
            let share = taken(amount, &posting.cost, costs);
            Some(told_as(share, is_found(posting, costs)))
        }
        None => None,
    }
}

/// Whether what a posting costs is out of range.
fn is_unpriced(posting: &Posting) -> bool
    ensures { result ≡ not (amount_cost_fits posting.now.amount posting.now.cost) }
{
    !costs_fit(std::slice::from_ref(posting))
}

/// The lesser of two symbols, where there are two.
fn lesser<'a>(symbol: &'a Text, other: Option<&'a Text>) -> Option<&'a Text>
    ensures { option_copied result ≡ spec.lesser symbol.now (option_copied other.entry) }
{
    match other {
        Some(least) => match symbol.as_str().cmp(least.as_str()) {
            Ordering::Less => Some(symbol),
            _ => Some(least),
        },
        None => Some(symbol),
    }
}

/// The lesser of a symbol and that of a posting's amount, if what it costs is out of range.
fn with_entry<'a>(entry: &Entry<'a>, least: Option<&'a Text>) -> Option<&'a Text>
    ensures { option_copied result ≡ spec.with_entry entry.now (option_copied least.entry) }
{
    let posting = entry.posting();
    if !is_unpriced(posting) {
        return least;
    }
    match &posting.amount {
        Some(amount) => lesser(&amount.symbol, least),
        None => least,
    }
}

/// The least symbol of the amounts whose cost is out of range.
pub(crate) fn first_out<'a>(entries: &[Entry<'a>]) -> Option<&'a Text>
    ensures { option_copied result ≡ spec.first_out entries.now }
{
    let mut least = None;
    let mut at = entries.len();
    while 0 < at {
        at -= 1;
        least = with_entry(&entries[at], least);
    }
    least
}
