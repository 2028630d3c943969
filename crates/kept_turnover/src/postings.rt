//! What postings move, by symbols.
ghost use Rattle.std.specs.Prelude.{◌≡◌, ◌∷◌, [], ℕ, true, None, OnOk};
ghost use Rattle.std.specs.Bool.{OnTrue};
ghost use Rattle.std.specs.List.{list_all};
ghost use Rattle.std.specs.BTreeMap.{get_by_text};
ghost use Rattle.entry_balance.specs.Entry.{amount_cost_fits, costs_fit, moved, moved_by, optional_cost_fits};
ghost use Rattle.entry_balance.specs.Values.{cost_values, value_of};
ghost use Rattle.kept_turnover.specs.Keeping.{Gains, HasLess, HasMore, Loses, Same, is_fit, no_part, part_in};

use crate::part::Part;
use crate::places::{are_none, first, fit, lower, raise};
use book::{Amount, Boxed, Cost, Posting};
use entry_balance::cost_of;
use hl_base::Memory;
use hl_num::Dec;
use std::alloc::Global;
use std::collections::BTreeMap;

/// The amounts of each symbol, by their number of decimals.
pub(crate) type Symbols = BTreeMap<String, Vec<Part>>;

/// Takes in the first amount of a symbol.
fn put_first(alloc: Global, symbols: &mut Symbols, symbol: &str, number: Dec) -> Result<(), Memory>
    requires { get_by_text symbols.old symbol.now ≡ None }
    ensures { OnOk result (HasMore symbol.now number symbols.old symbols.new) }
{
    let name = String::from_str(alloc, symbol)?;
    let parts = first(alloc, number)?;
    symbols.insert(name, parts)?;
    Ok(())
}

/// Takes in one more amount of a symbol.
fn add_number(alloc: Global, symbols: &mut Symbols, symbol: &str, number: Dec) -> Result<(), Memory>
    ensures { OnOk result (HasMore symbol.now number symbols.old symbols.new) }
{
    if let Some(parts) = symbols.get_mut(symbol) {
        return raise(parts, number);
    }
    put_first(alloc, symbols, symbol, number)
}

/// Takes an amount of a symbol off.
fn lower_number(symbols: &mut Symbols, symbol: &str, number: Dec)
    ensures { HasLess symbol.now number symbols.old symbols.new }
{
    match symbols.get_mut(symbol) {
        Some(parts) => lower(parts, number),
        None => {}
    }
}

/// Whether a symbol has no amounts.
fn is_empty(symbols: &Symbols, symbol: &str) -> bool
    ensures { OnTrue result ((n : ℕ) → part_in symbols.now symbol.now n ≡ no_part) }
{
    match symbols.get(symbol) {
        Some(parts) => are_none(parts),
        None => true,
    }
}

/// Forgets a symbol that has no amounts.
fn clear(symbols: &mut Symbols, symbol: &str)
    requires { (n : ℕ) → part_in symbols.old symbol.now n ≡ no_part }
    ensures { Same symbols.old symbols.new }
{
    let _ = symbols.remove(symbol);
}

/// Forgets a symbol if it has no amounts.
fn forget(symbols: &mut Symbols, symbol: &str)
    ensures { Same symbols.old symbols.new }
{
    if !is_empty(symbols, symbol) {
        return;
    }
    clear(symbols, symbol);
}

/// Takes an amount of a symbol off, and the symbol with its last one.
fn take_number(symbols: &mut Symbols, symbol: &str, number: Dec)
    ensures { HasLess symbol.now number symbols.old symbols.new }
{
    lower_number(symbols, symbol, number);
    forget(symbols, symbol);
}

/// Takes in what an amount costs, if it has a cost.
fn add_cost(
    alloc: Global,
    symbols: &mut Symbols,
    amount: &Amount,
    cost: &Option<Boxed<Cost>>,
) -> Result<(), Memory>
    requires { optional_cost_fits amount.now cost.now ≡ true }
    ensures { OnOk result (Gains symbols.old symbols.new (cost_values amount.now cost.now)) }
{
    match cost {
        Some(cost) => {
            let (symbol, number) = cost_of(amount.value, cost.get());
            add_value(alloc, symbols, symbol, number)
        }
        None => Ok(()),
    }
}

/// Takes in a value of a symbol.
fn add_value(alloc: Global, symbols: &mut Symbols, symbol: &str, number: Dec) -> Result<(), Memory>
    ensures { OnOk result (Gains symbols.old symbols.new ((symbol.now, number) ∷ [])) }
{
    let _decimals = number.decimals();
    add_number(alloc, symbols, symbol, number)
}

/// Takes in an amount and what it costs.
fn add_amount(
    alloc: Global,
    symbols: &mut Symbols,
    amount: &Amount,
    cost: &Option<Boxed<Cost>>,
) -> Result<(), Memory>
    requires { optional_cost_fits amount.now cost.now ≡ true }
    ensures { OnOk result (Gains symbols.old symbols.new (value_of amount.now
        ∷ cost_values amount.now cost.now)) }
{
    add_value(alloc, symbols, amount.symbol.as_str(), amount.value)?;
    add_cost(alloc, symbols, amount, cost)
}

/// Takes in what a posting moves.
fn add_posting(alloc: Global, symbols: &mut Symbols, posting: &Posting) -> Result<(), Memory>
    requires { amount_cost_fits posting.now.amount posting.now.cost ≡ true }
    ensures { OnOk result (Gains symbols.old symbols.new (moved_by posting.now)) }
{
    match &posting.amount {
        Some(amount) => add_amount(alloc, symbols, amount, &posting.cost),
        None => Ok(()),
    }
}

/// Takes in what postings move.
pub(crate) fn add_postings(
    alloc: Global,
    symbols: &mut Symbols,
    postings: &[Posting],
) -> Result<(), Memory>
    requires { costs_fit postings.now ≡ true }
    ensures { OnOk result (Gains symbols.old symbols.new (moved postings.now)) }
{
    for posting in postings {
        add_posting(alloc, symbols, posting)?;
    }
    Ok(())
}

/// Takes a value of a symbol off.
fn take_value(symbols: &mut Symbols, symbol: &str, number: Dec)
    ensures { Loses symbols.old symbols.new ((symbol.now, number) ∷ []) }
{
    take_number(symbols, symbol, number);
}

/// Takes off what an amount costs, if it has a cost.
fn take_cost(symbols: &mut Symbols, amount: &Amount, cost: &Option<Boxed<Cost>>)
    requires { optional_cost_fits amount.now cost.now ≡ true }
    ensures { Loses symbols.old symbols.new (cost_values amount.now cost.now) }
{
    match cost {
        Some(cost) => {
            let (symbol, number) = cost_of(amount.value, cost.get());
            take_value(symbols, symbol, number);
        }
        None => {}
    }
}

/// Takes off an amount and what it costs.
fn take_amount(symbols: &mut Symbols, amount: &Amount, cost: &Option<Boxed<Cost>>)
    requires { optional_cost_fits amount.now cost.now ≡ true }
    ensures { Loses symbols.old symbols.new (value_of amount.now
        ∷ cost_values amount.now cost.now) }
{
    take_value(symbols, amount.symbol.as_str(), amount.value);
    take_cost(symbols, amount, cost);
}

/// Takes off what a posting moves.
fn take_posting(symbols: &mut Symbols, posting: &Posting)
    requires { amount_cost_fits posting.now.amount posting.now.cost ≡ true }
    ensures { Loses symbols.old symbols.new (moved_by posting.now) }
{
    match &posting.amount {
        Some(amount) => take_amount(symbols, amount, &posting.cost),
        None => {}
    }
}

/// Takes off what postings move.
pub(crate) fn take_postings(symbols: &mut Symbols, postings: &[Posting])
    requires { costs_fit postings.now ≡ true }
    ensures { Loses symbols.old symbols.new (moved postings.now) }
{
    for posting in postings {
        take_posting(symbols, posting);
    }
}

/// Whether the amounts of each symbol fit.
pub(crate) fn all_fit(symbols: &Symbols) -> bool
    ensures { result ≡ list_all (λ e. is_fit e.1.items) symbols.now.entries }
{
    for (_, parts) in symbols {
        if !fit(parts) {
            return false;
        }
    }
    true
}
