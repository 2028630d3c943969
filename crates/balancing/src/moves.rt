//! What groups move, by symbols.
ghost use Rattle.std.specs.Prelude.{◌≡◌, [], true, false, IfOk, OnOk, IfErr};
ghost use Rattle.book.specs.Entries.{held};
ghost use Rattle.book.specs.Mixed.{fits_with};
ghost use Rattle.entry_balance.specs.Tally.{added_to, are_within, IsRange};
ghost use Rattle.balancing.specs.Single.{single, takes};

use assertions::Totals;
use entry_balance::{TallyFault, checked_sum, sum_with};
use hl_base::{Memory, Text};
use hl_num::Dec;
use std::alloc::Global;
use std::marker::Model;

/// The sum of each symbol that was added. Contracts see the symbols with their sums, in the order of the symbols. A sum that
/// is the only one stands by itself, as in journals of one currency.
#[derive(Drop)]
pub(crate) struct Moves {
    only: Option<(Text, Dec)>,
    totals: Totals,
    many: bool,
}

impl Model for Moves {
    ghost use Rattle.std.specs.Prelude.{◌≡◌, [], false, List, ℕ};
    ghost use Rattle.hl_num.specs.Decimal.{Decimal};
    ghost use Rattle.balancing.specs.Single.{all_sums};

    ghost Value = { List (List ℕ × Decimal) };

    ghost view = { λ m. all_sums m.many m.only m.totals };

    ghost invariant = { λ m. m.many ≡ false → m.totals ≡ [] };
}

impl Moves {
    /// No sums, which takes no memory.
    pub(crate) fn new(alloc: Global) -> Moves
        ensures { result ≡ [] }
    {
        Moves {
            only: None,
            totals: Totals::new(alloc),
            many: false,
        }
    }

    /// Adds a number to the sum of a symbol.
    pub(crate) fn add(&mut self, alloc: Global, symbol: &str, value: Dec) -> Result<(), TallyFault>
        ensures ok { OnOk result (self.new ≡ added_to self.old symbol.now value) }
        ensures within { OnOk result (are_within self.old ≡ true → are_within self.new ≡ true) }
        ensures range { IfErr result (λ e. IsRange e
            → fits_with (held symbol.now self.old) value ≡ false) }
    {
        if self.many {
            return self.totals.add(alloc, symbol, value);
        }
        if takes(&self.only, symbol) {
            return add_to_only(alloc, &mut self.only, symbol, value);
        }
        self.many = true;
        add_beside(alloc, &self.only, &mut self.totals, symbol, value)
    }
}

/// Whether a number of a symbol goes on with the only sum, or is the first.
fn takes(only: &Option<(Text, Dec)>, symbol: &str) -> bool
    ensures { result ≡ takes only.now symbol.now }
{
    match only {
        Some(sum) => symbol == sum.0.as_str(),
        None => true,
    }
}

/// Adds a number to the only sum, or makes it.
fn add_to_only(
    alloc: Global,
    only: &mut Option<(Text, Dec)>,
    symbol: &str,
    value: Dec,
) -> Result<(), TallyFault>
    requires { takes only.old symbol.now ≡ true }
    ensures ok { OnOk result (single only.new ≡ added_to (single only.old) symbol.now value) }
    ensures within { OnOk result (are_within (single only.old) ≡ true
        → are_within (single only.new) ≡ true) }
    ensures range { IfErr result (λ e. IsRange e
        → fits_with (held symbol.now (single only.old)) value ≡ false) }
{
    match only.take() {
        Some((name, sum)) => {
            let sum = checked_sum(sum, value)?;
            *only = Some((name, sum));
            Ok(())
        }
        None => {
            let sum = sum_with(None, value)?;
            let name = copied(alloc, symbol)?;
            *only = Some((name, sum));
            Ok(())
        }
    }
}

/// A copy of a symbol.
fn copied(alloc: Global, symbol: &str) -> Result<Text, TallyFault>
    ensures name { IfOk result (λ name. name ≡ symbol.now) }
    ensures fault { IfErr result (λ e. IsRange e → ⊥) }
{
    match Text::copied(alloc, symbol) {
        Ok(name) => Ok(name),
        Err(Memory) => Err(TallyFault::Memory),
    }
}

/// Adds the only sum and a number of another symbol to sums that are empty.
fn add_beside(
    alloc: Global,
    only: &Option<(Text, Dec)>,
    totals: &mut Totals,
    symbol: &str,
    value: Dec,
) -> Result<(), TallyFault>
    requires other { takes only.now symbol.now ≡ false }
    requires empty { totals.old ≡ [] }
    ensures ok { OnOk result (totals.new ≡ added_to (single only.now) symbol.now value) }
    ensures within { OnOk result (are_within (single only.now) ≡ true
        → are_within totals.new ≡ true) }
    ensures range { IfErr result (λ e. IsRange e
        → fits_with (held symbol.now (single only.now)) value ≡ false) }
{
    match only {
        Some(sum) => {
            totals.add(alloc, sum.0.as_str(), sum.1)?;
            totals.add(alloc, symbol, value)
        }
        None => unreachable!(),
    }
}
