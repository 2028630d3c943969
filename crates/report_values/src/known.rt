//! What is known of rates and exchanges while amounts are valued: no table is made twice, and no symbol is looked up
//! twice on a day.
ghost use Rattle.std.specs.Prelude.{◌≡◌, OnOk, Some, None, is_some, true, if◌then◌else◌, ℕ, List};
ghost use Rattle.std.specs.Ordering.{is_eq};
ghost use Rattle.report_values.specs.DayKeys.{day_cmp};
ghost use Rattle.report_values.specs.Known as spec;
ghost use Rattle.report_values.specs.Known.{AreTables, IsRight, IsKnown, IsPrepared};
ghost use Rattle.report_values.specs.Worth.{Priced, priced_of, target_of};

use crate::day_key::DayKey;
use crate::exchange::{Exchange, exchange_at, exchanged};
use crate::market::{Market, places_of, target_of};
use hl_base::{Memory, Text};
use hl_time::Day;
use prices::{Rate, RateRange, Table};
use report_cells::Share;
use std::alloc::Global;
use std::collections::BTreeMap;

/// Tables by their days and targets, and exchanges by their days and symbols.
#[derive(Drop)]
pub(crate) struct Known<'a> {
    pub tables: BTreeMap<DayKey<'a>, Table>,
    pub exchanges: BTreeMap<DayKey<'a>, Exchange<'a>>,
}

impl<'a> Known<'a> {
    /// Nothing, which takes no memory.
    pub fn new(alloc: Global) -> Known<'a>
        ensures { (market : Priced) → IsRight market result }
    {
        Known {
            tables: BTreeMap::new(alloc),
            exchanges: BTreeMap::new(alloc),
        }
    }
}

/// Makes the table of a day and a target, unless it is there.
fn prepare_table<'a>(
    alloc: Global,
    market: &Market<'a>,
    tables: &mut BTreeMap<DayKey<'a>, Table>,
    day: Day,
    target: &'a Text,
) -> Result<(), Memory>
    requires { AreTables market.now.prices.now tables.old.entries }
    ensures right { OnOk result (AreTables market.now.prices.now tables.new.entries) }
    ensures there { OnOk result
        (is_some (spec.kept_at tables.new.entries day.0 target.now) ≡ true) }
{
    if tables.contains_key(&DayKey::new(day, target)) {
        return Ok(());
    }
    let table = market.prices.table(alloc, target, day)?;
    tables.insert(DayKey::new(day, target), table)?;
    Ok(())
}

/// The rate of a symbol by the table of a day and a target.
fn rate_by<'a>(
    tables: &BTreeMap<DayKey<'a>, Table>,
    day: Day,
    target: &'a Text,
    symbol: &Text,
) -> Result<Option<Rate>, RateRange>
    ensures { result ≡ spec.rate_by (spec.kept_at tables.now.entries day.0 target.now) symbol.now }
{
    match tables.get(&DayKey::new(day, target)) {
        Some(table) => table.rate(symbol),
        None => Ok(None),
    }
}

/// Keeps the exchange of a symbol on a day.
fn keep<'a>(
    exchanges: &mut BTreeMap<DayKey<'a>, Exchange<'a>>,
    day: Day,
    symbol: &'a Text,
    exchange: Exchange<'a>,
) -> Result<(), Memory>
    ensures { OnOk result ((other : ℕ) → (key : List ℕ) →
        spec.kept_at exchanges.new.entries other key
        ≡ (if is_eq (day_cmp (day.0, symbol.now) (other, key)) then Some exchange.entry
        else spec.kept_at exchanges.old.entries other key)) }
{
    exchanges.insert(DayKey::new(day, symbol), exchange)?;
    Ok(())
}

/// Looks up the exchange of a symbol on a day, for a target.
fn prepare_in<'a>(
    alloc: Global,
    market: &Market<'a>,
    known: &mut Known<'a>,
    day: Day,
    symbol: &'a Text,
    target: &'a Text,
) -> Result<(), Memory>
    requires right { IsRight (priced_of market.now) known.old }
    requires target { Some target.now ≡ target_of (priced_of market.now) day.0 symbol.now }
    ensures right { OnOk result (IsRight (priced_of market.now) known.new) }
    ensures there { OnOk result (IsKnown (priced_of market.now) known.new day.0 symbol.now) }
{
    prepare_table(alloc, market, &mut known.tables, day, target)?;
    let rate = rate_by(&known.tables, day, target, symbol);
    let exchange = exchange_at(target, places_of(market, target), rate);
    keep(&mut known.exchanges, day, symbol, exchange)?;
    Ok(())
}

/// Looks up the exchange of a symbol on a day that has no target.
fn prepare_none<'a>(
    market: &Market<'a>,
    known: &mut Known<'a>,
    day: Day,
    symbol: &'a Text,
) -> Result<(), Memory>
    requires right { IsRight (priced_of market.now) known.old }
    requires target { None ≡ target_of (priced_of market.now) day.0 symbol.now }
    ensures right { OnOk result (IsRight (priced_of market.now) known.new) }
    ensures there { OnOk result (IsKnown (priced_of market.now) known.new day.0 symbol.now) }
{
    keep(&mut known.exchanges, day, symbol, Exchange::Stays)?;
    Ok(())
}

/// Looks up the exchange of a symbol on a day, unless it is known.
fn prepare_symbol<'a>(
    alloc: Global,
    market: &Market<'a>,
    known: &mut Known<'a>,
    day: Day,
    symbol: &'a Text,
) -> Result<(), Memory>
    requires { IsRight (priced_of market.now) known.old }
    ensures right { OnOk result (IsRight (priced_of market.now) known.new) }
    ensures there { OnOk result (IsKnown (priced_of market.now) known.new day.0 symbol.now) }
{
    if known.exchanges.contains_key(&DayKey::new(day, symbol)) {
        return Ok(());
    }
    match target_of(market, day, symbol) {
        Some(target) => prepare_in(alloc, market, known, day, symbol, target),
        None => prepare_none(market, known, day, symbol),
    }
}

/// Looks up what is wanted to value an amount, if it is there.
pub(crate) fn prepare<'a>(
    alloc: Global,
    market: &Market<'a>,
    known: &mut Known<'a>,
    day: Day,
    amount: &Option<Share<'a>>,
) -> Result<(), Memory>
    requires { IsRight (priced_of market.now) known.old }
    ensures right { OnOk result (IsRight (priced_of market.now) known.new) }
    ensures there { OnOk result (IsPrepared (priced_of market.now) known.new day.0 amount.now) }
{
    match amount {
        Some(share) => prepare_symbol(alloc, market, known, day, share.symbol),
        None => Ok(()),
    }
}

/// What an amount is worth on a day, by what is known.
pub(crate) fn worth_by<'a>(known: &Known<'a>, day: Day, share: &Share<'a>) -> Option<Share<'a>>
    ensures { result ≡ spec.exchanged_by
        (spec.kept_at known.now.exchanges.entries day.0 share.now.0) share.now }
{
    match known.exchanges.get(&DayKey::new(day, share.symbol)) {
        Some(exchange) => exchanged(exchange, share),
        None => None,
    }
}
