//! Sums of an index against plain sums.
ghost use Rattle.std.specs.Prelude.{◌≡◌, ◌<◌, ◌≤◌, ◌^◌, ◌++◌, IfOk};
ghost use Rattle.live_index.specs.Rows.{TurnoverFits};
ghost use Rattle.live_index.specs.Standing.{standing};
ghost use Rattle.live_index.specs.Small.{IsSmall, AreSmall};

use crate::{Index, Nodes, Row, standing_laws, upto};
use hl_base::{Memory, Steps, Text};
use hl_num::Dec;
use hl_time::Day;
use std::alloc::Global;
use std::cmp::Ordering;
use std::marker::Brand;
use std::sync::ledger::{Blank, Ledger};
use std::test::Fail;

const ACCOUNTS: [&str; 4] = ["assets", "assets:cash", "assets:cash:purse", "assetsless"];

/// A row of a number of units of 10^-places.
fn row(
    alloc: Global,
    account: &str,
    symbol: &str,
    day: u32,
    units: i32,
    places: u8,
) -> Result<Row, Memory>
    requires { places ≤ 2 }
    ensures { IfOk result (λ row. IsSmall row) }
{
    Ok(Row {
        account: Text::copied(alloc, account)?,
        symbol: Text::copied(alloc, symbol)?,
        day: Day(day),
        value: Dec {
            mantissa: i128::from(units),
            places,
        },
    })
}

/// The day of a row: of the first ones the last day of a first node of each level and the one behind it, and then
/// random days, every other one of four.
fn day_of(next: u32, seed: u64) -> u32 {
    if next < 44 {
        let end = 1u32.wrapping_shl(next / 2);
        end.saturating_sub(next % 2).max(1)
    } else if next % 2 == 0 {
        ((seed >> 20) % 4) as u32 + 1
    } else {
        ((seed >> 20) % 3_652_059) as u32 + 1
    }
}

/// Rows of random accounts, values and numbers of decimals, at the ends of levels and on random days, or the same negated.
fn some_rows(alloc: Global, negated: bool) -> Result<Vec<Row>, Memory>
    ensures { IfOk result (λ rows. AreSmall rows.items) }
{
    let mut rows = Vec::new(alloc);
    let mut seed = 7_u64;
    for next in 0..244u32 {
        seed = seed.wrapping_mul(6_364_136_223_846_793_005).wrapping_add(1);
        let account = ACCOUNTS[((seed >> 40) % 4) as usize];
        let symbol = if (seed >> 50) % 3 == 0 { "USD" } else { "EUR" };
        let day = day_of(next, seed);
        let units = ((seed >> 45) % 10_000) as i32 - 5_000;
        let units = if negated { -units } else { units };
        let places = ((seed >> 33) % 3) as u8;
        let row = row(alloc, account, symbol, day, units, places)?;
        rows.push(row)?;
    }
    Ok(rows)
}

/// An index of some rows.
fn index_of(alloc: Global, rows: &[Row]) -> Result<Index, Memory>
    requires { AreSmall rows.now }
    ensures { IfOk result (λ index. index ≡ rows.now) }
{
    let mut index = Index::new(alloc)?;
    let prepared = index.prepare(rows)?;
    index.put(prepared);
    Ok(index)
}

/// Whether a row is of `assets` in EUR, or of one of its subaccounts.
fn is_asked(row: &Row, below: bool) -> bool {
    let account = row.account.as_str();
    row.symbol.as_str() == "EUR" && (account == "assets" || (below && account != "assetsless"))
}

/// A value of at most two decimals in cents.
fn cents(value: Dec) -> i128 {
    match value.places {
        0 => value.mantissa.wrapping_mul(100),
        1 => value.mantissa.wrapping_mul(10),
        _ => value.mantissa,
    }
}

/// The plain sum of the cents of `assets`, with or without its subaccounts, before a day.
fn plain_sum(rows: &[Row], end: u32, below: bool) -> i128 {
    let mut sum = 0_i128;
    for row in rows {
        if row.day.0 < end && is_asked(row, below) {
            sum = sum.wrapping_add(cents(row.value));
        }
    }
    sum
}

/// Whether the sum before a day is the plain one.
fn is_plain<L: Ledger>(
    index: &Index,
    rows: &[Row],
    names: &(Text, Text),
    end: u32,
    steps: &mut Steps<L>,
) -> bool
    requires { end < 2 ^ 22 }
{
    let alone = upto(index, &names.0, &names.1, Day(end), false, steps);
    let whole = upto(index, &names.0, &names.1, Day(end), true, steps);
    is_sum(alone, plain_sum(rows, end, false)) && is_sum(whole, plain_sum(rows, end, true))
}

/// Whether a sum is one of so many cents.
fn is_sum(sum: Dec, cents: i128) -> bool {
    match Dec::new(cents, 2) {
        Some(plain) => sum.compare(plain) == Ordering::Equal,
        None => false,
    }
}

/// The first day behind the first node of a level.
fn end_of(level: u8) -> u32
    requires { level < 22 }
    ensures above { 0 < result }
    ensures below { result ≤ 2097152 }
{
    let end = 1u32.wrapping_shl(u32::from(level));
    end.clamp(1, 2_097_152)
}

/// Whether the sums before days at the ends of levels are the plain ones.
fn are_plain<L: Ledger>(
    index: &Index,
    rows: &[Row],
    names: &(Text, Text),
    steps: &mut Steps<L>,
) -> bool {
    for level in 0..22u8 {
        let end = end_of(level);
        if !is_plain(index, rows, names, end, steps)
            || !is_plain(index, rows, names, end - 1, steps)
            || !is_plain(index, rows, names, 3_652_060 - end, steps)
        {
            return false;
        }
    }
    true
}

/// Whether each node of the days of some rows is zero.
fn are_zero<L: Ledger>(
    index: &Index,
    rows: &[Row],
    names: &(Text, Text),
    steps: &mut Steps<L>,
) -> bool {
    for row in rows {
        for level in 0..22u8 {
            let at = row.day.0 >> level;
            if !index
                .node(&names.0, &names.1, true, level, at, steps)
                .is_zero()
            {
                return false;
            }
        }
    }
    true
}

/// The account and the symbol that are asked for.
fn names(alloc: Global) -> Result<(Text, Text), Memory> {
    Ok((Text::copied(alloc, "assets")?, Text::copied(alloc, "EUR")?))
}

/// Prepares rows and drops what was prepared.
fn only_prepared(index: &mut Index, rows: &[Row]) -> Result<(), Memory>
    requires { TurnoverFits (standing (index.old ++ rows.now)) }
    ensures { index.new ≡ index.old }
{
    let _dropped = index.prepare(rows)?;
    Ok(())
}

/// Puts rows in, prepares their negations and drops them, asks for the sums, and prepares and puts the negations in,
/// beside a copy.
fn in_and_out<L: Ledger>(alloc: Global, blank: Blank) -> Result<(bool, bool, bool), Memory>
    requires name { blank.name ≡ L.name }
    requires parts { blank.parts ≡ L.parts }
    requires three { blank.parts ≡ 3 }
{
    let mut steps = Steps::<L>::start(blank);
    let names = names(alloc)?;
    let rows = some_rows(alloc, false)?;
    let negated = some_rows(alloc, true)?;
    let mut index = index_of(alloc, rows.as_slice())?;
    only_prepared(&mut index, negated.as_slice())?;
    let stays = are_plain(&index, rows.as_slice(), &names, &mut steps);
    let copy = index.copy()?;
    let prepared = index.prepare(negated.as_slice())?;
    index.put(prepared);
    let goes = are_zero(&index, rows.as_slice(), &names, &mut steps) && index.kept() == 0;
    let apart = are_plain(&copy, rows.as_slice(), &names, &mut steps);
    Ok((stays, goes, apart))
}

#[test]
fn sums_at_the_ends_of_levels(rt: HostRuntime) -> Result<(), Fail> {
    standing_laws();
    let (stays, goes, apart) = in_and_out::<Brand>(rt.alloc(), Blank::new(3))?;
    assert!(rt; stays, "rows that were prepared and dropped change no sum");
    assert!(rt; goes, "negated rows leave nothing");
    assert!(rt; apart, "what is put in changes no copy");
    Ok(())
}
