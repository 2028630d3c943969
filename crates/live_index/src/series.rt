//! Rows in an order, and the series in it.
ghost use Rattle.std.specs.Prelude.{◌≡◌, ◌<◌, ◌≤◌, ℕ, length, drop, map, IfOk, IsPermutation};
ghost use Rattle.std.specs.Bool.{OnTrue, OnFalse};
ghost use Rattle.live_index.specs.Series.{goes_on, GoesOnAt, IsSeries, ends_day};

use crate::row::Row;
use hl_base::Memory;
use std::alloc::Global;
use std::hash::{FoldHasher, Hasher};

/// The rows in an order in which those of one account, symbol and number of decimals stand together, by day. The order
/// only saves work: whichever it is, the sums are the same.
pub(crate) fn in_order<'a>(alloc: Global, rows: &'a [Row]) -> Result<Vec<&'a Row>, Memory>
    ensures { IfOk result (λ order. IsPermutation rows.now (map (λ r. r.now) order.items)) }
{
    let mut order = lent_rows(alloc, rows)?;
    order.sort_by_cached_key(|row| rank(row))?;
    Ok(order)
}

/// The rows, lent.
fn lent_rows<'a>(alloc: Global, rows: &'a [Row]) -> Result<Vec<&'a Row>, Memory>
    ensures { IfOk result (λ lent. map (λ r. r.now) lent.items ≡ rows.now) }
{
    let mut lent = Vec::with_capacity(alloc, rows.len())?;
    for row in rows {
        lent.push(row)?;
    }
    Ok(lent)
}

/// A number that rows of one account, symbol and number of decimals share, and hardly any others, and the day.
fn rank(row: &Row) -> (u64, u32) {
    let mut hasher = FoldHasher::default();
    hasher.write(row.account.as_bytes());
    hasher.write(row.symbol.as_bytes());
    hasher.write_u8(row.value.places);
    (hasher.finish(), row.day.0)
}

/// A place near the middle at which a row doesn't go on from the one before it, or the end where the rows are a series.
pub(crate) fn cut(rows: &[&Row]) -> usize
    ensures within { result ≤ length rows.now }
    ensures some { 0 < length rows.now → 0 < result }
    ensures series { result ≡ length rows.now → IsSeries (map (λ r. r.now) rows.now) }
{
    let middle = rows.len() / 2;
    let start = break_upto(rows, middle);
    if start != 0 {
        return start;
    }
    break_from(rows, middle)
}

/// The last place up to one at which a row doesn't go on from the one before it, or 0.
fn break_upto(rows: &[&Row], end: usize) -> usize
    ensures within { result ≤ end }
    ensures goes_on { (at : ℕ) → result < at → at ≤ end
        → GoesOnAt (map (λ r. r.now) rows.now) at }
{
    let mut at = end;
    while 0 < at {
        if breaks(rows, at) {
            return at;
        }
        at -= 1;
    }
    0
}

/// The first place from one on at which a row doesn't go on from the one before it, or the end.
fn break_from(rows: &[&Row], start: usize) -> usize
    requires { start ≤ length rows.now }
    ensures within { result ≤ length rows.now }
    ensures some { 0 < length rows.now → 0 < result }
    ensures goes_on { (at : ℕ) → start ≤ at → at < result
        → GoesOnAt (map (λ r. r.now) rows.now) at }
{
    for at in start..rows.len() {
        if breaks(rows, at) {
            return at;
        }
    }
    rows.len()
}

/// Whether there is a row before a place and one at it that doesn't go on from it.
fn breaks(rows: &[&Row], at: usize) -> bool
    ensures inside { OnTrue result ((0 < at) × (at < length rows.now)) }
    ensures goes_on { OnFalse result (GoesOnAt (map (λ r. r.now) rows.now) at) }
{
    if at == 0 {
        return false;
    }
    if rows.len() <= at {
        return false;
    }
    let before = at - 1;
    let goes = goes_on(rows[before], rows[at]);
    !goes
}

/// Whether a row goes on from another: it has its account, symbol and number of decimals, and no earlier day.
fn goes_on(first: &Row, second: &Row) -> bool
    ensures { result ≡ goes_on first.now second.now }
{
    first.value.places == second.value.places
        && first.day.0 <= second.day.0
        && first.symbol.as_str() == second.symbol.as_str()
        && first.account.as_str() == second.account.as_str()
}

/// Whether the row at a place is the last of its day.
pub(crate) fn ends_day(rows: &[&Row], at: usize) -> bool
    requires { at < length rows.now }
    ensures { result ≡ ends_day (map (λ r. r.now) (drop at rows.now)) }
{
    let later = at + 1;
    if later == rows.len() {
        return true;
    }
    let row = rows[at];
    let next = rows[later];
    row.day.0 != next.day.0
}
