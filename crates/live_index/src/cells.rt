//! Lists of cells: the sums of some rows.
ghost use Rattle.std.specs.Prelude.{◌≡◌, ◌<◌, ◌≤◌, [], drop, length, IfOk, OnOk, map};
ghost use Rattle.std.specs.Arc.{arc_value};
ghost use Rattle.live_index.specs.Kept.{AreSums};
ghost use Rattle.live_index.specs.Series.{IsSeries};
ghost use Rattle.live_index.specs.Cells.{AreCells, AreJoined, HasAdded, counts_for, is_key, is_above, lesser_of, HasPushed, HasPushedSum};

use crate::by_places::ByPlaces;
use crate::cell::Cell;
use crate::row::Row;
use crate::series::{cut, in_order};
use hl_base::{Memory, Text};
use std::alloc::Global;
use std::cmp::Ordering;
use std::sync::Arc;

/// The sums of some rows, whose series are added up one by one.
pub(crate) fn sums_of(alloc: Global, rows: &[Row]) -> Result<Vec<Arc<Cell>>, Memory>
    ensures { IfOk result (λ cells. AreSums rows.now (map arc_value cells.items)) }
{
    let order = in_order(alloc, rows)?;
    sums_in_order(alloc, &order)
}

/// The sums of rows in an order: those on both sides of a place at which a series ends, joined.
fn sums_in_order(alloc: Global, rows: &[&Row]) -> Result<Vec<Arc<Cell>>, Memory>
    ensures { IfOk result (λ cells. AreSums (map (λ r. r.now) rows.now)
        (map arc_value cells.items)) }
{
    if rows.is_empty() {
        return Ok(Vec::new(alloc));
    }
    let at = cut(rows);
    if at == rows.len() {
        return sums_of_series(alloc, rows);
    }
    let (front, back) = rows.split_at(at);
    let first = sums_in_order(alloc, front)?;
    let second = sums_in_order(alloc, back)?;
    joined(alloc, &first, &second)
}

/// The sums of the rows of a series: those of their account and of each account above it.
fn sums_of_series(alloc: Global, rows: &[&Row]) -> Result<Vec<Arc<Cell>>, Memory>
    requires some { 0 < length rows.now }
    requires series { IsSeries (map (λ r. r.now) rows.now) }
    ensures { IfOk result (λ cells. AreSums (map (λ r. r.now) rows.now)
        (map arc_value cells.items)) }
{
    let sums = ByPlaces::of(alloc, rows)?;
    let shared = Arc::new(alloc, sums)?;
    cells_of(alloc, rows[0], &shared)
}

/// The cells of the sums of a row's account and of each account above it.
fn cells_of(alloc: Global, row: &Row, sums: &Arc<ByPlaces>) -> Result<Vec<Arc<Cell>>, Memory>
    ensures added { IfOk result (λ cells. HasAdded (λ key. counts_for key row.now)
        (arc_value sums.now) [] (map arc_value cells.items)) }
    ensures few { row.now.value.places ≤ 36 }
{
    let _places = row.value.places;
    let account = row.account.as_bytes();
    let none = Vec::new(alloc);
    let own = with_key(alloc, &none, account, &row.symbol, false, sums)?;
    let both = with_key(alloc, &own, account, &row.symbol, true, sums)?;
    with_above(alloc, both, account, &row.symbol, sums)
}

/// The cells with further sums in each account above one.
fn with_above(
    alloc: Global,
    mut cells: Vec<Arc<Cell>>,
    account: &[u8],
    symbol: &Text,
    sums: &Arc<ByPlaces>,
) -> Result<Vec<Arc<Cell>>, Memory>
    requires { AreCells (map arc_value cells.items) }
    ensures { IfOk result (λ new. HasAdded (is_above account.now symbol.now) (arc_value sums.now)
        (map arc_value cells.items) (map arc_value new.items)) }
{
    for end in 0..account.len() {
        if account[end] == b':' {
            cells = with_key(alloc, &cells, &account[..end], symbol, true, sums)?;
        }
    }
    Ok(cells)
}

/// The cells with further sums in those of a key.
fn with_key(
    alloc: Global,
    cells: &[Arc<Cell>],
    account: &[u8],
    symbol: &Text,
    below: bool,
    sums: &Arc<ByPlaces>,
) -> Result<Vec<Arc<Cell>>, Memory>
    requires { AreCells (map arc_value cells.now) }
    ensures { IfOk result (λ new. HasAdded
        (is_key (record { account = account.now; symbol = symbol.now; below = below }))
        (arc_value sums.now) (map arc_value cells.now) (map arc_value new.items)) }
{
    let mut one = Vec::new(alloc);
    push_cell(
        alloc,
        &mut one,
        Cell::of(alloc, account, symbol, below, sums)?,
    )?;
    joined(alloc, cells, &one)
}

/// The sums of two lists of cells, without a cell of which no sum is left, by one walk along both.
pub(crate) fn joined(
    alloc: Global,
    first: &[Arc<Cell>],
    second: &[Arc<Cell>],
) -> Result<Vec<Arc<Cell>>, Memory>
    requires first { AreCells (map arc_value first.now) }
    requires second { AreCells (map arc_value second.now) }
    ensures { IfOk result (λ both. AreJoined (map arc_value first.now) (map arc_value second.now)
        (map arc_value both.items)) }
{
    let mut both = Vec::with_capacity(alloc, first.len().max(second.len()))?;
    let mut at = 0;
    let mut other = 0;
    while at < first.len() || other < second.len() {
        match lesser_of(first, at, second, other) {
            Ordering::Less => {
                both.push(Arc::try_clone(&first[at])?)?;
                at += 1;
            }
            Ordering::Equal => {
                push_sum(alloc, &mut both, &first[at], &second[other])?;
                at += 1;
                other += 1;
            }
            Ordering::Greater => {
                both.push(Arc::try_clone(&second[other])?)?;
                other += 1;
            }
        }
    }
    Ok(both)
}

/// Which of two lists has the lesser key next.
fn lesser_of(first: &[Arc<Cell>], at: usize, second: &[Arc<Cell>], other: usize) -> Ordering
    ensures { result ≡ lesser_of (map arc_value (drop at first.now))
        (map arc_value (drop other second.now)) }
{
    if first.len() <= at {
        Ordering::Greater
    } else if second.len() <= other {
        Ordering::Less
    } else {
        first[at].compare_with(&second[other])
    }
}

/// Puts the sums of two cells last, unless no sum is left.
fn push_sum(
    alloc: Global,
    cells: &mut Vec<Arc<Cell>>,
    first: &Cell,
    second: &Cell,
) -> Result<(), Memory>
    ensures { OnOk result (HasPushedSum first.now second.now
        (map arc_value cells.old.items) (map arc_value cells.new.items)) }
{
    push_cell(alloc, cells, first.plus(alloc, second)?)
}

/// Puts a cell last, unless no sum of it is left.
fn push_cell(alloc: Global, cells: &mut Vec<Arc<Cell>>, cell: Cell) -> Result<(), Memory>
    ensures { OnOk result (HasPushed cell
        (map arc_value cells.old.items) (map arc_value cells.new.items)) }
{
    if cell.has_days() {
        cells.push(Arc::new(alloc, cell)?)?;
    }
    Ok(())
}
