//! Rows by their amounts.
ghost use Rattle.std.specs.Prelude.{◌≡◌, IfOk, OnOk, map};
ghost use Rattle.std.specs.List.{AllByRecursion};
ghost use Rattle.report_cells.specs.Report.{row_seen};
ghost use Rattle.balance_rows.specs.Fitting.{RowFits};
ghost use Rattle.balance_rows.specs.Layouts.{by_amounts};
ghost use Rattle.balance_rows.specs.Orders.{sorted};
ghost use Rattle.balance_rows.specs.Ranks.{rank_cmp};
ghost use Rattle.balance_rows.specs.Standing.{StandsBy, ranked_row};

use crate::layout::Basis;
use crate::rank::Ranked;
use crate::totals::total_of;
use hl_base::{List, Memory};
use report_cells::CellRow;
use std::alloc::Global;

/// The rows by their amounts, the greater first, and then by their accounts: those of changes by their totals, and
/// those of ending balances by their last cells.
pub fn sorted_rows(
    alloc: Global,
    rows: List<CellRow>,
    basis: Basis,
) -> Result<List<CellRow>, Memory>
    requires { basis ≡ Basis.Changes → AllByRecursion RowFits (map row_seen rows) }
    ensures { IfOk result (λ sorted. map row_seen sorted ≡ by_amounts basis (map row_seen rows)) }
{
    let mut ranks = ranks_of(alloc, rows, basis)?;
    put_in_order(&mut ranks)?;
    let sorted = rows_of(alloc, ranks)?;
    Ok(sorted)
}

/// Each row with what it stands by.
fn ranks_of(alloc: Global, rows: List<CellRow>, basis: Basis) -> Result<Vec<Ranked>, Memory>
    requires { basis ≡ Basis.Changes → AllByRecursion RowFits (map row_seen rows) }
    ensures rows { IfOk result (λ ranks. map ranked_row ranks.items ≡ map row_seen rows) }
    ensures each { IfOk result (λ ranks. AllByRecursion (StandsBy basis) ranks.items) }
{
    let mut ranks = Vec::new(alloc);
    for row in rows.into_vec() {
        ranks.push(rank_of(alloc, row, basis)?)?;
    }
    Ok(ranks)
}

/// A row with what it stands by.
#[tactic(auto, using(crate::proofs::Ranking::last_seen))]
fn rank_of(alloc: Global, row: CellRow, basis: Basis) -> Result<Ranked, Memory>
    requires { basis ≡ Basis.Changes → RowFits (row_seen row) }
    ensures row { IfOk result (λ rank. rank.1 ≡ row) }
    ensures amount { IfOk result (λ rank. StandsBy basis rank) }
{
    match basis {
        Basis::Changes => {
            let total = total_of(alloc, row.cells.as_slice())?;
            Ok(Ranked::new(Some(total), row))
        }
        Basis::Cumulative => Ok(Ranked::new(None, row)),
        Basis::Historical => Ok(Ranked::new(None, row)),
    }
}

/// Sorts rows by the amounts that they stand by.
fn put_in_order(ranks: &mut Vec<Ranked>) -> Result<(), Memory>
    ensures { OnOk result (ranks.new.items ≡ sorted rank_cmp ranks.old.items) }
{
    ranks.sort_by(|a, b| a.compare(b))?;
    Ok(())
}

/// The rows, in their order.
fn rows_of(alloc: Global, ranks: Vec<Ranked>) -> Result<List<CellRow>, Memory>
    ensures { IfOk result (λ rows. rows ≡ map (λ rank. rank.1) ranks.items) }
{
    let mut rows = Vec::new(alloc);
    for rank in ranks {
        rows.push(rank.into_row())?;
    }
    Ok(List::from_vec(rows))
}
