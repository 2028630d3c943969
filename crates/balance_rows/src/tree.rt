//! The rows of a tree.
ghost use Rattle.std.specs.Prelude.{◌≡◌, ◌++◌, ◌∷◌, [], ℕ, IfOk, OnOk, map};
ghost use Rattle.report_cells.specs.Report.{row_seen};
ghost use Rattle.balance_rows.specs.Fitting.{ColumnsFit};
ghost use Rattle.balance_rows.specs.Groups.{ColumnsAdd, group_row, group_sums};
ghost use Rattle.balance_rows.specs.Kept.{EachFits, added_all, all_entries, kept_at};
ghost use Rattle.balance_rows.specs.Trees.{tree};

use crate::groups::{Given, NamedGroup, named_groups};
use crate::sums::add_cell;
use book::Mixed;
use hl_base::{List, Memory, Text};
use report_cells::CellRow;
use std::alloc::Global;

/// The rows of a tree: each account and each of its parents, with the sums of all that lies below, in the order of
/// accounts.
pub fn tree_rows(alloc: Global, rows: &[CellRow], columns: usize) -> Result<List<CellRow>, Memory>
    requires { ColumnsFit (map row_seen rows.now) }
    ensures { IfOk result (λ made. map row_seen made ≡ tree columns (map row_seen rows.now)) }
{
    let groups = named_groups(alloc, rows)?;
    let made = group_rows(alloc, groups.as_slice(), columns)?;
    Ok(made)
}

/// The row of each group.
fn group_rows(alloc: Global, groups: &[NamedGroup], columns: usize) -> Result<List<CellRow>, Memory>
    requires { ColumnsAdd groups.now }
    ensures { IfOk result (λ made. made ≡ map (group_row columns) groups.now) }
{
    let mut made = Vec::new(alloc);
    for group in groups {
        made.push(row_of(alloc, group, columns)?)?;
    }
    Ok(List::from_vec(made))
}

/// The row of a group: its account, with the sums of each column.
fn row_of(alloc: Global, group: &NamedGroup, columns: usize) -> Result<CellRow, Memory>
    requires { (at : ℕ) → EachFits [] (all_entries (map (kept_at at) group.now.1)) }
    ensures { IfOk result (λ row. row ≡ group_row columns group.now) }
{
    let account = Text::copied(alloc, group.account())?;
    let cells = sums_of(alloc, group.rows(), columns)?;
    Ok(CellRow { account, cells })
}

/// The sums of each column of some rows.
pub(crate) fn sums_of(alloc: Global, rows: &[Given], columns: usize) -> Result<List<Mixed>, Memory>
    requires { (at : ℕ) → EachFits [] (all_entries (map (kept_at at) rows.now)) }
    ensures { IfOk result (λ cells. cells ≡ group_sums columns rows.now) }
{
    let mut cells = Vec::new(alloc);
    for at in 0..columns {
        push_column(alloc, &mut cells, rows, at)?;
    }
    Ok(List::from_vec(cells))
}

/// Appends the sums of one column of some rows.
fn push_column(
    alloc: Global,
    cells: &mut Vec<Mixed>,
    rows: &[Given],
    at: usize,
) -> Result<(), Memory>
    requires { EachFits [] (all_entries (map (kept_at at) rows.now)) }
    ensures { OnOk result (cells.new.items
        ≡ cells.old.items ++ added_all [] (all_entries (map (kept_at at) rows.now)) ∷ []) }
{
    let sums = column_sum(alloc, rows, at)?;
    cells.push(sums)?;
    Ok(())
}

/// The sums of one column of some rows.
fn column_sum(alloc: Global, rows: &[Given], at: usize) -> Result<Mixed, Memory>
    requires { EachFits [] (all_entries (map (kept_at at) rows.now)) }
    ensures { IfOk result (λ sums. sums ≡ added_all [] (all_entries (map (kept_at at) rows.now))) }
{
    let mut sums = Mixed::new(alloc);
    for given in rows {
        add_column(alloc, &mut sums, given, at)?;
    }
    Ok(sums)
}

/// Adds a row's cell in a column, if it has one.
#[tactic(auto, using(crate::proofs::TreesLaws::at_some))]
fn add_column(alloc: Global, sums: &mut Mixed, given: &Given, at: usize) -> Result<(), Memory>
    requires { EachFits sums.old (kept_at at given.now) }
    ensures { OnOk result (sums.new ≡ added_all sums.old (kept_at at given.now)) }
{
    match given.cells().get(at) {
        Some(cell) => add_cell(alloc, sums, cell),
        None => Ok(()),
    }
}
