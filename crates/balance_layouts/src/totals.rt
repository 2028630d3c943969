//! What a table shows behind the cells of its rows and of its totals.
ghost use Rattle.std.specs.Prelude.{◌≡◌, ◌<◌, ◌++◌, ◌∷◌, [], true, IfOk, OnOk, map};
ghost use Rattle.book.specs.Styles.{style_in};
ghost use Rattle.report_cells.specs.Report.{seen};
ghost use Rattle.balance_rows.specs.Fitting.{Fit};
ghost use Rattle.balance_rows.specs.Sums.{entries_of, summed};
ghost use Rattle.balance_layouts.specs.Averages.{averages, least_with, symbols_out};
ghost use Rattle.balance_layouts.specs.Totals.{asks_totals, outs_of, with_total};

use crate::averaging::averages;
use balance_rows::{Layout, total_of};
use book::{Mixed, Styles};
use hl_base::{List, Memory, Text};
use std::alloc::Global;

/// Cells with one more behind them.
fn with_cell(cells: List<Mixed>, cell: Mixed) -> Result<List<Mixed>, Memory>
    ensures { IfOk result (λ all. all ≡ cells ++ cell ∷ []) }
{
    let mut all = cells.into_vec();
    all.push(cell)?;
    Ok(List::from_vec(all))
}

/// Cells with their total behind them.
#[tactic(auto, using(crate::proofs::Turns::seen_behind))]
fn with_sum(alloc: Global, cells: List<Mixed>) -> Result<List<Mixed>, Memory>
    requires { Fit (entries_of (map seen cells)) }
    ensures { IfOk result (λ all. map seen all ≡ map seen cells ++ summed (map seen cells) ∷ []) }
{
    let total = total_of(alloc, cells.as_slice())?;
    with_cell(cells, total)
}

/// Cells with the average of their total behind them.
#[tactic(auto, using(crate::proofs::Turns::seen_behind))]
fn with_average(
    alloc: Global,
    cells: List<Mixed>,
    columns: u64,
    styles: &Styles,
    least: &mut Option<Text>,
) -> Result<List<Mixed>, Memory>
    requires fits { Fit (entries_of (map seen cells)) }
    requires some { 0 < columns }
    ensures cells { IfOk result (λ all. map seen all
        ≡ map seen cells ++ averages columns (style_in styles.now) (summed (map seen cells)) ∷ []) }
    ensures least { OnOk result (least.new
        ≡ least_with least.old
        (symbols_out columns (style_in styles.now) (summed (map seen cells)))) }
{
    let total = total_of(alloc, cells.as_slice())?;
    let average = averages(alloc, &total, columns, styles, least)?;
    with_cell(cells, average)
}

/// Cells with their total and its average behind them.
#[tactic(auto, using(crate::proofs::Turns::seen_behind))]
fn with_both(
    alloc: Global,
    cells: List<Mixed>,
    columns: u64,
    styles: &Styles,
    least: &mut Option<Text>,
) -> Result<List<Mixed>, Memory>
    requires fits { Fit (entries_of (map seen cells)) }
    requires some { 0 < columns }
    ensures cells { IfOk result (λ all. map seen all
        ≡ map seen cells ++ (summed (map seen cells) ∷ [])
        ++ (averages columns (style_in styles.now) (summed (map seen cells)) ∷ [])) }
    ensures least { OnOk result (least.new
        ≡ least_with least.old
        (symbols_out columns (style_in styles.now) (summed (map seen cells)))) }
{
    let total = total_of(alloc, cells.as_slice())?;
    let average = averages(alloc, &total, columns, styles, least)?;
    with_cell(with_cell(cells, total)?, average)
}

/// The cells of a row, and behind them their total and its average by the number of columns, where the layout asks for
/// these. Of the symbols in which an average can't be told and the one that is kept already, the least is kept.
pub fn with_total(
    alloc: Global,
    cells: List<Mixed>,
    layout: &Layout,
    columns: u64,
    styles: &Styles,
    least: &mut Option<Text>,
) -> Result<List<Mixed>, Memory>
    requires fits { asks_totals layout.now ≡ true → Fit (entries_of (map seen cells)) }
    requires some { 0 < columns }
    ensures cells { IfOk result (λ all. map seen all
        ≡ with_total layout.now columns (style_in styles.now) (map seen cells)) }
    ensures least { OnOk result (least.new
        ≡ least_with least.old
        (outs_of layout.now columns (style_in styles.now) (map seen cells))) }
{
    match (layout.row_total, layout.average) {
        (false, false) => Ok(cells),
        (true, false) => with_sum(alloc, cells),
        (false, true) => with_average(alloc, cells, columns, styles, least),
        (true, true) => with_both(alloc, cells, columns, styles, least),
    }
}
