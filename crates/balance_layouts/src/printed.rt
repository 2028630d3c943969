//! Printed amounts.
ghost use Rattle.std.specs.Prelude.{◌≡◌, IfOk, map};
ghost use Rattle.book.specs.Styles.{style_in};
ghost use Rattle.report_cells.specs.Report.{seen};
ghost use Rattle.report_table.specs.Cells.{widest};
ghost use Rattle.balance_rows.specs.Rows.{first_cell};
ghost use Rattle.balance_layouts.specs.Shown.{texts_of};

use book::{Mixed, Styles, print_amount};
use hl_base::{Memory, Text};
use hl_num::Dec;
use report_table::Printed;
use std::alloc::Global;

/// Each sum of a list, printed in its symbol's style.
fn printed_sums(
    alloc: Global,
    sums: &[(Text, Dec)],
    styles: &Styles,
) -> Result<Vec<Printed>, Memory>
    ensures { IfOk result (λ amounts.
        amounts.items ≡ texts_of (style_in styles.now) (seen sums.now)) }
{
    let mut amounts = Vec::new(alloc);
    for (symbol, value) in sums {
        let style = styles.style(symbol);
        let text = print_amount(alloc, symbol, *value, &style)?;
        amounts.push(Printed::new(text))?;
    }
    Ok(amounts)
}

/// The sums of the first column, printed.
pub(crate) fn printed_cell(
    alloc: Global,
    cells: &[Mixed],
    styles: &Styles,
) -> Result<Vec<Printed>, Memory>
    ensures { IfOk result (λ amounts. amounts.items
        ≡ texts_of (style_in styles.now) (first_cell (map seen cells.now))) }
{
    match cells {
        [] => Ok(Vec::new(alloc)),
        [cell, ..] => printed_sums(alloc, cell.entries(), styles),
    }
}

/// The columns of the widest of some amounts, and at least that many.
#[tactic(auto, using(crate::proofs::Widths::widest_next))]
pub(crate) fn widest_amount(least: usize, amounts: &[Printed]) -> usize
    ensures { result ≡ widest least amounts.now }
{
    let mut columns = least;
    for amount in amounts {
        columns = columns.max(amount.columns());
    }
    columns
}
