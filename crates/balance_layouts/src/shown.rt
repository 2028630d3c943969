//! The accounts that a balance list shows.
ghost use Rattle.std.specs.Prelude.{◌≡◌, IfOk, List, ℕ, map};
ghost use Rattle.std.specs.List.{flat_map};
ghost use Rattle.book.specs.Styles.{style_in};
ghost use Rattle.report_cells.specs.Report.{row_seen};
ghost use Rattle.report_table.specs.Cells.{widest};
ghost use Rattle.balance_rows.specs.Layouts.{name_in};
ghost use Rattle.balance_layouts.specs.Shown.{printed_row};

use crate::printed::{printed_cell, widest_amount};
use balance_rows::{Order, name_of};
use book::Styles;
use hl_base::{Memory, Text};
use report_cells::CellRow;
use report_table::Printed;
use std::alloc::Global;
use std::marker::Model;

/// An account's name as it is shown, with its amounts. Contracts see both as a pair.
#[derive(Drop)]
pub(crate) struct Shown {
    name: Text,
    amounts: Vec<Printed>,
}

impl Model for Shown {
    ghost use Rattle.std.specs.Prelude.{List, ℕ};

    ghost Value = { List ℕ × List (List ℕ) };

    ghost view = { λ s. (s.name, s.amounts.items) };
}

impl Shown {
    pub fn name(&self) -> &[u8]
        ensures { result.now ≡ self.now.0 }
    {
        self.name.as_bytes()
    }

    pub fn amounts(&self) -> &[Printed]
        ensures { result.now ≡ self.now.1 }
    {
        self.amounts.as_slice()
    }
}

/// A row, printed.
fn printed_row(alloc: Global, row: &CellRow, order: Order, styles: &Styles) -> Result<Shown, Memory>
    ensures { IfOk result (λ shown. shown
        ≡ printed_row (name_in order) (style_in styles.now) (row_seen row.now)) }
{
    let name = name_of(alloc, &row.account, order)?;
    let amounts = printed_cell(alloc, row.cells.as_slice(), styles)?;
    Ok(Shown { name, amounts })
}

/// The rows, printed.
pub(crate) fn printed_rows(
    alloc: Global,
    rows: &[CellRow],
    order: Order,
    styles: &Styles,
) -> Result<Vec<Shown>, Memory>
    ensures { IfOk result (λ shown. shown.items
        ≡ map (printed_row (name_in order) (style_in styles.now)) (map row_seen rows.now)) }
{
    let mut shown = Vec::new(alloc);
    for row in rows {
        shown.push(printed_row(alloc, row, order, styles)?)?;
    }
    Ok(shown)
}

/// The columns of the widest amount of some rows, and at least that many.
#[tactic(auto, using(crate::proofs::Widths::widest_next_row))]
pub(crate) fn widest_row(least: usize, rows: &[Shown]) -> usize
    ensures { result ≡ widest least (flat_map (λ row. row.1) rows.now) }
{
    let mut columns = least;
    for row in rows {
        columns = widest_amount(columns, row.amounts());
    }
    columns
}
