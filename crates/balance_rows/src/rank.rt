//! Rows as items of an order.
ghost use Rattle.std.specs.Prelude.{◌≡◌};
ghost use Rattle.book.specs.Entries.{AreSums};
ghost use Rattle.balance_rows.specs.Ranks.{rank_cmp, standing_by};

use crate::compared::compare_amounts;
use book::{Mixed, compare_accounts};
use hl_base::Text;
use hl_num::Dec;
use report_cells::CellRow;
use std::cmp::Ordering;
use std::marker::Model;

/// A row that stands by its total, or where there is none by its last cell. Contracts see the amount that it stands by
/// with the row.
#[derive(Drop)]
pub(crate) struct Ranked {
    total: Option<Mixed>,
    row: CellRow,
}

impl Model for Ranked {
    ghost use Rattle.std.specs.Prelude.{List, ℕ};
    ghost use Rattle.hl_num.specs.Decimal.{Decimal};
    ghost use Rattle.report_cells.specs.declared.cells.CellRow.{CellRow};
    ghost use Rattle.balance_rows.specs.Ranks.{standing_by};

    ghost Value = { List (List ℕ × Decimal) × CellRow };

    ghost view = { λ r. (standing_by r.total r.row.cells, r.row) };
}

impl Ranked {
    pub fn new(total: Option<Mixed>, row: CellRow) -> Ranked
        ensures { result ≡ (standing_by total row.cells, row) }
    {
        Ranked { total, row }
    }

    pub fn into_row(self) -> CellRow
        ensures { result ≡ self.1 }
    {
        self.row
    }

    /// How two rows compare: by the amounts that they stand by, the greater first, and then by their accounts.
    pub fn compare(&self, other: &Ranked) -> Ordering
        ensures { result ≡ rank_cmp self.now other.now }
    {
        match compare_amounts(self.amount(), other.amount()) {
            Ordering::Equal => compare_accounts(&self.row.account, &other.row.account),
            order => order,
        }
    }

    /// The amount that the row stands by.
    fn amount(&self) -> &[(Text, Dec)]
        ensures value { result.now ≡ self.now.0 }
        ensures sums { AreSums result.now }
    {
        match &self.total {
            Some(total) => total.entries(),
            None => last_cell(self.row.cells.as_slice()),
        }
    }
}

/// The entries of the last cell, if there is one.
fn last_cell(cells: &[Mixed]) -> &[(Text, Dec)]
    ensures value { result.now ≡ standing_by None cells.now }
    ensures sums { AreSums result.now }
{
    match cells.last() {
        Some(cell) => cell.entries(),
        None => &[],
    }
}
