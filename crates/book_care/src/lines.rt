//! The lines of a closing entry.
ghost use Rattle.std.specs.Prelude.{◌≡◌, ◌++◌, map, IfOk, OnOk, if◌then◌else◌, neg_ℤ, false};
ghost use Rattle.std.specs.List.{flat_map};
ghost use Rattle.hl_num.specs.Decimal.{units_of};
ghost use Rattle.report_cells.specs.Report.{row_seen, seen};
ghost use Rattle.book_care.specs.Kept as spec;
ghost use Rattle.book_care.specs.Lines.{shortest};

use book::Mixed;
use hl_base::{Memory, Text};
use hl_num::Dec;
use report_cells::{CellRow, Cells};
use std::alloc::Global;
use std::marker::Model;

/// An account, and a value in a symbol. Contracts see them.
#[derive(Drop)]
pub(crate) struct Line<'a> {
    pub(crate) account: &'a Text,
    pub(crate) symbol: &'a Text,
    pub(crate) value: Dec,
}

impl<'a> Model for Line<'a> {
    ghost use Rattle.book_care.specs.Lines.{Moved};

    ghost Value = { Moved };

    ghost view = { λ l. record { account = l.account.now; symbol = l.symbol.now; value = l.value } };
}

impl<'a> Line<'a> {
    ghost use Rattle.std.specs.Prelude.{◌≡◌};
    ghost use Rattle.book_care.specs.Lines.{opposite};

    pub(crate) fn account(&self) -> &'a Text
        ensures { result.now ≡ self.now.account }
    {
        self.account
    }

    pub(crate) fn symbol(&self) -> &'a Text
        ensures { result.now ≡ self.now.symbol }
    {
        self.symbol
    }

    pub(crate) fn value(&self) -> Dec
        ensures { result ≡ self.now.value }
    {
        self.value
    }

    /// The line with the other sign.
    pub(crate) fn opposite(&self) -> Line<'a>
        ensures { result ≡ opposite self.now }
    {
        Line {
            account: self.account,
            symbol: self.symbol,
            value: self.value.negated(),
        }
    }
}

/// A sum with as few decimals as it needs, or with the other sign.
fn signed(turns: bool, sum: Dec) -> Dec
    ensures { result ≡ shortest (if turns then neg_ℤ (units_of sum) else units_of sum) }
{
    if turns {
        sum.negated().trimmed()
    } else {
        sum.trimmed()
    }
}

/// Adds a line for each sum of an account.
fn add_sums<'a>(
    lines: &mut Vec<Line<'a>>,
    account: &'a Text,
    sums: &'a Mixed,
    turns: bool,
) -> Result<(), Memory>
    ensures { OnOk result
        (lines.new.items ≡ lines.old.items ++ spec.sum_lines turns account.now (seen sums.now)) }
{
    for (symbol, sum) in sums.entries() {
        lines.push(Line {
            account,
            symbol,
            value: signed(turns, *sum),
        })?;
    }
    Ok(())
}

/// Adds the lines that take the sums of an account away.
fn add_row<'a>(lines: &mut Vec<Line<'a>>, row: &'a CellRow) -> Result<(), Memory>
    ensures { OnOk result (lines.new.items ≡ lines.old.items ++ spec.row_lines (row_seen row.now)) }
{
    for cell in row.cells.as_slice() {
        add_sums(lines, &row.account, cell, true)?;
    }
    Ok(())
}

/// The lines of a closing entry, of the sums of the named accounts and of all together.
pub(crate) fn lines_of<'a>(
    alloc: Global,
    cells: &'a Cells,
    into: &'a Text,
) -> Result<Vec<Line<'a>>, Memory>
    ensures { IfOk result (λ lines.
        lines.items ≡ flat_map spec.row_lines (map row_seen cells.now.rows)
        ++ flat_map (spec.sum_lines false into.now) (map seen cells.now.totals)) }
{
    let mut lines = Vec::new(alloc);
    add_rows(&mut lines, cells.rows.as_slice())?;
    add_totals(&mut lines, cells.totals.as_slice(), into)?;
    Ok(lines)
}

/// Adds the lines of some rows.
fn add_rows<'a>(lines: &mut Vec<Line<'a>>, rows: &'a [CellRow]) -> Result<(), Memory>
    ensures { OnOk result
        (lines.new.items ≡ lines.old.items ++ flat_map spec.row_lines (map row_seen rows.now)) }
{
    for row in rows {
        add_row(lines, row)?;
    }
    Ok(())
}

/// Adds the lines by which an account takes some sums.
fn add_totals<'a>(
    lines: &mut Vec<Line<'a>>,
    totals: &'a [Mixed],
    into: &'a Text,
) -> Result<(), Memory>
    ensures { OnOk result
        (lines.new.items ≡ lines.old.items
        ++ flat_map (spec.sum_lines false into.now) (map seen totals.now)) }
{
    for total in totals {
        add_sums(lines, into, total, false)?;
    }
    Ok(())
}
