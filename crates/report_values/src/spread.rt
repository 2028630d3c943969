//! The sums of a report as takings.
ghost use Rattle.std.specs.Prelude.{◌≡◌, ◌++◌, ◌<◌, ◌^◌, length, map, IfOk, OnOk};
ghost use Rattle.std.specs.List.{AllByRecursion};
ghost use Rattle.report_cells.specs.Report.{row_seen, seen};
ghost use Rattle.report_values.specs.Spread as spec;

use book::Mixed;
use hl_base::Memory;
use hl_time::Day;
use report_cells::{CellRow, Share, Taking};
use std::alloc::Global;

/// Adds the sums of a cell.
fn add_cell<'a>(
    takings: &mut Vec<Taking<'a>>,
    account: &'a str,
    number: u32,
    cell: &'a Mixed,
) -> Result<(), Memory>
    ensures { OnOk result (takings.new.items
        ≡ takings.old.items ++ map (spec.summed account.now number) (seen cell.now)) }
{
    for (symbol, value) in cell.entries() {
        takings.push(Taking {
            account,
            day: Day(number),
            amount: Some(Share {
                symbol,
                value: value.trimmed(),
            }),
        })?;
    }
    Ok(())
}

/// Adds the sums of an account in its columns.
fn add_cells<'a>(
    takings: &mut Vec<Taking<'a>>,
    account: &'a str,
    cells: &'a [Mixed],
) -> Result<(), Memory>
    requires { length cells.now < 2 ^ 32 }
    ensures { OnOk result (takings.new.items
        ≡ takings.old.items ++ spec.cells_from account.now 0 (map seen cells.now)) }
{
    for number in 0..cells.len() {
        add_cell(takings, account, number as u32, &cells[number])?;
    }
    Ok(())
}

/// Adds a row: its account, and its sums.
fn add_row<'a>(takings: &mut Vec<Taking<'a>>, row: &'a CellRow) -> Result<(), Memory>
    requires { length row.now.cells < 2 ^ 32 }
    ensures { OnOk result (takings.new.items
        ≡ takings.old.items ++ spec.spread_row (row_seen row.now)) }
{
    let account = row.account.as_str();
    takings.push(Taking {
        account,
        day: Day(0),
        amount: None,
    })?;
    add_cells(takings, account, row.cells.as_slice())
}

/// The sums of some rows as takings, each with the number of its column as its day.
pub(crate) fn spread<'a>(alloc: Global, rows: &'a [CellRow]) -> Result<Vec<Taking<'a>>, Memory>
    requires { AllByRecursion (λ row. length row.cells < 2 ^ 32) rows.now }
    ensures { IfOk result (λ takings. takings.items ≡ spec.spread (map row_seen rows.now)) }
{
    let mut takings = Vec::new(alloc);
    for row in rows {
        add_row(&mut takings, row)?;
    }
    Ok(takings)
}
