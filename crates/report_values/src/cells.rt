//! The sums of a report by account and column, valued.
ghost use Rattle.std.specs.Prelude.{◌≡◌, ◌<◌, ◌^◌, map, length, IfOk, IfErr, OnOk, None, Some};
ghost use Rattle.std.specs.List.{AllByRecursion};
ghost use Rattle.report_cells.specs.Bounds as bounds;
ghost use Rattle.report_cells.specs.Follows.{Follow};
ghost use Rattle.report_cells.specs.Report.{row_seen, rows_in, seen, totals_in};
ghost use Rattle.report_values.specs.Cells as spec;
ghost use Rattle.report_values.specs.Cells.{planned_of};
ghost use Rattle.report_values.specs.ValueDays.{day_by};
ghost use Rattle.report_values.specs.Refusals.{IsRefused, first_refused, values_of};
ghost use Rattle.report_values.specs.Worth.{priced_of};
ghost use Rattle.report_values.specs.declared.dates.Dates.TheVariants as dates;

use crate::dates::Dates;
use crate::fitting::fitting;
use crate::market::Market;
use crate::numbers::numbers;
use crate::refusals::{cells_of, first_out, lesser, range_of, range_of_lesser};
use crate::spread::spread;
use crate::values::value_each;
use hl_base::{List, Memory, Text};
use hl_time::{Day, Span};
use report_cells::{Cells, Reach, ReportFault, Taking, make_cells};
use std::alloc::Global;

/// How the sums of a report are made and valued: its columns and which days they count, the day on which each column
/// is valued, and by what.
#[derive(Clone, Copy)]
pub struct Plan<'a> {
    pub columns: &'a [Span],
    pub reach: Reach,
    pub days: &'a [Day],
    pub market: &'a Market<'a>,
}

/// A copy of some columns.
fn copied(alloc: Global, columns: &[Span]) -> Result<List<Span>, Memory>
    ensures { IfOk result (λ copy. copy ≡ columns.now) }
{
    let mut copy = Vec::new(alloc);
    copy.extend_from_slice(columns)?;
    Ok(List::from_vec(copy))
}

/// The cells of a report with what their sums are worth, those of each column on its day. A cell is the sum of the
/// values of its amounts, and a total is the sum of those of all accounts. `Range` comes exactly where the value of an
/// amount is out of range, or the absolute values in a symbol reach 2^127 in units of their greatest number of
/// decimals, and tells the least such symbol.
pub fn value_cells<'x>(
    alloc: Global,
    cells: &'x Cells,
    days: &[Day],
    market: &Market<'x>,
) -> Result<Cells, ReportFault>
    requires some { 0 < length cells.now.columns }
    requires few { length cells.now.columns < 2 ^ 32 }
    requires whole { AllByRecursion (λ row. length row.cells < 2 ^ 32) cells.now.rows }
    ensures columns { IfOk result (λ c. c.columns ≡ cells.now.columns) }
    ensures rows { IfOk result (λ c. spec.rows_of c
        ≡ spec.valued_rows (priced_of market.now) days.now
        (length cells.now.columns) (spec.rows_of cells.now)) }
    ensures totals { IfOk result (λ c. map seen c.totals
        ≡ spec.valued_totals (priced_of market.now) days.now
        (length cells.now.columns) (spec.rows_of cells.now)) }
    ensures within { OnOk result
        (spec.first_cell (priced_of market.now) days.now (spec.rows_of cells.now) ≡ None) }
    ensures fault { IfErr result
        (IsRefused (spec.first_cell (priced_of market.now) days.now (spec.rows_of cells.now))) }
{
    let columns = copied(alloc, cells.columns.as_slice())?;
    let numbered = numbers(alloc, cells.columns.len())?;
    let sums = spread(alloc, cells.rows.as_slice())?;
    let values = value_each(alloc, &sums, &Dates::Columns(days), market)?;
    match cells_of(alloc, &values.takings, numbered, Reach::Within, values.lost) {
        Ok(mut valued) => {
            valued.columns = columns;
            Ok(valued)
        }
        Err(fault) => Err(fault),
    }
}

/// The cells of takings, each with its value on its own day. `Range` comes exactly where the absolute amounts of a
/// symbol or the absolute values in one reach 2^127, in units of their greatest number of decimals, or the value of an
/// amount is out of range, and tells the least such symbol.
pub fn cells_then<'x>(
    alloc: Global,
    takings: &[Taking<'x>],
    columns: List<Span>,
    reach: Reach,
    market: &Market<'x>,
) -> Result<Cells, ReportFault>
    requires { Follow columns }
    ensures columns { IfOk result (λ c. c.columns ≡ columns) }
    ensures rows { IfOk result (λ c. map row_seen c.rows
        ≡ rows_in reach columns (values_of (priced_of market.now) (day_by dates.Own) takings.now)) }
    ensures totals { IfOk result (λ c. map seen c.totals
        ≡ totals_in reach columns
        (values_of (priced_of market.now) (day_by dates.Own) takings.now)) }
    ensures within { OnOk result
        (first_refused (priced_of market.now) (day_by dates.Own) takings.now ≡ None) }
    ensures fault { IfErr result
        (IsRefused (first_refused (priced_of market.now) (day_by dates.Own) takings.now)) }
{
    let plain = first_out(alloc, takings)?;
    let values = value_each(alloc, takings, &Dates::Own, market)?;
    let least = lesser(plain.as_ref(), values.lost);
    cells_of(alloc, &values.takings, columns, reach, least)
}

/// The plain sums of the takings whose amounts aren't too large to sum.
fn fitting_cells(alloc: Global, takings: &[Taking], plan: &Plan) -> Result<Cells, Memory>
    requires { Follow plan.now.columns.now }
    ensures columns { IfOk result (λ c. c.columns ≡ plan.now.columns.now) }
    ensures rows { IfOk result (λ c. spec.rows_of c
        ≡ spec.plain_rows (planned_of plan.now) (spec.fitting takings.now)) }
{
    let columns = copied(alloc, plan.columns)?;
    let kept = fitting(alloc, takings)?;
    match make_cells(alloc, &kept, columns, plan.reach) {
        Ok(cells) => Ok(cells),
        Err(ReportFault::Memory) => Err(Memory),
        Err(ReportFault::Range { symbol: _ }) => unreachable!(),
        Err(
            ReportFault::TooWide {
                columns: _,
                limit: _,
            },
        ) => unreachable!(),
    }
}

/// The least symbol that is out of range, where there is one whose amounts are too large to sum.
fn least_fault(alloc: Global, takings: &[Taking], plan: &Plan, first: &Text) -> ReportFault
    requires follow { Follow plan.now.columns.now }
    requires few { length plan.now.columns.now < 2 ^ 32 }
    requires first { bounds.first_out takings.now ≡ Some first.now }
    ensures { IsRefused (spec.first_on (planned_of plan.now) takings.now) result }
{
    match fitting_cells(alloc, takings, plan) {
        Ok(cells) => match value_cells(alloc, &cells, plan.days, plan.market) {
            Ok(_) => range_of(alloc, first),
            Err(ReportFault::Range { symbol }) => range_of_lesser(alloc, Some(first), &symbol),
            Err(ReportFault::Memory) => ReportFault::Memory,
            Err(
                ReportFault::TooWide {
                    columns: _,
                    limit: _,
                },
            ) => unreachable!(),
        },
        Err(Memory) => ReportFault::Memory,
    }
}

/// The cells of takings with what their sums are worth, those of each column on its day: what `value_cells` makes of
/// `make_cells`. `Range` tells the least symbol of all that are out of range: those whose absolute amounts reach 2^127
/// in units of their greatest number of decimals, and those that `value_cells` refuses where these are left out.
pub fn cells_on(alloc: Global, takings: &[Taking], plan: &Plan) -> Result<Cells, ReportFault>
    requires follow { Follow plan.now.columns.now }
    requires few { length plan.now.columns.now < 2 ^ 32 }
    ensures columns { IfOk result (λ c. c.columns ≡ plan.now.columns.now) }
    ensures rows { IfOk result (λ c. spec.rows_of c
        ≡ spec.rows_on (planned_of plan.now) takings.now) }
    ensures totals { IfOk result (λ c. map seen c.totals
        ≡ spec.totals_on (planned_of plan.now) takings.now) }
    ensures within { OnOk result (spec.first_on (planned_of plan.now) takings.now ≡ None) }
    ensures fault { IfErr result (IsRefused (spec.first_on (planned_of plan.now) takings.now)) }
{
    let columns = copied(alloc, plan.columns)?;
    match make_cells(alloc, takings, columns, plan.reach) {
        Ok(cells) => value_cells(alloc, &cells, plan.days, plan.market),
        Err(ReportFault::Range { symbol }) => Err(least_fault(alloc, takings, plan, &symbol)),
        Err(ReportFault::Memory) => Err(ReportFault::Memory),
        Err(
            ReportFault::TooWide {
                columns: _,
                limit: _,
            },
        ) => unreachable!(),
    }
}
