//! The least symbol that is out of range.
ghost use Rattle.std.specs.Prelude.{◌≡◌, IfOk, IfErr, OnOk, None, Some, map};
ghost use Rattle.std.specs.Option.{option_copied};
ghost use Rattle.report_cells.specs.Bounds.{first_out};
ghost use Rattle.report_cells.specs.Follows.{Follow};
ghost use Rattle.report_cells.specs.Report.{row_seen, rows_in, seen, totals_in};
ghost use Rattle.report_values.specs.Refusals as spec;
ghost use Rattle.report_values.specs.Refusals.{IsRefused};

use crate::numbers::numbers;
use hl_base::{List, Memory, Text};
use hl_time::Span;
use report_cells::{Cells, Reach, ReportFault, Share, Taking, make_cells};
use std::alloc::Global;
use std::cmp::Ordering;

/// The lesser of two symbols, or the one that is there.
pub(crate) fn lesser<'a>(a: Option<&'a Text>, b: Option<&'a Text>) -> Option<&'a Text>
    ensures { option_copied result ≡ spec.lesser (option_copied a.entry) (option_copied b.entry) }
{
    match a {
        None => b,
        Some(one) => match b {
            None => Some(one),
            Some(other) => Some(lesser_of(one, other)),
        },
    }
}

/// The lesser of two symbols.
fn lesser_of<'a>(one: &'a Text, other: &'a Text) -> &'a Text
    ensures { Some result.now ≡ spec.lesser (Some one.now) (Some other.now) }
{
    match one.as_str().cmp(other.as_str()) {
        Ordering::Greater => other,
        Ordering::Less | Ordering::Equal => one,
    }
}

/// The symbol of an amount that has no value.
pub(crate) fn lost<'a>(amount: &Option<Share<'a>>, worth: &Option<Share<'a>>) -> Option<&'a Text>
    ensures { option_copied result ≡ spec.lost amount.now worth.now }
{
    match amount {
        Some(share) => match worth {
            Some(_) => None,
            None => Some(share.symbol),
        },
        None => None,
    }
}

/// The least symbol whose amounts are too large to sum.
pub(crate) fn first_out(alloc: Global, takings: &[Taking]) -> Result<Option<Text>, Memory>
    ensures { IfOk result (λ first. first ≡ first_out takings.now) }
{
    let one = numbers(alloc, 1)?;
    match make_cells(alloc, takings, one, Reach::Within) {
        Ok(_) => Ok(None),
        Err(ReportFault::Range { symbol }) => Ok(Some(symbol)),
        Err(ReportFault::Memory) => Err(Memory),
        Err(
            ReportFault::TooWide {
                columns: _,
                limit: _,
            },
        ) => unreachable!(),
    }
}

/// The fault that tells a symbol.
pub(crate) fn range_of(alloc: Global, symbol: &Text) -> ReportFault
    ensures { IsRefused (Some symbol.now) result }
{
    match Text::copied(alloc, symbol.as_str()) {
        Ok(symbol) => ReportFault::Range { symbol },
        Err(_) => ReportFault::Memory,
    }
}

/// Refuses by a symbol, if there is one.
pub(crate) fn refused_by(alloc: Global, first: Option<&Text>) -> Result<(), ReportFault>
    ensures none { OnOk result (option_copied first.entry ≡ None) }
    ensures fault { IfErr result (IsRefused (option_copied first.entry)) }
{
    match first {
        Some(symbol) => Err(range_of(alloc, symbol)),
        None => Ok(()),
    }
}

/// The fault that tells the lesser of two symbols.
pub(crate) fn range_of_lesser(alloc: Global, first: Option<&Text>, symbol: &Text) -> ReportFault
    ensures { IsRefused (spec.lesser (option_copied first.entry) (Some symbol.now)) result }
{
    match first {
        Some(other) => range_of(alloc, lesser_of(other, symbol)),
        None => range_of(alloc, symbol),
    }
}

/// The cells of values, unless a symbol is refused already or its values are too large to sum.
pub(crate) fn cells_of(
    alloc: Global,
    values: &[Taking],
    columns: List<Span>,
    reach: Reach,
    first: Option<&Text>,
) -> Result<Cells, ReportFault>
    requires { Follow columns }
    ensures columns { IfOk result (λ c. c.columns ≡ columns) }
    ensures rows { IfOk result (λ c. map row_seen c.rows ≡ rows_in reach columns values.now) }
    ensures totals { IfOk result (λ c. map seen c.totals ≡ totals_in reach columns values.now) }
    ensures none { OnOk result
        (spec.lesser (option_copied first.entry) (first_out values.now) ≡ None) }
    ensures fault { IfErr result
        (IsRefused (spec.lesser (option_copied first.entry) (first_out values.now))) }
{
    match make_cells(alloc, values, columns, reach) {
        Ok(cells) => match first {
            None => Ok(cells),
            Some(symbol) => Err(range_of(alloc, symbol)),
        },
        Err(ReportFault::Range { symbol }) => Err(range_of_lesser(alloc, first, &symbol)),
        Err(ReportFault::Memory) => Err(ReportFault::Memory),
        Err(
            ReportFault::TooWide {
                columns: _,
                limit: _,
            },
        ) => unreachable!(),
    }
}
