//! Takings as rows of an index.
ghost use Rattle.std.specs.Prelude.{◌≡◌, ◌++◌, map, OnOk, IfOk};
ghost use Rattle.hl_num.specs.Decimal.{negated};
ghost use Rattle.live_index.specs.Net.{negated_row};
ghost use Rattle.index_cells.specs.Rowed.{rowed, rowed_all, rowed_off};

use hl_base::{Memory, Text};
use hl_time::Day;
use live_index::Row;
use report_cells::{Share, Taking};
use std::alloc::Global;

/// A row for each amount.
pub(crate) fn amounts_of(alloc: Global, takings: &[Taking]) -> Result<Vec<Row>, Memory>
    ensures { IfOk result (λ rows. rows.items ≡ rowed_all takings.now) }
{
    let mut rows = Vec::new(alloc);
    push_amounts(alloc, &mut rows, takings)?;
    Ok(rows)
}

/// The rows that take the amounts of some takings off, and those of others.
pub(crate) fn exchanged_amounts(
    alloc: Global,
    gone: &[Taking],
    more: &[Taking],
) -> Result<Vec<Row>, Memory>
    ensures { IfOk result (λ rows. rows.items ≡ rowed_off gone.now ++ rowed_all more.now) }
{
    let mut rows = Vec::new(alloc);
    push_gone(alloc, &mut rows, gone)?;
    push_amounts(alloc, &mut rows, more)?;
    Ok(rows)
}

/// Adds a row for each amount.
fn push_amounts(alloc: Global, rows: &mut Vec<Row>, takings: &[Taking]) -> Result<(), Memory>
    ensures { OnOk result (rows.new.items ≡ rows.old.items ++ rowed_all takings.now) }
{
    for taking in takings {
        push_amount(alloc, rows, taking)?;
    }
    Ok(())
}

/// Adds a row for each amount that takes it off.
fn push_gone(alloc: Global, rows: &mut Vec<Row>, takings: &[Taking]) -> Result<(), Memory>
    ensures { OnOk result (rows.new.items ≡ rows.old.items ++ rowed_off takings.now) }
{
    for taking in takings {
        push_off(alloc, rows, taking)?;
    }
    Ok(())
}

/// Adds the row of an amount, if there is one.
fn push_amount(alloc: Global, rows: &mut Vec<Row>, taking: &Taking) -> Result<(), Memory>
    ensures { OnOk result (rows.new.items
        ≡ rows.old.items ++ rowed taking.now.account taking.now.day taking.now.amount) }
{
    match &taking.amount {
        Some(share) => {
            rows.push(row_of(alloc, taking.account, taking.day, share)?)?;
            Ok(())
        }
        None => Ok(()),
    }
}

/// Adds the row that takes an amount off, if there is one.
fn push_off(alloc: Global, rows: &mut Vec<Row>, taking: &Taking) -> Result<(), Memory>
    ensures { OnOk result (rows.new.items ≡ rows.old.items
        ++ map negated_row (rowed taking.now.account taking.now.day taking.now.amount)) }
{
    match &taking.amount {
        Some(share) => {
            rows.push(row_off(alloc, taking.account, taking.day, share)?)?;
            Ok(())
        }
        None => Ok(()),
    }
}

/// The row of an amount.
fn row_of(alloc: Global, account: &str, day: Day, share: &Share) -> Result<Row, Memory>
    ensures { IfOk result (λ row. row ≡ record {
      account = account.now;
      symbol = share.now.0;
      day = day;
      value = share.now.1;
    }) }
{
    Ok(Row {
        account: Text::copied(alloc, account)?,
        symbol: Text::copied(alloc, share.symbol.as_str())?,
        day,
        value: share.value,
    })
}

/// The row that takes an amount off.
fn row_off(alloc: Global, account: &str, day: Day, share: &Share) -> Result<Row, Memory>
    ensures { IfOk result (λ row. row ≡ record {
      account = account.now;
      symbol = share.now.0;
      day = day;
      value = negated share.now.1;
    }) }
{
    Ok(Row {
        account: Text::copied(alloc, account)?,
        symbol: Text::copied(alloc, share.symbol.as_str())?,
        day,
        value: share.value.negated(),
    })
}
