//! The sums of the accounts while takings are read, one after another.
ghost use Rattle.std.specs.Prelude.{◌≡◌, OnOk};
ghost use Rattle.report_cells.specs.Kept.{AreOrdered, CanTake, row_with};

use crate::account_key::AccountKey;
use crate::row::Row;
use crate::taking::Taking;
use hl_base::Memory;
use std::alloc::Global;
use std::collections::BTreeMap;

/// Adds a taking to a column of its account, which has a row from then on.
pub(crate) fn add_taking<'a>(
    alloc: Global,
    rows: &mut BTreeMap<AccountKey<'a>, Row>,
    width: usize,
    place: Option<usize>,
    taking: &Taking<'a>,
) -> Result<(), Memory>
    requires ordered { AreOrdered rows.old.entries }
    requires fits { CanTake width place taking.now rows.old.entries }
    ensures { OnOk result (rows.new.entries ≡ row_with width place taking.now rows.old.entries) }
{
    if let Some(row) = rows.get_mut(&AccountKey::new(taking.account)) {
        return row.add(alloc, place, &taking.amount);
    }
    let mut row = Row::empty(alloc, width)?;
    row.add(alloc, place, &taking.amount)?;
    rows.insert(AccountKey::new(taking.account), row)?;
    Ok(())
}
