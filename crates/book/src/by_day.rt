//! Transactions in the order of their days.
ghost use Rattle.std.specs.Prelude.{◌≡◌, OnOk};
ghost use Rattle.book.specs.ByDay.{by_day};

use crate::transaction::Txn;
use hl_base::Memory;

/// Sorts transactions by day; those of one day stay in their order.
pub fn sort_by_day(txns: &mut Vec<Txn>) -> Result<(), Memory>
    ensures { OnOk result (txns.new.items ≡ by_day txns.old.items) }
{
    txns.sort_by_key(|txn| txn.day.0)?;
    Ok(())
}
