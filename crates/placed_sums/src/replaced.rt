//! An index of a book in which a transaction gets another form.
ghost use Rattle.std.specs.Prelude.{◌≡◌, ◌++◌, IfOk, OnErr, OnOk};
ghost use Rattle.placed_sums.specs.Replaced.{Replaces, rows_replacing};

use crate::rows::rows_replacing;
use book::Txn;
use hl_base::Memory;
use live_index::{Index, Prepared};
use std::alloc::Global;

/// Takes all the memory that an index needs to tell a book in which a transaction gets another
/// form: the rows of the old form are negated and put in, with those of the new one. The index
/// stays as it is.
pub fn prepare_replaced(
    alloc: Global,
    index: &mut Index,
    old: &Txn,
    new: &Txn,
) -> Result<Prepared, Memory>
    requires { Replaces index.old old.now new.now }
    ensures made { IfOk result (λ p. p ≡ record {
      before = index.old;
      after = index.old ++ rows_replacing old.now new.now;
    }) }
    ensures stays { index.new ≡ index.old }
{
    let rows = rows_replacing(alloc, old, new)?;
    let prepared = index.prepare(&rows)?;
    Ok(prepared)
}

/// An index of a book in which a transaction gets another form, in place.
pub fn replace(alloc: Global, index: &mut Index, old: &Txn, new: &Txn) -> Result<(), Memory>
    requires { Replaces index.old old.now new.now }
    ensures ok { OnOk result (index.new ≡ index.old ++ rows_replacing old.now new.now) }
    ensures err { OnErr result (index.new ≡ index.old) }
{
    let prepared = prepare_replaced(alloc, index, old, new)?;
    index.put(prepared);
    Ok(())
}
