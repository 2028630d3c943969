//! Transactions as they are written, kept while their assignments are made.
ghost use Rattle.std.specs.Prelude.{◌≡◌, ◌<◌, Option, Some, length, slice_set, OnOk};
ghost use Rattle.std.specs.List.{slice_get};
ghost use Rattle.book.specs.declared.fault.Cause.{Cause};
ghost use Rattle.book.specs.declared.transaction.Txn.{Txn};
ghost use Rattle.balancing.specs.Back.{IsKept, txns_back, causes_back};

use book::{Boxed, Cause, Mark, Txn};
use hl_base::{List, Memory, Text};
use hl_time::Day;
use std::alloc::Global;
use std::mem::replace;

/// A transaction with its number, and what is wrong with it.
#[derive(Drop)]
pub(crate) struct Written {
    pub(crate) number: usize,
    pub(crate) txn: Txn,
    pub(crate) cause: Option<Boxed<Cause>>,
}

/// Keeps a transaction, and what is wrong with it. Their places are left to others.
pub(crate) fn keep(
    alloc: Global,
    kept: &mut Vec<Written>,
    txns: &mut Vec<Txn>,
    causes: &mut Vec<Option<Boxed<Cause>>>,
    number: usize,
) -> Result<(), Memory>
    requires txns { number < length txns.old.items }
    requires causes { number < length causes.old.items }
    ensures txns { OnOk result ((txn : Txn)
        → slice_set txns.new.items number txn ≡ slice_set txns.old.items number txn) }
    ensures causes { OnOk result ((cause : Option Cause)
        → slice_set causes.new.items number cause ≡ slice_set causes.old.items number cause) }
    ensures places { OnOk result (length txns.new.items ≡ length txns.old.items) }
    ensures causes_places { OnOk result (length causes.new.items ≡ length causes.old.items) }
    ensures back { OnOk result (IsKept kept.old.items txns.old.items causes.old.items kept.new.items
        txns.new.items causes.new.items) }
    ensures later { OnOk result ((txn : Txn) (cause : Option Cause)
        → IsKept kept.old.items txns.old.items causes.old.items
        kept.new.items (slice_set txns.new.items number txn)
        (slice_set causes.new.items number cause)) }
{
    let txn = take_txn(alloc, txns, number);
    let cause = take_cause(causes, number);
    kept.push(Written { number, txn, cause })?;
    Ok(())
}

/// Takes a transaction out of its place.
fn take_txn(alloc: Global, txns: &mut Vec<Txn>, number: usize) -> Txn
    requires { number < length txns.old.items }
    ensures taken { slice_get txns.old.items number ≡ Some result }
    ensures places { length txns.new.items ≡ length txns.old.items }
    ensures others { (txn : Txn) → slice_set txns.new.items number txn
        ≡ slice_set txns.old.items number txn }
{
    replace(&mut txns[number], vacant(alloc))
}

/// Takes what is wrong with a transaction out of its place.
fn take_cause(causes: &mut Vec<Option<Boxed<Cause>>>, number: usize) -> Option<Boxed<Cause>>
    requires { number < length causes.old.items }
    ensures taken { slice_get causes.old.items number ≡ Some result }
    ensures places { length causes.new.items ≡ length causes.old.items }
    ensures others { (cause : Option Cause)
        → slice_set causes.new.items number cause ≡ slice_set causes.old.items number cause }
{
    replace(&mut causes[number], None)
}

/// A transaction that holds a place.
fn vacant(alloc: Global) -> Txn {
    Txn {
        line: 0,
        day: Day(1),
        mark: Mark::Unmarked,
        code: Text::new(alloc),
        description: Text::new(alloc),
        comment: Text::new(alloc),
        tags: List::new(alloc),
        postings: List::new(alloc),
    }
}

/// Puts what is kept back into its places, the last one first.
pub(crate) fn put_back(
    txns: &mut Vec<Txn>,
    causes: &mut Vec<Option<Boxed<Cause>>>,
    mut kept: Vec<Written>,
)
    ensures txns { txns.new.items ≡ txns_back kept.items txns.old.items }
    ensures causes { causes.new.items ≡ causes_back kept.items causes.old.items }
{
    while let Some(written) = kept.pop() {
        put_written(txns, causes, written);
    }
}

/// Puts a transaction, and what is wrong with it, back into their places.
fn put_written(txns: &mut Vec<Txn>, causes: &mut Vec<Option<Boxed<Cause>>>, written: Written)
    ensures txns { txns.new.items ≡ slice_set txns.old.items written.number written.txn }
    ensures causes { causes.new.items ≡ slice_set causes.old.items written.number written.cause }
{
    let Written { number, txn, cause } = written;
    put_txn(txns, number, txn);
    put_cause(causes, number, cause);
}

fn put_txn(txns: &mut Vec<Txn>, number: usize, txn: Txn)
    ensures { txns.new.items ≡ slice_set txns.old.items number txn }
{
    if txns.len() <= number {
        return;
    }
    txns[number] = txn;
}

fn put_cause(causes: &mut Vec<Option<Boxed<Cause>>>, number: usize, cause: Option<Boxed<Cause>>)
    ensures { causes.new.items ≡ slice_set causes.old.items number cause }
{
    if causes.len() <= number {
        return;
    }
    causes[number] = cause;
}
