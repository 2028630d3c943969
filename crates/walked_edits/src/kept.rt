//! What is kept of a book.
ghost use Rattle.std.specs.Prelude.{◌≡◌, ◌<◌, ◌++◌, [], ℕ, nat_lt, true, List, Some, IfErr, IfOk, OnOk, length, set};
ghost use Rattle.std.specs.List.{slice_get};
ghost use Rattle.book.specs.declared.transaction.Txn.{Txn};
ghost use Rattle.entry_balance.specs.Entry.{costs_fit};
ghost use Rattle.kept_turnover.specs.Keeping.{Replaces as Exchanges};
ghost use Rattle.placed_sums.specs.Replaced.{Replaces, rows_replacing};
ghost use Rattle.walked_edits.specs.Causes.{IsCause, MovesTooMuch};
ghost use Rattle.walked_edits.specs.Stepping.{HasLeft, LeavesDays};
ghost use Rattle.walked_edits.specs.Keeping.{Fits, IsHeld, IsPut, IsTaken, IsWhole, PutsDays};

use crate::fault::WalkFault;
use crate::replaced::Replaced;
use book::Txn;
use entry_balance::costs_fit;
use hl_base::Memory;
use kept_turnover::Turnover;
use live_index::Index;
use placed_sums::replace;
use shared_days::SharedDays;
use std::alloc::Global;

/// What is kept of a book, so that forms of its transactions can be replaced at the cost of the forms: an index of its
/// rows, its transactions by their days, and its turnover.
#[derive(Drop)]
pub struct Kept {
    pub index: Index,
    pub days: SharedDays,
    pub turnover: Turnover,
}

/// A turnover in which a transaction has another form.
pub fn turnover_with(
    alloc: Global,
    turnover: &Turnover,
    old: &Txn,
    new: &Txn,
) -> Result<Turnover, Memory>
    requires old { costs_fit old.now.postings ≡ true }
    requires new { costs_fit new.now.postings ≡ true }
    ensures { IfOk result (Exchanges old.now new.now turnover.now) }
{
    let mut copy = turnover.copied()?;
    copy.replace(alloc, old, new)?;
    Ok(copy)
}

/// A copy of what is kept. The index and the days share what they have; the turnover is copied.
pub(crate) fn copied_kept(kept: &Kept) -> Result<Kept, Memory>
    ensures { IfOk result (λ copy. (book : List Txn) → IsWhole book kept.now → IsWhole book copy) }
{
    let index = kept.index.copy()?;
    let days = kept.days.copy()?;
    let turnover = kept.turnover.copied()?;
    Ok(Kept {
        index,
        days,
        turnover,
    })
}

/// Takes a form out of the index and the turnover; another one, which moves nothing, holds its place. The days stay.
pub(crate) fn take_kept(alloc: Global, kept: &mut Kept, old: &Txn, held: &Txn) -> Result<(), Memory>
    requires index { Replaces kept.old.index old.now held.now }
    requires old { costs_fit old.now.postings ≡ true }
    requires held { costs_fit held.now.postings ≡ true }
    ensures { OnOk result (IsTaken old.now held.now kept.old kept.new) }
{
    replace(alloc, &mut kept.index, old, held)?;
    kept.turnover.replace(alloc, old, held)?;
    Ok(())
}

/// Lets the days be those of a book in which a form without postings holds the place of another one.
fn leave_days(
    alloc: Global,
    days: &mut SharedDays,
    number: usize,
    old: &Txn,
    held: &Txn,
) -> Result<(), Memory>
    requires { held.now.postings ≡ [] }
    ensures { OnOk result (LeavesDays number old.now held.now days.old days.new) }
{
    if !has_postings(old) {
        return Ok(());
    }
    let exchanged = days.exchanged(alloc, number, old, held)?;
    *days = exchanged;
    Ok(())
}

/// Takes a form out of all that is kept; another one, which has no postings, holds its place.
pub(crate) fn leave_kept(
    alloc: Global,
    kept: &mut Kept,
    number: usize,
    old: &Txn,
    held: &Txn,
) -> Result<(), Memory>
    requires index { Replaces kept.old.index old.now held.now }
    requires old { costs_fit old.now.postings ≡ true }
    requires held { costs_fit held.now.postings ≡ true }
    requires none { held.now.postings ≡ [] }
    ensures { OnOk result (HasLeft number old.now held.now kept.old kept.new) }
{
    take_kept(alloc, kept, old, held)?;
    leave_days(alloc, &mut kept.days, number, old, held)?;
    Ok(())
}

/// Lets the turnover have a form in the place that another one holds, where the costs of the form can be told and all that
/// is moved stays in range.
fn move_with(
    alloc: Global,
    turnover: &mut Turnover,
    held: &Txn,
    form: &Txn,
) -> Result<(), WalkFault>
    requires { costs_fit held.now.postings ≡ true }
    ensures turnover { OnOk result (Exchanges held.now form.now turnover.old turnover.new) }
    ensures costs { OnOk result (costs_fit form.now.postings ≡ true) }
    ensures fits { OnOk result (Fits turnover.new) }
    ensures load { IfErr result (λ fault. IsCause fault
        (MovesTooMuch turnover.old held.now form.now)) }
{
    if !costs_fit(form.postings.as_slice()) {
        return Err(WalkFault::Load);
    }
    turnover.replace(alloc, held, form)?;
    if turnover.fits() {
        Ok(())
    } else {
        Err(WalkFault::Load)
    }
}

/// Lets the days be those of a book in which a transaction gets another form. They stay as they are where both forms have
/// postings, which are on one day.
fn put_days(
    alloc: Global,
    days: &mut SharedDays,
    number: usize,
    old: &Txn,
    new: &Txn,
) -> Result<(), Memory>
    ensures { OnOk result (PutsDays number old.now new.now days.old days.new) }
{
    if has_postings(old) && has_postings(new) {
        return Ok(());
    }
    let exchanged = days.exchanged(alloc, number, old, new)?;
    *days = exchanged;
    Ok(())
}

fn has_postings(txn: &Txn) -> bool
    ensures { result ≡ nat_lt 0 (length txn.now.postings) }
{
    0 < txn.postings.len()
}

/// Puts a form in the place of one that was taken out, which another one holds. The days still have what was taken out.
pub(crate) fn put_kept(
    alloc: Global,
    kept: &mut Kept,
    held: &Txn,
    out: &Replaced,
    form: &Txn,
) -> Result<(), WalkFault>
    requires held { IsHeld kept.old out.now.spot.number held.now }
    requires costs { costs_fit held.now.postings ≡ true }
    ensures put { OnOk result (IsPut held.now out.now form.now kept.old kept.new) }
    ensures load { IfErr result (λ fault. IsCause fault
        (MovesTooMuch kept.old.turnover held.now form.now)) }
{
    move_with(alloc, &mut kept.turnover, held, form)?;
    replace(alloc, &mut kept.index, held, form)?;
    let number = out.spot.number as usize;
    put_days(alloc, &mut kept.days, number, &out.txn, form)?;
    Ok(())
}
