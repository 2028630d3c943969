//! The check of a transaction at its place.
ghost use Rattle.std.specs.Prelude.{◌≡◌, ◌≤◌, ◌+◌, ◌&&◌, IfOk, OnOk};
ghost use Rattle.std.specs.List.{list_all};
ghost use Rattle.balancing.specs.Solves.{is_unmarked};
ghost use Rattle.entry_check.specs.Asking.{nodes_asked};
ghost use Rattle.entry_check.specs.Checked.{IsChecked, others_before, told_before};
ghost use Rattle.entry_check.specs.Steps.{IsOneChecked};
ghost use Rattle.placed_checks.specs.Judging.{IsJudged, answered, as_checked, judged_as};
ghost use Rattle.placed_checks.specs.Unmixed as spec;

use crate::alone::{are_unmarked, is_unmixed};
use balancing::CheckFault;
use book::{Sums, Txn};
use entry_check::check_one;
use hl_base::Steps;
use std::alloc::Global;
use std::sync::ledger::Ledger;

/// What the check of a transaction at its place came to: the transaction as it is solved there; or an answer that need
/// not be so, since it is mixed, or since something of what was written is marked as found.
#[derive(Debug, Drop)]
pub enum Judged {
    Solved(Txn),
    Mixed(Txn),
}

/// Checks a written transaction by the sums of a book before its place, as `check_one` does (`answer`). It is mixed where
/// something that was written is marked as found, or where the answer is mixed (`mixed`). What is solved is so in each
/// book that has it under its number, and the same postings before the place (`solved`). Counts one checked transaction.
pub fn check_placed<S: Sums, L: Ledger>(
    alloc: Global,
    written: Txn,
    sums: &S,
    steps: &mut Steps<L>,
) -> Result<Judged, CheckFault>
    ensures solved { IfOk result (λ judged.
        IsJudged (S.txns sums.now) (S.place sums.now) written judged) }
    ensures answer { IsChecked (told_before (S.txns sums.now) (S.place sums.now))
        (others_before (S.txns sums.now) (S.place sums.now))
        written (as_checked result) }
    ensures mixed { IfOk result (λ judged. judged
        ≡ judged_as (list_all is_unmarked written.postings && spec.is_unmixed (answered judged))
        (answered judged)) }
    ensures steps { IsOneChecked steps.old steps.new }
    ensures few { OnOk result (steps.new.nodes ≤ steps.old.nodes
        + nodes_asked (S.asks sums.now) (S.asks_other sums.now) written.postings) }
{
    let unmarked = are_unmarked(written.postings.as_slice());
    match check_one(alloc, written, sums, steps) {
        Ok(answer) => Ok(as_judged(answer, unmarked)),
        Err(fault) => Err(fault),
    }
}

/// An answer of which is known whether nothing that was written is marked.
fn as_judged(answer: Txn, unmarked: bool) -> Judged
    ensures { result ≡ judged_as (unmarked && spec.is_unmixed answer) answer }
{
    if unmarked && is_unmixed(&answer) {
        Judged::Solved(answer)
    } else {
        Judged::Mixed(answer)
    }
}
