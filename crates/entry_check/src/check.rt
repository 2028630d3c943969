//! The check of one transaction.
ghost use Rattle.std.specs.Prelude.{◌≡◌, ◌≤◌, ◌+◌, [], None, false, IfOk, IfErr, OnOk};
ghost use Rattle.book.specs.SumsBefore.{OnlyAsked};
ghost use Rattle.book.specs.declared.transaction.Txn.{Txn};
ghost use Rattle.entry_balance.specs.Entry.{cause_alone, has_assignment, settled};
ghost use Rattle.entry_balance.specs.Settled.{IsSettled};
ghost use Rattle.entry_balance.specs.Tally.{IsRange};
ghost use Rattle.entry_check.specs.Asking.{nodes_asked, nodes_making};
ghost use Rattle.entry_check.specs.Checked.{told_before, others_before, first_failing, in_order, made, judged, checked, IsChecked, out_of_range};
ghost use Rattle.entry_check.specs.Ranging.{are_in_range};
ghost use Rattle.entry_check.specs.Steps.{IsOneChecked};

use crate::asked_once::AskedSums;
use crate::failure::first_failing;
use crate::make::make;
use balancing::CheckFault;
use book::{Cause, Fault, Sums, Txn};
use entry_balance::{Settled, TallyFault, settle};
use hl_base::{Memory, Steps};
use std::alloc::Global;
use std::sync::ledger::Ledger;

/// A transaction with its assignments and all that balancing finds, by the sums of the accounts before it. Else what is
/// wrong with it alone: two missing amounts, an assignment that can't be made, a range, sums that aren't zero; else its
/// first assertion that fails, by the order of places. That is meant as its answer in the journal whose sums are told,
/// where all its postings are of its day, and none of them, found ones too, is of another symbol and on an account of
/// which an assertion wants one symbol only, or under it where subaccounts count. The sums that are told enter with as
/// few decimals as they need, so a found number may have fewer decimals than in the journal. `Range` comes only where a
/// cost or the transaction alone is out of range, or where a sum that one of its assertions or assignments asks for and
/// all that it moves together are; never where two amounts are missing or an assignment can't be made. Counts one checked
/// transaction. Each assertion or assignment asks for the sum of its symbol once, and where only that symbol may be there
/// for another one.
pub fn check_one<S: Sums, L: Ledger>(
    alloc: Global,
    txn: Txn,
    sums: &S,
    steps: &mut Steps<L>,
) -> Result<Txn, CheckFault>
    ensures answer { IsChecked (told_before (S.txns sums.now) (S.place sums.now))
        (others_before (S.txns sums.now) (S.place sums.now)) txn result }
    ensures steps { IsOneChecked steps.old steps.new }
    ensures few { OnOk result (steps.new.nodes ≤ steps.old.nodes
        + nodes_asked (S.asks sums.now) (S.asks_other sums.now) txn.postings) }
{
    steps.check_one();
    let line = txn.line;
    match check_asked(alloc, txn, sums, steps) {
        Ok(Ok(txn)) => Ok(txn),
        Ok(Err(fault)) => Err(CheckFault::Journal(fault)),
        Err(TallyFault::Range) => Err(CheckFault::Journal(Fault {
            line,
            cause: Cause::Range,
        })),
        Err(TallyFault::Memory) => Err(CheckFault::Memory),
    }
}

/// The transaction that is checked, or its fault, each sum that it wants asked for once. `Range` where it is so alone, or
/// by a sum that it asks for.
fn check_asked<S: Sums, L: Ledger>(
    alloc: Global,
    txn: Txn,
    sums: &S,
    steps: &mut Steps<L>,
) -> Result<Result<Txn, Fault>, TallyFault>
    ensures answer { IfOk result (λ answer. answer
        ≡ checked (told_before (S.txns sums.now) (S.place sums.now))
        (others_before (S.txns sums.now) (S.place sums.now)) txn) }
    ensures range { IfErr result (λ e. IsRange e
        → IsChecked (told_before (S.txns sums.now) (S.place sums.now))
        (others_before (S.txns sums.now) (S.place sums.now)) txn (out_of_range txn)) }
    ensures steps { OnlyAsked steps.old steps.new }
    ensures few { IfOk result (λ answer. OnOk answer (steps.new.nodes ≤ steps.old.nodes
        + nodes_asked (S.asks sums.now) (S.asks_other sums.now) txn.postings)) }
{
    match AskedSums::ask(alloc, sums, txn.postings.as_slice(), steps) {
        Ok(asked) => check_sums(alloc, txn, &asked, steps),
        Err(Memory) => Err(TallyFault::Memory),
    }
}

/// The transaction that is checked, or its fault. `Range` where it is so alone, or by a sum that it asks for.
fn check_sums<S: Sums, L: Ledger>(
    alloc: Global,
    txn: Txn,
    sums: &S,
    steps: &mut Steps<L>,
) -> Result<Result<Txn, Fault>, TallyFault>
    ensures answer { IfOk result (λ answer. answer
        ≡ checked (told_before (S.txns sums.now) (S.place sums.now))
        (others_before (S.txns sums.now) (S.place sums.now)) txn) }
    ensures range { IfErr result (λ e. IsRange e
        → IsChecked (told_before (S.txns sums.now) (S.place sums.now))
        (others_before (S.txns sums.now) (S.place sums.now)) txn (out_of_range txn)) }
    ensures steps { OnlyAsked steps.old steps.new }
    ensures few { IfOk result (λ answer. OnOk answer (steps.new.nodes ≤ steps.old.nodes
        + (nodes_making (S.asks sums.now) txn.postings
        + nodes_asked (S.asks sums.now) (S.asks_other sums.now) txn.postings))) }
{
    let made = match make(alloc, txn, sums, steps) {
        Ok(made) => made,
        Err(fault) => return Err(fault),
    };
    match settle(alloc, made) {
        Ok(outcome) => judge_settled(alloc, outcome, sums, steps),
        Err(Memory) => Err(TallyFault::Memory),
    }
}

/// A transaction that was settled, or what is wrong with it, or the fault of its first assertion that fails.
fn judge_settled<S: Sums, L: Ledger>(
    alloc: Global,
    outcome: Settled,
    sums: &S,
    steps: &mut Steps<L>,
) -> Result<Result<Txn, Fault>, TallyFault>
    ensures answer { IfOk result (λ answer. (t : Txn) → IsSettled t outcome.txn outcome.cause
        → (outcome.cause ≡ None → has_assignment t.postings ≡ false)
        → answer ≡ judged (settled t) (cause_alone t.postings)
        (first_failing (told_before (S.txns sums.now) (S.place sums.now))
        (others_before (S.txns sums.now) (S.place sums.now)) [] (in_order (settled t).postings))) }
    ensures range { IfErr result (λ e. IsRange e → (t : Txn) → IsSettled t outcome.txn outcome.cause
        → (outcome.cause ≡ None → has_assignment t.postings ≡ false)
        → (cause_alone t.postings ≡ None)
        × (are_in_range (told_before (S.txns sums.now) (S.place sums.now)) (settled t).postings
        ≡ false)) }
    ensures steps { OnlyAsked steps.old steps.new }
    ensures few { IfOk result (λ answer. OnOk answer (steps.new.nodes ≤ steps.old.nodes
        + nodes_asked (S.asks sums.now) (S.asks_other sums.now) outcome.txn.postings)) }
{
    let Settled { txn, cause } = outcome;
    if let Some(cause) = cause {
        return Ok(Err(Fault {
            line: txn.line,
            cause: cause.into_inner(),
        }));
    }
    match first_failing(alloc, txn.postings.as_slice(), sums, steps) {
        Ok(None) => Ok(Ok(txn)),
        Ok(Some(fault)) => Ok(Err(fault)),
        Err(fault) => Err(fault),
    }
}
