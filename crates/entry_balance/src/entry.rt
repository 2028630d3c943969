//! The balance of one transaction.
ghost use Rattle.std.specs.Prelude.{◌≡◌, true, false, None, Some, IfOk, if◌then◌else◌};
ghost use Rattle.hl_base.specs.Gives.{Gives};
ghost use Rattle.book.specs.declared.fault.Cause.TheVariants as cause;
ghost use Rattle.book.specs.declared.transaction.Side.TheVariants.{Real, Balanced, Free};
ghost use Rattle.entry_balance.specs.Check.{cause_of};
ghost use Rattle.entry_balance.specs.Entry.{balanced, costs_fit, misses, found_values, recorded_cost, unbalanced_by, unbalanced_sums, solved, moved};
ghost use Rattle.entry_balance.specs.Entry.{settled, has_assignment, assignment_fault};
ghost use Rattle.book.specs.declared.transaction.Txn.{Txn};
ghost use Rattle.entry_balance.specs.Pair.{is_pair};
ghost use Rattle.entry_balance.specs.Settled.{IsSettled};
ghost use Rattle.entry_balance.specs.Tally.{turnover_fits};

use crate::fault::BalanceFault;
use crate::fill::fill;
use crate::pair::{fill_pair, is_pair, pair_fits};
use crate::plan::{Plan, make_plan};
use crate::rules::{assignment_fault, has_assignment, has_two_missing};
use crate::sums::turnover_fits;
use crate::tally::TallyFault;
use crate::value::costs_fit;
use book::{Boxed, Cause, Txn};
use hl_base::Memory;
use std::alloc::Global;

/// A transaction with its missing amounts and costs, where no posting with an assertion lacks its amount; assertions
/// themselves aren't judged. Real postings sum to zero at cost in each symbol, and balanced virtual ones by themselves.
/// One missing amount on each of these sides takes what the others leave, as one posting for each symbol. A sum counts
/// as zero where it is zero when it is rounded to the most decimals with which amounts of its symbol are written, or
/// costs where no amount has the symbol. Two symbols that stand against each other in the real postings are an
/// exchange, whose cost is recorded. The causes are two missing amounts; else a cost's product or a turnover out of
/// range; else the first sum that isn't zero.
pub fn balance_txn(alloc: Global, txn: Txn) -> Result<Txn, BalanceFault>
    requires { has_assignment txn.postings ≡ false }
    ensures { Gives (λ t. t) cause_of result (balanced txn) }
{
    match settle(alloc, txn) {
        Ok(settled) => told(settled),
        Err(Memory) => Err(BalanceFault::Memory),
    }
}

/// A transaction that was settled, or what is wrong with it.
fn told(settled: Settled) -> Result<Txn, BalanceFault>
    ensures { (written : Txn) → has_assignment written.postings ≡ false
        → IsSettled written settled.txn settled.cause
        → Gives (λ t. t) cause_of result (balanced written) }
{
    let Settled { txn, cause } = settled;
    match cause {
        None => Ok(txn),
        Some(cause) => Err(BalanceFault::Cause(cause.into_inner())),
    }
}

/// A transaction with what balancing finds, and what is wrong with it.
#[derive(Debug, Drop)]
pub struct Settled {
    pub txn: Txn,
    pub cause: Option<Boxed<Cause>>,
}

/// Finds what is missing in a transaction, or what is wrong with it. One with assignments stays as it is: their amounts
/// rest on what the accounts hold.
pub fn settle(alloc: Global, txn: Txn) -> Result<Settled, Memory>
    ensures { IfOk result (λ s. IsSettled txn s.txn s.cause) }
{
    let postings = txn.postings.as_slice();
    if is_pair(postings) {
        return settle_pair(alloc, txn);
    }
    if has_assignment(postings) {
        let cause = assignment_fault(postings);
        return unsettled(alloc, txn, cause);
    }
    if has_two_missing(postings) {
        return faulty(alloc, txn, Cause::TwoMissing);
    }
    if !costs_fit(postings) {
        return faulty(alloc, txn, Cause::Range);
    }
    match make_plan(alloc, postings) {
        Ok(plan) => solve(alloc, txn, plan),
        Err(TallyFault::Range) => faulty(alloc, txn, Cause::Range),
        Err(TallyFault::Memory) => Err(Memory),
    }
}

/// A transaction as it is, with what is wrong with it, if anything is.
fn unsettled(alloc: Global, txn: Txn, cause: Option<Cause>) -> Result<Settled, Memory>
    ensures { IfOk result (λ s. s ≡ record { txn = txn; cause = cause }) }
{
    match cause {
        Some(cause) => faulty(alloc, txn, cause),
        None => Ok(Settled { txn, cause: None }),
    }
}

/// A transaction with what is wrong with it.
fn faulty(alloc: Global, txn: Txn, cause: Cause) -> Result<Settled, Memory>
    ensures { IfOk result (λ s. s ≡ record { txn = txn; cause = Some cause }) }
{
    let cause = Boxed::new(alloc, cause)?;
    Ok(Settled {
        txn,
        cause: Some(cause),
    })
}

/// Puts into a transaction what was found for it, and judges what it moves.
fn solve(alloc: Global, txn: Txn, plan: Plan) -> Result<Settled, Memory>
    requires costs { costs_fit txn.postings ≡ true }
    requires real { misses Real txn.postings ≡ true
        → plan.real.items ≡ found_values Real txn.postings }
    requires balanced { misses Balanced txn.postings ≡ true
        → plan.balanced.items ≡ found_values Balanced txn.postings }
    requires free { misses Free txn.postings ≡ false }
    requires recorded { plan.recorded ≡ recorded_cost txn.postings }
    ensures txn { IfOk result (λ s. s.txn ≡ settled txn) }
    ensures cause { IfOk result (λ s. s.cause
        ≡ (if turnover_fits (moved (solved txn.postings)) then plan.cause else Some cause.Range)) }
{
    let Txn {
        line,
        day,
        mark,
        code,
        description,
        comment,
        tags,
        postings,
    } = txn;
    let postings = fill(alloc, postings, &plan)?;
    let txn = Txn {
        line,
        day,
        mark,
        code,
        description,
        comment,
        tags,
        postings,
    };
    judged(alloc, txn, plan.cause)
}

/// The cause of postings that move too much, unless they fit.
fn range_unless(fits: bool) -> Option<Cause>
    ensures { result ≡ (if fits then None else Some cause.Range) }
{
    if fits { None } else { Some(Cause::Range) }
}

/// Finds the missing amount of a pair, and judges what it moves.
fn settle_pair(alloc: Global, txn: Txn) -> Result<Settled, Memory>
    requires { is_pair txn.postings ≡ true }
    ensures { IfOk result (λ s. IsSettled txn s.txn s.cause) }
{
    let cause = range_unless(pair_fits(txn.postings.as_slice()));
    let Txn {
        line,
        day,
        mark,
        code,
        description,
        comment,
        tags,
        postings,
    } = txn;
    let postings = fill_pair(alloc, postings)?;
    let txn = Txn {
        line,
        day,
        mark,
        code,
        description,
        comment,
        tags,
        postings,
    };
    unsettled(alloc, txn, cause)
}

/// A transaction in which nothing is missing, with what is wrong with it: what it moves is out of range, or the cause that
/// is told.
fn judged(alloc: Global, txn: Txn, why: Option<Boxed<Cause>>) -> Result<Settled, Memory>
    requires { costs_fit txn.postings ≡ true }
    ensures txn { IfOk result (λ s. s.txn ≡ txn) }
    ensures cause { IfOk result (λ s. s.cause
        ≡ (if turnover_fits (moved txn.postings) then why else Some cause.Range)) }
{
    let fits = turnover_fits(alloc, txn.postings.as_slice())?;
    if !fits {
        return faulty(alloc, txn, Cause::Range);
    }
    Ok(Settled { txn, cause: why })
}
