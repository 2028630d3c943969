//! The fault of one group.
ghost use Rattle.std.specs.Prelude.{◌≡◌, ◌++◌, ◌∷◌, [], List, true, false, None, OnOk, IfOk, IfErr};
ghost use Rattle.book.specs.declared.transaction.Txn.{Txn};
ghost use Rattle.entry_balance.specs.Entry.{costs_fit, amount_cost_fits, moved, moved_by};
ghost use Rattle.balancing.specs.Parts.{part_on};
ghost use Rattle.balancing.specs.Load.{moved_on, fault_at};
ghost use Rattle.entry_balance.specs.Settled.{lacks_sums};
ghost use Rattle.entry_balance.specs.Tally.{turnover_fits, IsRange};
ghost use Rattle.entry_balance.specs.Turnover.{IsTurnover};
ghost use Rattle.entry_balance.specs.Values.{Value};
ghost use Rattle.balancing.specs.Walk.{IsJudged, moved_when};

use crate::groups::{Part, has_assigned, is_chosen};
use crate::moves::Moves;
use book::{Boxed, Cause, Fault, Posting, Txn, copied_amount};
use entry_balance::{TallyFault, absolute, cost_of, costs_fit};
use hl_base::{Memory, Text};
use hl_num::Dec;
use std::alloc::Global;

/// The fault of a transaction's group on a day, else adds what it moves.
pub(crate) fn judge(
    alloc: Global,
    totals: &mut Moves,
    txn: &Txn,
    day: u32,
    cause: &Option<Boxed<Cause>>,
) -> Result<Option<Fault>, Memory>
    ensures { IfOk result (λ fault.
        (lacks_sums cause.now ≡ false → costs_fit txn.now.postings ≡ true)
        → (before : List Value) → IsTurnover before totals.old
        → IsJudged before day txn.now cause.now totals.new fault) }
{
    if lacks_sums(cause) || !costs_fit(txn.postings.as_slice()) {
        return own_fault(alloc, txn.line, cause);
    }
    match add_group(alloc, totals, txn, day) {
        Ok(()) => own_fault(alloc, txn.line, cause),
        Err(TallyFault::Range) => Ok(Some(Fault {
            line: txn.line,
            cause: Cause::Range,
        })),
        Err(TallyFault::Memory) => Err(Memory),
    }
}

/// Whether a transaction has no sums, by what is wrong with it.
fn lacks_sums(cause: &Option<Boxed<Cause>>) -> bool
    ensures { result ≡ lacks_sums cause.now }
{
    match cause {
        Some(cause) => matches!(
            cause.get(),
            Cause::TwoMissing | Cause::NotAllowed | Cause::Range
        ),
        None => false,
    }
}

/// The fault of a transaction alone.
fn own_fault(
    alloc: Global,
    line: u64,
    cause: &Option<Boxed<Cause>>,
) -> Result<Option<Fault>, Memory>
    ensures { IfOk result (λ fault. fault ≡ fault_at line cause.now) }
{
    match cause {
        Some(cause) => {
            let cause = copied_cause(alloc, cause.get())?;
            Ok(Some(Fault { line, cause }))
        }
        None => Ok(None),
    }
}

/// Adds what a transaction's group on a day moves.
fn add_group(alloc: Global, totals: &mut Moves, txn: &Txn, day: u32) -> Result<(), TallyFault>
    requires { costs_fit txn.now.postings ≡ true }
    ensures ok { OnOk result ((before : List Value) → IsTurnover before totals.old
        → IsTurnover (before ++ moved_on day txn.now) totals.new) }
    ensures range { IfErr result (λ e. IsRange e → (before : List Value)
        → IsTurnover before totals.old
        → turnover_fits (before ++ moved_on day txn.now) ≡ false) }
{
    if !has_assigned(txn.postings.as_slice()) {
        return add_part(alloc, totals, txn, day, Part::All);
    }
    match add_part(alloc, totals, txn, day, Part::ButFound) {
        Ok(()) => add_part(alloc, totals, txn, day, Part::Found),
        Err(fault) => Err(fault),
    }
}

/// Adds what a part of a transaction moves on a day.
fn add_part(
    alloc: Global,
    totals: &mut Moves,
    txn: &Txn,
    day: u32,
    part: Part,
) -> Result<(), TallyFault>
    requires { costs_fit txn.now.postings ≡ true }
    ensures ok { OnOk result ((before : List Value) → IsTurnover before totals.old
        → IsTurnover (before ++ moved (part_on part day txn.now)) totals.new) }
    ensures range { IfErr result (λ e. IsRange e → (before : List Value)
        → IsTurnover before totals.old
        → turnover_fits (before ++ moved (part_on part day txn.now)) ≡ false) }
{
    for posting in txn.postings.as_slice() {
        match add_chosen(alloc, totals, txn, posting, day, part) {
            Ok(()) => {}
            Err(fault) => return Err(fault),
        }
    }
    Ok(())
}

/// Adds what a posting moves, if it is of the day and of the part.
fn add_chosen(
    alloc: Global,
    totals: &mut Moves,
    txn: &Txn,
    posting: &Posting,
    day: u32,
    part: Part,
) -> Result<(), TallyFault>
    requires { amount_cost_fits posting.now.amount posting.now.cost ≡ true }
    ensures ok { OnOk result ((before : List Value) → IsTurnover before totals.old
        → IsTurnover (before ++ moved_when part day txn.now posting.now) totals.new) }
    ensures range { IfErr result (λ e. IsRange e → (before : List Value)
        → IsTurnover before totals.old
        → turnover_fits (before ++ moved_when part day txn.now posting.now) ≡ false) }
{
    if is_chosen(part, txn, posting, day) {
        add_moved(alloc, totals, posting)
    } else {
        Ok(())
    }
}

/// Adds what a posting moves.
fn add_moved(alloc: Global, totals: &mut Moves, posting: &Posting) -> Result<(), TallyFault>
    requires { amount_cost_fits posting.now.amount posting.now.cost ≡ true }
    ensures ok { OnOk result ((before : List Value) → IsTurnover before totals.old
        → IsTurnover (before ++ moved_by posting.now) totals.new) }
    ensures range { IfErr result (λ e. IsRange e → (before : List Value)
        → IsTurnover before totals.old
        → turnover_fits (before ++ moved_by posting.now) ≡ false) }
{
    match &posting.amount {
        Some(amount) => {
            match add_value(alloc, totals, amount.symbol.as_str(), amount.value) {
                Ok(()) => {}
                Err(fault) => return Err(fault),
            }
            match &posting.cost {
                Some(cost) => {
                    let (symbol, number) = cost_of(amount.value, cost.get());
                    add_value(alloc, totals, symbol, number)
                }
                None => Ok(()),
            }
        }
        None => Ok(()),
    }
}

/// Adds a number without its sign.
fn add_value(alloc: Global, totals: &mut Moves, symbol: &str, number: Dec) -> Result<(), TallyFault>
    ensures ok { OnOk result ((before : List Value) → IsTurnover before totals.old
        → IsTurnover (before ++ (symbol.now, number) ∷ []) totals.new) }
    ensures range { IfErr result (λ e. IsRange e → (before : List Value)
        → IsTurnover before totals.old
        → turnover_fits (before ++ (symbol.now, number) ∷ []) ≡ false) }
{
    let _decimals = number.decimals();
    totals.add(alloc, symbol, absolute(number))
}

fn copied_cause(alloc: Global, cause: &Cause) -> Result<Cause, Memory>
    ensures { IfOk result (λ copy. copy ≡ cause.now) }
{
    match cause {
        Cause::Form => Ok(Cause::Form),
        Cause::Date => Ok(Cause::Date),
        Cause::Number => Ok(Cause::Number),
        Cause::Account => Ok(Cause::Account),
        Cause::StatusMark => Ok(Cause::StatusMark),
        Cause::Directive => Ok(Cause::Directive),
        Cause::Quote => Ok(Cause::Quote),
        Cause::TooLong => Ok(Cause::TooLong),
        Cause::Encoding => Ok(Cause::Encoding),
        Cause::TwoMissing => Ok(Cause::TwoMissing),
        Cause::NotAllowed => Ok(Cause::NotAllowed),
        Cause::Unbalanced { symbol, sum } => {
            let symbol = Text::copied(alloc, symbol.as_str())?;
            let sum = Boxed::new(alloc, *sum.get())?;
            Ok(Cause::Unbalanced { symbol, sum })
        }
        Cause::AssertionFailed { wanted, found } => {
            let wanted = Boxed::new(alloc, copied_amount(alloc, wanted.get())?)?;
            let found = Boxed::new(alloc, copied_amount(alloc, found.get())?)?;
            Ok(Cause::AssertionFailed { wanted, found })
        }
        Cause::Range => Ok(Cause::Range),
    }
}
