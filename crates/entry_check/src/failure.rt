//! The assertions of one transaction, each judged just after its posting.
ghost use Rattle.std.specs.Prelude.{◌≡◌, ◌≤◌, ◌+◌, ◌++◌, ◌∷◌, [], true, false, filter, List, Some, IfOk, IfErr};
ghost use Rattle.std.specs.Option.{option_map};
ghost use Rattle.std.specs.List.{list_all};
ghost use Rattle.book.specs.SumsBefore.{OnlyAsked};
ghost use Rattle.book.specs.declared.transaction.Posting.{Posting};
ghost use Rattle.entry_balance.specs.Tally.{IsRange};
ghost use Rattle.assertions.specs.Assertions.{failure_at};
ghost use Rattle.assertions.specs.Kept.{IsBalance, is_asked, is_kept_for};
ghost use Rattle.balancing.specs.Parts.{is_in};
ghost use Rattle.entry_check.specs.Asking.{OnPass, judging, nodes_asked, other_nodes};
ghost use Rattle.entry_check.specs.Checked.{told_before, others_before, found_after, failure_after, first_failing, in_order, wanted_fits};
ghost use Rattle.entry_check.specs.Failing.{IsJudged, AreJudged, found_beside};
ghost use Rattle.entry_check.specs.Ranging.{are_in_range};

use crate::held::{held, told};
use assertions::{Balances, add_posting, asked_by, failed, is_same};
use balancing::{Part, has_assigned, is_in};
use book::{Assertion, Fault, Posting, Sums};
use entry_balance::TallyFault;
use hl_base::{Memory, Steps};
use hl_num::Dec;
use std::alloc::Global;
use std::sync::ledger::Ledger;

/// The fault of the first assertion of a transaction that fails, in the order of its postings' places.
pub(crate) fn first_failing<S: Sums, L: Ledger>(
    alloc: Global,
    postings: &[Posting],
    sums: &S,
    steps: &mut Steps<L>,
) -> Result<Option<Fault>, TallyFault>
    ensures fault { IfOk result (λ fault. fault
        ≡ first_failing (told_before (S.txns sums.now) (S.place sums.now))
        (others_before (S.txns sums.now) (S.place sums.now)) [] (in_order postings.now)) }
    ensures range { IfErr result (λ e. IsRange e
        → are_in_range (told_before (S.txns sums.now) (S.place sums.now)) postings.now ≡ false) }
    ensures steps { OnlyAsked steps.old steps.new }
    ensures few { OnPass result (steps.new.nodes ≤ steps.old.nodes
        + nodes_asked (S.asks sums.now) (S.asks_other sums.now) postings.now) }
{
    let mut here = match asked_by(alloc, postings) {
        Ok(here) => here,
        Err(Memory) => return Err(TallyFault::Memory),
    };
    if !has_assigned(postings) {
        return judge_part(alloc, postings, Part::All, &mut here, sums, steps);
    }
    match judge_part(alloc, postings, Part::ButFound, &mut here, sums, steps) {
        Ok(None) => judge_part(alloc, postings, Part::Found, &mut here, sums, steps),
        Ok(Some(fault)) => Ok(Some(fault)),
        Err(fault) => Err(fault),
    }
}

/// Adds the postings of a part to the balances, each assertion judged just after its posting, up to the first one that
/// fails.
fn judge_part<S: Sums, L: Ledger>(
    alloc: Global,
    postings: &[Posting],
    part: Part,
    here: &mut Balances,
    sums: &S,
    steps: &mut Steps<L>,
) -> Result<Option<Fault>, TallyFault>
    ensures fault { IfOk result (λ fault. (done : List Posting)
        → IsBalance done here.old.own here.old.below
        → list_all (is_asked here.old.own here.old.below) postings.now ≡ true
        → AreJudged (told_before (S.txns sums.now) (S.place sums.now))
        (others_before (S.txns sums.now) (S.place sums.now)) done
        (filter (is_in part) postings.now) here.new.own here.new.below fault) }
    ensures own { IfOk result (λ fault. here.new.own.1 ≡ here.old.own.1) }
    ensures below { IfOk result (λ fault. here.new.below.1 ≡ here.old.below.1) }
    ensures range { IfErr result (λ e. IsRange e → (done : List Posting)
        → IsBalance done here.old.own here.old.below
        → list_all (is_asked here.old.own here.old.below) postings.now ≡ true
        → are_in_range (told_before (S.txns sums.now) (S.place sums.now)) (done
        ++ filter (is_in part) postings.now) ≡ false) }
    ensures steps { OnlyAsked steps.old steps.new }
    ensures few { OnPass result (steps.new.nodes ≤ steps.old.nodes
        + nodes_asked (S.asks sums.now) (S.asks_other sums.now)
        (filter (is_in part) postings.now)) }
{
    for posting in postings {
        if is_in(part, posting) {
            match judge_next(alloc, posting, here, sums, steps) {
                Ok(None) => {}
                Ok(Some(fault)) => return Ok(Some(fault)),
                Err(fault) => return Err(fault),
            }
        }
    }
    Ok(None)
}

/// Adds a posting to the balances, and judges its assertion.
fn judge_next<S: Sums, L: Ledger>(
    alloc: Global,
    posting: &Posting,
    here: &mut Balances,
    sums: &S,
    steps: &mut Steps<L>,
) -> Result<Option<Fault>, TallyFault>
    ensures fault { IfOk result (λ fault. (done : List Posting)
        → IsBalance done here.old.own here.old.below
        → is_asked here.old.own here.old.below posting.now ≡ true
        → IsJudged (told_before (S.txns sums.now) (S.place sums.now))
        (others_before (S.txns sums.now) (S.place sums.now)) done
        posting.now here.new.own here.new.below fault) }
    ensures own { IfOk result (λ fault. here.new.own.1 ≡ here.old.own.1) }
    ensures below { IfOk result (λ fault. here.new.below.1 ≡ here.old.below.1) }
    ensures range { IfErr result (λ e. IsRange e → (done : List Posting)
        → IsBalance done here.old.own here.old.below
        → is_asked here.old.own here.old.below posting.now ≡ true
        → are_in_range (told_before (S.txns sums.now) (S.place sums.now)) (done ++ posting.now ∷ [])
        ≡ false) }
    ensures steps { OnlyAsked steps.old steps.new }
    ensures few { OnPass result (steps.new.nodes ≤ steps.old.nodes
        + judging (S.asks sums.now) (S.asks_other sums.now) posting.now.account
        posting.now.wanted) }
{
    match add_posting(alloc, here, posting) {
        Ok(()) => {}
        Err(fault) => return Err(fault),
    }
    failure(alloc, posting, here, sums, steps)
}

/// The fault of a posting's assertion, if it has one that fails.
fn failure<S: Sums, L: Ledger>(
    alloc: Global,
    posting: &Posting,
    here: &Balances,
    sums: &S,
    steps: &mut Steps<L>,
) -> Result<Option<Fault>, TallyFault>
    ensures fault { IfOk result (λ fault. (through : List Posting)
        → IsBalance through here.now.own here.now.below
        → is_asked here.now.own here.now.below posting.now ≡ true
        → fault ≡ failure_after (told_before (S.txns sums.now) (S.place sums.now))
        (others_before (S.txns sums.now) (S.place sums.now))
        through posting.now posting.now.wanted) }
    ensures range { IfErr result (λ e. IsRange e → (through : List Posting)
        → IsBalance through here.now.own here.now.below
        → is_asked here.now.own here.now.below posting.now ≡ true
        → wanted_fits (told_before (S.txns sums.now) (S.place sums.now)) posting.now.account
        posting.now.wanted through ≡ false) }
    ensures steps { OnlyAsked steps.old steps.new }
    ensures few { OnPass result (steps.new.nodes ≤ steps.old.nodes
        + judging (S.asks sums.now) (S.asks_other sums.now) posting.now.account
        posting.now.wanted) }
{
    match &posting.wanted {
        Some(wanted) => judge(alloc, posting, wanted.get(), here, sums, steps),
        None => Ok(None),
    }
}

/// The fault of a posting's assertion, by what its account holds before the transaction and by the postings here.
fn judge<S: Sums, L: Ledger>(
    alloc: Global,
    posting: &Posting,
    wanted: &Assertion,
    here: &Balances,
    sums: &S,
    steps: &mut Steps<L>,
) -> Result<Option<Fault>, TallyFault>
    ensures fault { IfOk result (λ fault. (through : List Posting)
        → IsBalance through here.now.own here.now.below
        → is_kept_for here.now.own here.now.below posting.now.account wanted.now.below ≡ true
        → fault ≡ failure_at posting.now.line wanted.now
        (found_after (told_before (S.txns sums.now) (S.place sums.now))
        (others_before (S.txns sums.now) (S.place sums.now))
        wanted.now posting.now.account through)) }
    ensures range { IfErr result (λ e. IsRange e → (through : List Posting)
        → IsBalance through here.now.own here.now.below
        → is_kept_for here.now.own here.now.below posting.now.account wanted.now.below ≡ true
        → wanted_fits (told_before (S.txns sums.now) (S.place sums.now)) posting.now.account
        (Some wanted.now) through ≡ false) }
    ensures steps { OnlyAsked steps.old steps.new }
    ensures few { OnPass result (steps.new.nodes ≤ steps.old.nodes
        + judging (S.asks sums.now) (S.asks_other sums.now) posting.now.account (Some wanted.now)) }
{
    let symbol = &wanted.amount.symbol;
    let total = match held(sums, here, &posting.account, symbol, wanted.below, steps) {
        Ok(total) => total,
        Err(fault) => return Err(fault),
    };
    judge_total(alloc, posting, wanted, total, sums, steps)
}

/// The fault of a posting's assertion whose account holds a sum in the symbol that is wanted, if it fails.
fn judge_total<S: Sums, L: Ledger>(
    alloc: Global,
    posting: &Posting,
    wanted: &Assertion,
    total: Dec,
    sums: &S,
    steps: &mut Steps<L>,
) -> Result<Option<Fault>, TallyFault>
    ensures fault { IfOk result (λ fault. fault ≡ failure_at posting.now.line wanted.now
        (found_beside (told_before (S.txns sums.now) (S.place sums.now))
        (others_before (S.txns sums.now) (S.place sums.now))
        wanted.now posting.now.account total)) }
    ensures memory { IfErr result (λ e. IsRange e → ⊥) }
    ensures steps { OnlyAsked steps.old steps.new }
    ensures few { OnPass result (steps.new.nodes ≤ steps.old.nodes
        + other_nodes (S.asks_other sums.now) posting.now.account (Some wanted.now)) }
{
    if !is_same(total, wanted.amount.value) {
        return failing(
            alloc,
            posting.line,
            wanted,
            wanted.amount.symbol.as_str(),
            total,
        );
    }
    if wanted.only {
        return judge_others(alloc, posting, wanted, sums, steps);
    }
    Ok(None)
}

/// The fault that something of another symbol stands in an account before the transaction, if it does.
fn judge_others<S: Sums, L: Ledger>(
    alloc: Global,
    posting: &Posting,
    wanted: &Assertion,
    sums: &S,
    steps: &mut Steps<L>,
) -> Result<Option<Fault>, TallyFault>
    ensures fault { IfOk result (λ fault. fault ≡ failure_at posting.now.line wanted.now
        (option_map (λ s. (
          s,
          told_before (S.txns sums.now) (S.place sums.now) wanted.now.below posting.now.account
              s,
        ))
        (others_before (S.txns sums.now) (S.place sums.now) wanted.now.below posting.now.account
        wanted.now.amount.symbol))) }
    ensures memory { IfErr result (λ e. IsRange e → ⊥) }
    ensures steps { OnlyAsked steps.old steps.new }
    ensures few { OnPass result (steps.new.nodes ≤ steps.old.nodes
        + S.asks_other sums.now posting.now.account wanted.now.amount.symbol wanted.now.below) }
{
    let account = &posting.account;
    match sums.other(account, &wanted.amount.symbol, wanted.below, steps) {
        Some(other) => {
            let sum = told(sums, account, other, wanted.below, steps);
            failing(alloc, posting.line, wanted, other.as_str(), sum)
        }
        None => Ok(None),
    }
}

/// The fault that a sum in a symbol is found in place of what is wanted.
fn failing(
    alloc: Global,
    line: u64,
    wanted: &Assertion,
    symbol: &str,
    sum: Dec,
) -> Result<Option<Fault>, TallyFault>
    ensures fault { IfOk result (λ fault.
        fault ≡ failure_at line wanted.now (Some (symbol.now, sum))) }
    ensures memory { IfErr result (λ e. IsRange e → ⊥) }
{
    match failed(alloc, line, wanted, symbol, sum) {
        Ok(fault) => Ok(fault),
        Err(Memory) => Err(TallyFault::Memory),
    }
}
