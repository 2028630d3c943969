//! The assignments of one transaction.
ghost use Rattle.std.specs.Prelude.{◌≡◌, ◌≤◌, ◌+◌, ◌++◌, ◌∷◌, [], true, false, List, OnOk, IfOk, IfErr};
ghost use Rattle.book.specs.SumsBefore.{OnlyAsked};
ghost use Rattle.book.specs.declared.transaction.Posting.{Posting};
ghost use Rattle.entry_balance.specs.Tally.{IsRange};
ghost use Rattle.entry_balance.specs.Entry as amounts;
ghost use Rattle.assertions.specs.Kept.{IsBalance, is_asked, is_kept_for};
ghost use Rattle.balancing.specs.Giving.{given_with, value_after, fits_after};
ghost use Rattle.entry_check.specs.Asking.{making, nodes_making};
ghost use Rattle.entry_check.specs.Checked.{told_before, held_after, made_posting, made_postings, made};
ghost use Rattle.entry_check.specs.Making.{IsMadeNext};
ghost use Rattle.entry_check.specs.Ranging.{are_in_range};

use crate::held::held;
use assertions::{Balances, add_posting, asked_by};
use balancing::{difference, with_amount};
use book::{Amount, Assertion, Posting, Sums, Txn};
use entry_balance::{TallyFault, is_assignable, plain_amount};
use hl_base::{List, Memory, Steps, Text};
use hl_num::Dec;
use std::alloc::Global;
use std::sync::ledger::Ledger;

/// A transaction with its assignments made, where they can be made.
pub(crate) fn make<S: Sums, L: Ledger>(
    alloc: Global,
    txn: Txn,
    sums: &S,
    steps: &mut Steps<L>,
) -> Result<Txn, TallyFault>
    ensures made { IfOk result (λ t.
        t ≡ made (told_before (S.txns sums.now) (S.place sums.now)) txn) }
    ensures range { IfErr result (λ e. IsRange e
        → (amounts.is_assignable txn.postings ≡ true)
        × (are_in_range (told_before (S.txns sums.now) (S.place sums.now))
        (made (told_before (S.txns sums.now) (S.place sums.now)) txn).postings ≡ false)) }
    ensures steps { OnlyAsked steps.old steps.new }
    ensures few { OnOk result (steps.new.nodes ≤ steps.old.nodes
        + nodes_making (S.asks sums.now) txn.postings) }
{
    if !is_assignable(txn.postings.as_slice()) {
        return Ok(txn);
    }
    let Txn {
        line,
        day,
        mark,
        code,
        description,
        comment,
        tags,
        postings,
    } = txn;
    let postings = match make_all(alloc, postings, sums, steps) {
        Ok(postings) => postings,
        Err(fault) => return Err(fault),
    };
    Ok(Txn {
        line,
        day,
        mark,
        code,
        description,
        comment,
        tags,
        postings,
    })
}

/// The postings of a transaction with their assignments made, one after another.
fn make_all<S: Sums, L: Ledger>(
    alloc: Global,
    postings: List<Posting>,
    sums: &S,
    steps: &mut Steps<L>,
) -> Result<List<Posting>, TallyFault>
    ensures made { IfOk result (λ ps.
        ps ≡ made_postings (told_before (S.txns sums.now) (S.place sums.now)) [] postings) }
    ensures range { IfErr result (λ e. IsRange e
        → are_in_range (told_before (S.txns sums.now) (S.place sums.now))
        (made_postings (told_before (S.txns sums.now) (S.place sums.now)) [] postings) ≡ false) }
    ensures steps { OnlyAsked steps.old steps.new }
    ensures few { OnOk result (steps.new.nodes ≤ steps.old.nodes
        + nodes_making (S.asks sums.now) postings) }
{
    let mut here = match asked_by(alloc, postings.as_slice()) {
        Ok(here) => here,
        Err(Memory) => return Err(TallyFault::Memory),
    };
    let mut made = match Vec::with_capacity(alloc, postings.len()) {
        Ok(made) => made,
        Err(_) => return Err(TallyFault::Memory),
    };
    for posting in postings.into_vec() {
        match make_next(alloc, sums, &mut here, &mut made, posting, steps) {
            Ok(()) => {}
            Err(fault) => return Err(fault),
        }
    }
    Ok(List::from_vec(made))
}

/// Makes the assignment of one more posting, if it is one, and adds the posting to those before it.
fn make_next<S: Sums, L: Ledger>(
    alloc: Global,
    sums: &S,
    here: &mut Balances,
    made: &mut Vec<Posting>,
    posting: Posting,
    steps: &mut Steps<L>,
) -> Result<(), TallyFault>
    ensures made { OnOk result (IsBalance made.old.items here.old.own here.old.below
        → is_asked here.old.own here.old.below posting ≡ true
        → IsMadeNext (told_before (S.txns sums.now) (S.place sums.now)) posting made.old.items
        made.new.items here.new.own here.new.below) }
    ensures own { OnOk result (here.new.own.1 ≡ here.old.own.1) }
    ensures below { OnOk result (here.new.below.1 ≡ here.old.below.1) }
    ensures range { IfErr result (λ e. IsRange e
        → IsBalance made.old.items here.old.own here.old.below
        → is_asked here.old.own here.old.below posting ≡ true
        → are_in_range (told_before (S.txns sums.now) (S.place sums.now))
        (made.old.items
        ++ made_posting (told_before (S.txns sums.now) (S.place sums.now)) made.old.items posting
        posting.amount posting.wanted ∷ []) ≡ false) }
    ensures steps { OnlyAsked steps.old steps.new }
    ensures few { OnOk result (steps.new.nodes ≤ steps.old.nodes
        + making (S.asks sums.now) posting) }
{
    let posting = match make_one(alloc, sums, here, posting, steps) {
        Ok(posting) => posting,
        Err(fault) => return Err(fault),
    };
    match add_posting(alloc, here, &posting) {
        Ok(()) => {}
        Err(fault) => return Err(fault),
    }
    match made.push(posting) {
        Ok(()) => Ok(()),
        Err(_) => Err(TallyFault::Memory),
    }
}

/// A posting with its assignment made, if it is one.
fn make_one<S: Sums, L: Ledger>(
    alloc: Global,
    sums: &S,
    here: &Balances,
    posting: Posting,
    steps: &mut Steps<L>,
) -> Result<Posting, TallyFault>
    ensures made { IfOk result (λ p. (done : List Posting)
        → IsBalance done here.now.own here.now.below
        → is_asked here.now.own here.now.below posting ≡ true
        → p ≡ made_posting (told_before (S.txns sums.now) (S.place sums.now)) done posting
        posting.amount posting.wanted) }
    ensures range { IfErr result (λ e. IsRange e → (done : List Posting)
        → IsBalance done here.now.own here.now.below
        → is_asked here.now.own here.now.below posting ≡ true
        → are_in_range (told_before (S.txns sums.now) (S.place sums.now))
        (done ++ made_posting (told_before (S.txns sums.now) (S.place sums.now)) done posting
        posting.amount posting.wanted ∷ []) ≡ false) }
    ensures steps { OnlyAsked steps.old steps.new }
    ensures few { OnOk result (steps.new.nodes ≤ steps.old.nodes
        + making (S.asks sums.now) posting) }
{
    match assigned_amount(alloc, sums, here, &posting, steps) {
        Ok(Some(amount)) => Ok(with_amount(posting, amount)),
        Ok(None) => Ok(posting),
        Err(fault) => Err(fault),
    }
}

/// The amount that a posting is assigned, if it is an assignment.
fn assigned_amount<S: Sums, L: Ledger>(
    alloc: Global,
    sums: &S,
    here: &Balances,
    posting: &Posting,
    steps: &mut Steps<L>,
) -> Result<Option<Amount>, TallyFault>
    ensures made { IfOk result (λ amount. (done : List Posting)
        → IsBalance done here.now.own here.now.below
        → is_asked here.now.own here.now.below posting.now ≡ true
        → given_with posting.now amount
        ≡ made_posting (told_before (S.txns sums.now) (S.place sums.now)) done posting.now
        posting.now.amount posting.now.wanted) }
    ensures range { IfErr result (λ e. IsRange e → (done : List Posting)
        → IsBalance done here.now.own here.now.below
        → is_asked here.now.own here.now.below posting.now ≡ true
        → are_in_range (told_before (S.txns sums.now) (S.place sums.now))
        (done ++ made_posting (told_before (S.txns sums.now) (S.place sums.now)) done posting.now
        posting.now.amount posting.now.wanted ∷ []) ≡ false) }
    ensures steps { OnlyAsked steps.old steps.new }
    ensures few { OnOk result (steps.new.nodes ≤ steps.old.nodes
        + making (S.asks sums.now) posting.now) }
{
    if posting.amount.is_some() {
        return Ok(None);
    }
    match &posting.wanted {
        Some(wanted) => {
            let wanted = wanted.get();
            match assigned_value(sums, here, &posting.account, wanted, steps) {
                Ok(value) => match plain_amount(alloc, wanted.amount.symbol.as_str(), value) {
                    Ok(amount) => Ok(Some(amount)),
                    Err(Memory) => Err(TallyFault::Memory),
                },
                Err(fault) => Err(fault),
            }
        }
        None => Ok(None),
    }
}

/// What is wanted of an account, less what it holds before a transaction and by the transaction's postings so far.
fn assigned_value<S: Sums, L: Ledger>(
    sums: &S,
    here: &Balances,
    account: &Text,
    wanted: &Assertion,
    steps: &mut Steps<L>,
) -> Result<Dec, TallyFault>
    ensures value { IfOk result (λ value. (done : List Posting)
        → IsBalance done here.now.own here.now.below
        → is_kept_for here.now.own here.now.below account.now wanted.now.below ≡ true
        → value ≡ value_after
        (held_after (told_before (S.txns sums.now) (S.place sums.now)) wanted.now.below account.now
        wanted.now.amount.symbol done)
        wanted.now.amount) }
    ensures range { IfErr result (λ e. IsRange e → (done : List Posting)
        → IsBalance done here.now.own here.now.below
        → is_kept_for here.now.own here.now.below account.now wanted.now.below ≡ true
        → fits_after
        (held_after (told_before (S.txns sums.now) (S.place sums.now)) wanted.now.below account.now
        wanted.now.amount.symbol done)
        wanted.now.amount ≡ false) }
    ensures steps { OnlyAsked steps.old steps.new }
    ensures few { steps.new.nodes ≤ steps.old.nodes
        + S.asks sums.now account.now wanted.now.amount.symbol wanted.now.below }
{
    let held = match held(
        sums,
        here,
        account,
        &wanted.amount.symbol,
        wanted.below,
        steps,
    ) {
        Ok(held) => held,
        Err(fault) => return Err(fault),
    };
    difference(&wanted.amount, held)
}
