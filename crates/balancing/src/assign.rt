//! Assignments: the amounts that make their assertions true.
ghost use Rattle.std.specs.Prelude.{◌≡◌, ◌++◌, true, false, Some, List, OnOk, IfOk, IfErr, IsSomeAnd};
ghost use Rattle.std.specs.List.{list_all};
ghost use Rattle.book.specs.declared.transaction.Posting.{Posting};
ghost use Rattle.entry_balance.specs.Values.{Value};
ghost use Rattle.entry_balance.specs.Entry.{moved};
ghost use Rattle.entry_balance.specs.Tally.{sums_of, total_of, turnover_fits, IsRange};
ghost use Rattle.assertions.specs.Assertions.{held_in};
ghost use Rattle.balancing.specs.Assigned.{given_posting_by, given_postings_by};
ghost use Rattle.balancing.specs.Entering.{entering};
ghost use Rattle.balancing.specs.Giving.{IsReady, IsHeld, IsGivenNext, given_next, given_with, value_after, value_after_by, fits_after, fits_after_by};
ghost use Rattle.assertions.specs.Kept.{IsBalance, is_asked};

use crate::form::Form;
use assertions::{Balances, add_posting, asked_by, asked_for, total_in};
use book::{Amount, Assertion, Posting};
use entry_balance::{TallyFault, checked_sum, plain_amount};
use hl_base::{List, Memory};
use hl_num::Dec;
use std::alloc::Global;

/// The postings of a transaction with their assignments made, one after another, by what the accounts hold before it.
pub(crate) fn assign(
    alloc: Global,
    form: Form,
    balances: &Balances,
    postings: List<Posting>,
) -> Result<List<Posting>, TallyFault>
    ensures given { IfOk result (λ given. (seen : List Posting)
        → IsBalance seen balances.now.own balances.now.below
        → list_all (is_asked balances.now.own balances.now.below) postings ≡ true
        → given ≡ given_postings_by (entering form) seen postings) }
    ensures range { IfErr result (λ e. IsRange e → (seen : List Posting)
        → IsBalance seen balances.now.own balances.now.below
        → list_all (is_asked balances.now.own balances.now.below) postings ≡ true
        → turnover_fits (moved (seen ++ given_postings_by (entering form) seen postings)) ≡ false) }
{
    let mut here = match asked_by(alloc, postings.as_slice()) {
        Ok(here) => here,
        Err(Memory) => return Err(TallyFault::Memory),
    };
    let mut given = match Vec::with_capacity(alloc, postings.len()) {
        Ok(given) => given,
        Err(_) => return Err(TallyFault::Memory),
    };
    for posting in postings.into_vec() {
        match give_next(alloc, form, balances, &mut here, &mut given, posting) {
            Ok(()) => {}
            Err(fault) => return Err(fault),
        }
    }
    Ok(List::from_vec(given))
}

/// Gives one more posting, and adds it to what the postings before it came to.
fn give_next(
    alloc: Global,
    form: Form,
    balances: &Balances,
    here: &mut Balances,
    given: &mut Vec<Posting>,
    posting: Posting,
) -> Result<(), TallyFault>
    ensures given { OnOk result ((seen : List Posting)
        → IsReady seen given.old.items posting balances.now.own balances.now.below here.old.own
        here.old.below
        → IsGivenNext (entering form) (seen
        ++ given.old.items) posting given.old.items given.new.items here.new.own here.new.below) }
    ensures own { OnOk result (here.new.own.1 ≡ here.old.own.1) }
    ensures below { OnOk result (here.new.below.1 ≡ here.old.below.1) }
    ensures range { IfErr result (λ e. IsRange e → (seen : List Posting)
        → IsReady seen given.old.items posting balances.now.own balances.now.below here.old.own
        here.old.below
        → turnover_fits (moved (given_next (entering form) seen given.old.items posting)) ≡ false) }
{
    let posting = match give_one(alloc, form, balances, here, posting) {
        Ok(posting) => posting,
        Err(fault) => return Err(fault),
    };
    match add_posting(alloc, here, &posting) {
        Ok(()) => {}
        Err(fault) => return Err(fault),
    }
    match given.push(posting) {
        Ok(()) => Ok(()),
        Err(_) => Err(TallyFault::Memory),
    }
}

/// A posting with its assignment made, if it is one.
fn give_one(
    alloc: Global,
    form: Form,
    balances: &Balances,
    here: &Balances,
    posting: Posting,
) -> Result<Posting, TallyFault>
    ensures given { IfOk result (λ p. (seen done : List Posting)
        → IsReady seen done posting balances.now.own balances.now.below here.now.own here.now.below
        → p ≡ given_posting_by (entering form) (seen
        ++ done) posting posting.amount posting.wanted) }
    ensures range { IfErr result (λ e. IsRange e → (seen done : List Posting)
        → IsReady seen done posting balances.now.own balances.now.below here.now.own here.now.below
        → turnover_fits (moved (given_next (entering form) seen done posting)) ≡ false) }
{
    match assigned_amount(alloc, form, balances, here, &posting) {
        Ok(Some(amount)) => Ok(with_amount(posting, amount)),
        Ok(None) => Ok(posting),
        Err(fault) => Err(fault),
    }
}

/// A posting with the amount that it was assigned.
pub fn with_amount(mut posting: Posting, amount: Amount) -> Posting
    ensures { result ≡ given_with posting (Some amount) }
{
    posting.amount = Some(amount);
    posting.cost = None;
    posting.filled = true;
    posting.costed = false;
    posting
}

/// The amount that a posting is assigned, if it is an assignment.
fn assigned_amount(
    alloc: Global,
    form: Form,
    balances: &Balances,
    here: &Balances,
    posting: &Posting,
) -> Result<Option<Amount>, TallyFault>
    ensures given { IfOk result (λ amount. (seen done : List Posting)
        → IsReady seen done posting.now balances.now.own balances.now.below here.now.own
        here.now.below
        → given_with posting.now amount
        ≡ given_posting_by (entering form) (seen
        ++ done) posting.now posting.now.amount posting.now.wanted) }
    ensures range { IfErr result (λ e. IsRange e → (seen done : List Posting)
        → IsReady seen done posting.now balances.now.own balances.now.below here.now.own
        here.now.below
        → turnover_fits (moved (given_next (entering form) seen done posting.now)) ≡ false) }
{
    if posting.amount.is_some() {
        return Ok(None);
    }
    match &posting.wanted {
        Some(wanted) => {
            let wanted = wanted.get();
            let value = match assigned_value(
                form,
                balances,
                here,
                posting.account.as_bytes(),
                wanted,
            ) {
                Ok(value) => value,
                Err(fault) => return Err(fault),
            };
            match plain_amount(alloc, wanted.amount.symbol.as_str(), value) {
                Ok(amount) => Ok(Some(amount)),
                Err(Memory) => Err(TallyFault::Memory),
            }
        }
        None => Ok(None),
    }
}

/// What is wanted of an account, less what it holds before a transaction and by the transaction's postings so far.
fn assigned_value(
    form: Form,
    balances: &Balances,
    here: &Balances,
    account: &[u8],
    wanted: &Assertion,
) -> Result<Dec, TallyFault>
    ensures value { IfOk result (λ value. (seen done : List Posting)
        → IsHeld seen done account.now wanted.now.below balances.now.own balances.now.below
        here.now.own here.now.below
        → value ≡ value_after_by (entering form) (held_in wanted.now.below account.now (seen
        ++ done)) wanted.now.amount) }
    ensures range { IfErr result (λ e. IsRange e → (seen done : List Posting)
        → IsHeld seen done account.now wanted.now.below balances.now.own balances.now.below
        here.now.own here.now.below
        → fits_after_by (entering form) (held_in wanted.now.below account.now (seen
        ++ done)) wanted.now.amount ≡ false) }
{
    let symbol = wanted.amount.symbol.as_str();
    let before = total_in(asked_for(balances, account, wanted.below), symbol);
    let so_far = total_in(asked_for(here, account, wanted.below), symbol);
    let held = checked_sum(before, so_far)?;
    difference_in(form, &wanted.amount, held)
}

/// What is wanted of an account, less what it holds, which enters with as few decimals as it needs. So the amount has
/// the decimals that are wanted, or more where its value needs them, however the account's sum was added up.
pub fn difference(wanted: &Amount, held: Dec) -> Result<Dec, TallyFault>
    ensures value { IfOk result (λ value. (values : List Value)
        → held ≡ total_of wanted.now.symbol values
        → value ≡ value_after values wanted.now) }
    ensures range { IfErr result (λ e. IsRange e → (values : List Value)
        → held ≡ total_of wanted.now.symbol values
        → fits_after values wanted.now ≡ false) }
{
    difference_in(Form::Shortened, wanted, held)
}

/// The same in a form.
fn difference_in(form: Form, wanted: &Amount, held: Dec) -> Result<Dec, TallyFault>
    ensures value { IfOk result (λ value. (values : List Value)
        → held ≡ total_of wanted.now.symbol values
        → value ≡ value_after_by (entering form) values wanted.now) }
    ensures range { IfErr result (λ e. IsRange e → (values : List Value)
        → held ≡ total_of wanted.now.symbol values
        → fits_after_by (entering form) values wanted.now ≡ false) }
{
    let _decimals = held.decimals();
    checked_sum(wanted.value, entered(form, held).negated())
}

/// An account's sum as it enters in a form.
fn entered(form: Form, held: Dec) -> Dec
    ensures { result ≡ entering form held }
{
    match form {
        Form::Shortened => held.trimmed(),
        Form::Whole => held,
    }
}
