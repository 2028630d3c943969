//! Entries of two real postings, of which the second takes what the first gives. Most entries are written so, and need
//! no sums by symbols.
ghost use Rattle.std.specs.Prelude.{◌≡◌, ◌&&◌, ◌∷◌, [], ℕ, List, true, IfOk, OnOk};
ghost use Rattle.hl_num.specs.Decimal.{negated};
ghost use Rattle.entry_balance.specs.Entry.{moved, solved};
ghost use Rattle.entry_balance.specs.Pair as spec;
ghost use Rattle.entry_balance.specs.Pair.{is_pair};
ghost use Rattle.entry_balance.specs.Tally.{turnover_fits};

use crate::fill::plain_amount;
use crate::sums::same_side;
use crate::tally::checked_sum;
use crate::value::absolute;
use book::{Amount, Posting, Side};
use hl_base::{List, Memory};
use hl_num::Dec;
use std::alloc::Global;

/// Whether an amount is there and isn't zero.
fn is_given(amount: &Option<Amount>) -> bool
    ensures { result ≡ spec.is_given amount.now }
{
    match amount {
        Some(amount) => !amount.value.is_zero(),
        None => false,
    }
}

/// Whether a posting is real and has an amount that isn't zero, and no cost.
fn gives(posting: &Posting) -> bool
    ensures { result ≡ spec.gives posting.now }
{
    same_side(Side::Real, posting.side) && posting.cost.is_none() && is_given(&posting.amount)
}

/// Whether a posting is real and has neither an amount nor an assertion.
fn takes(posting: &Posting) -> bool
    ensures { result ≡ spec.takes posting.now }
{
    same_side(Side::Real, posting.side) && posting.amount.is_none() && posting.wanted.is_none()
}

/// Whether one posting gives and the other takes.
fn is_pair_of(first: &Posting, second: &Posting) -> bool
    ensures { result ≡ (spec.gives first.now && spec.takes second.now) }
{
    gives(first) && takes(second)
}

/// Whether postings are a pair.
#[tactic(auto, using(crate::proofs::Pairs::pair_at, crate::proofs::Pairs::unpaired))]
pub(crate) fn is_pair(postings: &[Posting]) -> bool
    ensures { result ≡ is_pair postings.now }
{
    if postings.len() != 2 {
        return false;
    }
    is_pair_of(&postings[0], &postings[1])
}

/// Whether a number and its opposite stay within the bound together, without their signs.
fn twice_fits(value: Dec) -> bool
    ensures { (symbol : List ℕ)
        → result ≡ turnover_fits ((symbol, value) ∷ (symbol, negated value) ∷ []) }
{
    let _size = value.magnitude();
    let _places = value.decimals();
    let once = absolute(value);
    match checked_sum(once, once) {
        Ok(_sum) => true,
        Err(_fault) => false,
    }
}

/// Whether a posting's amount and its opposite stay within the bound together.
fn both_fit(posting: &Posting) -> bool
    ensures { result ≡ turnover_fits (spec.moves_of posting.now.amount) }
{
    match &posting.amount {
        Some(amount) => twice_fits(amount.value),
        None => true,
    }
}

/// The same of the first of some postings.
fn first_fits(postings: &[Posting]) -> bool
    ensures { result ≡ turnover_fits (spec.moves_first postings.now) }
{
    match postings {
        [] => true,
        [first, ..] => both_fit(first),
    }
}

/// Whether what a pair moves stays within the bound: the amount of its first posting and its opposite.
pub(crate) fn pair_fits(postings: &[Posting]) -> bool
    requires { is_pair postings.now ≡ true }
    ensures { result ≡ turnover_fits (moved (solved postings.now)) }
{
    first_fits(postings)
}

/// The amount that makes up for a posting's.
fn opposite(alloc: Global, posting: &Posting) -> Result<Option<Amount>, Memory>
    ensures { IfOk result (λ found. found ≡ spec.opposite posting.now.amount) }
{
    match &posting.amount {
        Some(amount) => {
            let found = plain_amount(alloc, amount.symbol.as_str(), amount.value.negated())?;
            Ok(Some(found))
        }
        None => Ok(None),
    }
}

/// Gives a posting the amount that was found for it.
fn put_found(posting: &mut Posting, found: Option<Amount>)
    ensures { posting.new ≡ spec.with_amount posting.old found }
{
    posting.amount = found;
    posting.cost = None;
    posting.wanted = None;
    posting.filled = true;
    posting.costed = false;
}

/// Gives the second posting of a pair what makes up for the first.
fn fill_second(alloc: Global, postings: &mut Vec<Posting>) -> Result<(), Memory>
    requires { is_pair postings.old.items ≡ true }
    ensures { OnOk result (postings.new.items ≡ solved postings.old.items) }
{
    let found = opposite(alloc, &postings[0])?;
    put_found(&mut postings[1], found);
    Ok(())
}

/// The postings of a pair with the missing amount.
pub(crate) fn fill_pair(alloc: Global, postings: List<Posting>) -> Result<List<Posting>, Memory>
    requires { is_pair postings ≡ true }
    ensures { IfOk result (λ filled. filled ≡ solved postings) }
{
    let mut postings = postings.into_vec();
    fill_second(alloc, &mut postings)?;
    Ok(List::from_vec(postings))
}
