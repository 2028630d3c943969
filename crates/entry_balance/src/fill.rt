//! Postings with what balancing finds for them.
ghost use Rattle.std.specs.Prelude.{◌≡◌, ◌++◌, ◌∷◌, [], true, false, map, OnOk, IfOk, IsSome, None, List, Option};
ghost use Rattle.std.specs.List.{list_all};
ghost use Rattle.book.specs.declared.transaction.Side.TheVariants.{Real, Balanced, Free};
ghost use Rattle.entry_balance.specs.Values.{Value};
ghost use Rattle.entry_balance.specs.Entry.{misses, found_values, found_posting, plain_amount, plain_shape, costed_posting, recorded_cost, solved};
ghost use Rattle.entry_balance.specs.Fill.{filled_posting, filled_in_place, found_for, stays_single};

use crate::plan::Plan;
use crate::rules::{Found, Recorded, is_real_of};
use book::{Amount, Boxed, Cost, Posting, Side, Written, copied_tags};
use hl_base::{List, Memory, Text};
use hl_num::Dec;
use std::alloc::Global;

/// The postings with their missing amounts and the recorded cost. They stay where they are if none becomes several and
/// no cost is recorded.
pub(crate) fn fill(
    alloc: Global,
    postings: List<Posting>,
    plan: &Plan,
) -> Result<List<Posting>, Memory>
    requires real { misses Real postings ≡ true → plan.now.real.items ≡ found_values Real postings }
    requires balanced { misses Balanced postings ≡ true
        → plan.now.balanced.items ≡ found_values Balanced postings }
    requires free { misses Free postings ≡ false }
    requires recorded { plan.now.recorded ≡ recorded_cost postings }
    ensures { IfOk result (λ filled. filled ≡ solved postings) }
{
    let mut postings = postings.into_vec();
    if plan.recorded.is_none() && stay_single(&postings, plan) {
        fill_in_place(alloc, &mut postings, plan)?;
        return Ok(List::from_vec(postings));
    }
    fill_anew(alloc, postings, plan)
}

/// Whether each posting stays one posting.
fn stay_single(postings: &[Posting], plan: &Plan) -> bool
    ensures { result ≡ list_all (stays_single plan.now.real.items plan.now.balanced.items)
        postings.now }
{
    postings.iter().all(|posting| stays_single(posting, plan))
}

/// Whether a posting has an amount, or one is found for it.
fn stays_single(posting: &Posting, plan: &Plan) -> bool
    ensures { result ≡ stays_single plan.now.real.items plan.now.balanced.items posting.now }
{
    posting.amount.is_some() || found_for(plan, posting.side).len() == 1
}

/// Fills each posting where it stands.
fn fill_in_place(alloc: Global, postings: &mut [Posting], plan: &Plan) -> Result<(), Memory>
    ensures { OnOk result (postings.new
        ≡ map (filled_in_place plan.now.real.items plan.now.balanced.items) postings.old) }
{
    for posting in postings.iter_mut() {
        fill_in(alloc, posting, plan)?;
    }
    Ok(())
}

/// Gives a posting without an amount the one that was found for it.
fn fill_in(alloc: Global, posting: &mut Posting, plan: &Plan) -> Result<(), Memory>
    ensures { OnOk result (posting.new
        ≡ filled_in_place plan.now.real.items plan.now.balanced.items posting.old) }
{
    if posting.amount.is_some() {
        return Ok(());
    }
    if let [value] = found_for(plan, posting.side) {
        posting.amount = Some(plain_amount(alloc, value.0.as_str(), value.1)?);
        posting.cost = None;
        posting.wanted = None;
        posting.filled = true;
        posting.costed = false;
    }
    Ok(())
}

/// The postings, each once for each amount that was found for it, with the recorded cost.
fn fill_anew(alloc: Global, postings: Vec<Posting>, plan: &Plan) -> Result<List<Posting>, Memory>
    requires real { misses Real postings.items ≡ true
        → plan.now.real.items ≡ found_values Real postings.items }
    requires balanced { misses Balanced postings.items ≡ true
        → plan.now.balanced.items ≡ found_values Balanced postings.items }
    requires free { misses Free postings.items ≡ false }
    requires recorded { plan.now.recorded ≡ recorded_cost postings.items }
    ensures { IfOk result (λ filled. filled ≡ solved postings.items) }
{
    let mut filled = Vec::with_capacity(alloc, postings.len())?;
    for posting in postings {
        fill_one(alloc, &mut filled, posting, plan)?;
    }
    Ok(List::from_vec(filled))
}

/// Adds a posting with what was found for it.
fn fill_one(
    alloc: Global,
    filled: &mut Vec<Posting>,
    posting: Posting,
    plan: &Plan,
) -> Result<(), Memory>
    ensures { OnOk result (filled.new.items ≡ filled.old.items
        ++ filled_posting plan.now.real.items plan.now.balanced.items plan.now.recorded posting
        posting.amount) }
{
    match &posting.amount {
        Some(_) => {
            let costed = with_cost(alloc, posting, &plan.recorded)?;
            filled.push(costed)?;
            Ok(())
        }
        None => add_found(alloc, filled, &posting, found_for(plan, posting.side)),
    }
}

/// The missing amounts of a side.
fn found_for(plan: &Plan, side: Side) -> &[Found]
    ensures { result.now ≡ found_for plan.now.real.items plan.now.balanced.items side }
{
    match side {
        Side::Real => &plan.real,
        Side::Balanced => &plan.balanced,
        Side::Free => &[],
    }
}

/// Adds a posting once for each amount that was found for it.
fn add_found(
    alloc: Global,
    filled: &mut Vec<Posting>,
    posting: &Posting,
    found: &[Found],
) -> Result<(), Memory>
    ensures { OnOk result (filled.new.items ≡ filled.old.items
        ++ map (found_posting posting.now) found.now) }
{
    for value in found {
        let copy = found_posting(alloc, posting, value)?;
        filled.push(copy)?;
    }
    Ok(())
}

/// A posting with the amount that was found for it.
fn found_posting(alloc: Global, posting: &Posting, value: &Found) -> Result<Posting, Memory>
    ensures { IfOk result (λ p. p ≡ found_posting posting.now value.now) }
{
    let amount = plain_amount(alloc, value.0.as_str(), value.1)?;
    let account = Text::copied(alloc, posting.account.as_str())?;
    let comment = Text::copied(alloc, posting.comment.as_str())?;
    let tags = copied_tags(alloc, posting.tags.as_slice())?;
    Ok(Posting {
        line: posting.line,
        mark: posting.mark,
        side: posting.side,
        account,
        amount: Some(amount),
        cost: None,
        wanted: None,
        filled: true,
        costed: false,
        comment,
        tags,
        day: posting.day,
    })
}

/// A found amount, written on the right after a space and without groups.
pub fn plain_amount(alloc: Global, symbol: &str, value: Dec) -> Result<Amount, Memory>
    ensures { IfOk result (λ a. a ≡ plain_amount (symbol.now, value)) }
{
    let symbol = Text::copied(alloc, symbol)?;
    Ok(Amount {
        symbol,
        value,
        shape: Written {
            left: false,
            spaced: true,
            mark: None,
            group: None,
            first: 3,
            rest: 3,
        },
    })
}

/// A posting with the recorded cost, if that is of its symbol.
fn with_cost(
    alloc: Global,
    mut posting: Posting,
    recorded: &Option<Recorded>,
) -> Result<Posting, Memory>
    ensures { IfOk result (λ p. p ≡ costed_posting recorded.now posting) }
{
    if let Some((symbol, cost)) = recorded {
        if is_real_of(&posting, symbol.as_str()) && posting.cost.is_none() {
            let amount = plain_amount(alloc, cost.0.as_str(), cost.1)?;
            posting.cost = Some(Boxed::new(alloc, Cost::Total(amount))?);
            posting.costed = true;
        }
    }
    Ok(posting)
}
