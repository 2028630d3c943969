//! Copies of amounts, postings and transactions.
ghost use Rattle.std.specs.Prelude.{◌≡◌, IfOk};

use crate::amount::{Amount, Assertion, Cost};
use crate::boxed::Boxed;
use crate::transaction::{Posting, Tag, Txn};
use hl_base::{List, Memory, Text};
use std::alloc::Global;

/// A copy of an amount.
pub fn copied_amount(alloc: Global, amount: &Amount) -> Result<Amount, Memory>
    ensures { IfOk result (λ copy. copy ≡ amount.now) }
{
    let symbol = Text::copied(alloc, amount.symbol.as_str())?;
    Ok(Amount {
        symbol,
        value: amount.value,
        shape: amount.shape,
    })
}

/// A copy of a cost.
pub fn copied_cost(alloc: Global, cost: &Cost) -> Result<Boxed<Cost>, Memory>
    ensures { IfOk result (λ copy. copy ≡ cost.now) }
{
    let copy = same_cost(alloc, cost)?;
    Boxed::new(alloc, copy)
}

fn same_cost(alloc: Global, cost: &Cost) -> Result<Cost, Memory>
    ensures { IfOk result (λ copy. copy ≡ cost.now) }
{
    match cost {
        Cost::Unit(amount) => Ok(Cost::Unit(copied_amount(alloc, amount)?)),
        Cost::Total(amount) => Ok(Cost::Total(copied_amount(alloc, amount)?)),
    }
}

/// A copy of a cost, if there is one.
pub fn copied_costs(
    alloc: Global,
    cost: &Option<Boxed<Cost>>,
) -> Result<Option<Boxed<Cost>>, Memory>
    ensures { IfOk result (λ copy. copy ≡ cost.now) }
{
    match cost {
        Some(cost) => Ok(Some(copied_cost(alloc, cost.get())?)),
        None => Ok(None),
    }
}

/// A copy of an amount, if there is one.
pub fn copied_amounts(alloc: Global, amount: &Option<Amount>) -> Result<Option<Amount>, Memory>
    ensures { IfOk result (λ copy. copy ≡ amount.now) }
{
    match amount {
        Some(amount) => Ok(Some(copied_amount(alloc, amount)?)),
        None => Ok(None),
    }
}

fn copied_assertion(alloc: Global, wanted: &Assertion) -> Result<Boxed<Assertion>, Memory>
    ensures { IfOk result (λ copy. copy ≡ wanted.now) }
{
    let amount = copied_amount(alloc, &wanted.amount)?;
    let copy = Assertion {
        amount,
        only: wanted.only,
        below: wanted.below,
    };
    Boxed::new(alloc, copy)
}

fn copied_assertions(
    alloc: Global,
    wanted: &Option<Boxed<Assertion>>,
) -> Result<Option<Boxed<Assertion>>, Memory>
    ensures { IfOk result (λ copy. copy ≡ wanted.now) }
{
    match wanted {
        Some(wanted) => Ok(Some(copied_assertion(alloc, wanted.get())?)),
        None => Ok(None),
    }
}

/// Copies of some tags.
pub fn copied_tags(alloc: Global, tags: &[Tag]) -> Result<List<Tag>, Memory>
    ensures { IfOk result (λ copy. copy ≡ tags.now) }
{
    let mut copies = Vec::new(alloc);
    for tag in tags {
        let name = Text::copied(alloc, tag.name.as_str())?;
        let value = Text::copied(alloc, tag.value.as_str())?;
        copies.push(Tag { name, value })?;
    }
    Ok(List::from_vec(copies))
}

/// A copy of a posting.
pub fn copied_posting(alloc: Global, posting: &Posting) -> Result<Posting, Memory>
    ensures { IfOk result (λ copy. copy ≡ posting.now) }
{
    let account = Text::copied(alloc, posting.account.as_str())?;
    let amount = copied_amounts(alloc, &posting.amount)?;
    let cost = copied_costs(alloc, &posting.cost)?;
    let wanted = copied_assertions(alloc, &posting.wanted)?;
    let comment = Text::copied(alloc, posting.comment.as_str())?;
    let tags = copied_tags(alloc, posting.tags.as_slice())?;
    Ok(Posting {
        line: posting.line,
        mark: posting.mark,
        side: posting.side,
        account,
        amount,
        cost,
        wanted,
        filled: posting.filled,
        costed: posting.costed,
        comment,
        tags,
        day: posting.day,
    })
}

/// Copies of some postings.
pub fn copied_postings(alloc: Global, postings: &[Posting]) -> Result<List<Posting>, Memory>
    ensures { IfOk result (λ copies. copies ≡ postings.now) }
{
    let mut copies = Vec::with_capacity(alloc, postings.len())?;
    for posting in postings {
        copies.push(copied_posting(alloc, posting)?)?;
    }
    Ok(List::from_vec(copies))
}

/// A copy of all of a transaction but its postings, with others in their place.
pub fn copied_head(alloc: Global, txn: &Txn, postings: List<Posting>) -> Result<Txn, Memory>
    ensures { IfOk result (λ copy. copy ≡ record txn.now { postings = postings }) }
{
    let code = Text::copied(alloc, txn.code.as_str())?;
    let description = Text::copied(alloc, txn.description.as_str())?;
    let comment = Text::copied(alloc, txn.comment.as_str())?;
    let tags = copied_tags(alloc, txn.tags.as_slice())?;
    Ok(Txn {
        line: txn.line,
        day: txn.day,
        mark: txn.mark,
        code,
        description,
        comment,
        tags,
        postings,
    })
}

/// A copy of a transaction.
pub fn copied_txn(alloc: Global, txn: &Txn) -> Result<Txn, Memory>
    ensures { IfOk result (λ copy. copy ≡ txn.now) }
{
    let postings = copied_postings(alloc, txn.postings.as_slice())?;
    copied_head(alloc, txn, postings)
}

/// Copies of some transactions.
pub fn copied_txns(alloc: Global, txns: &[Txn]) -> Result<Vec<Txn>, Memory>
    ensures { IfOk result (λ copies. copies.items ≡ txns.now) }
{
    let mut copies = Vec::with_capacity(alloc, txns.len())?;
    for txn in txns {
        copies.push(copied_txn(alloc, txn)?)?;
    }
    Ok(copies)
}
