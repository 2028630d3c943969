//! Transactions that are balanced one after another.
ghost use Rattle.std.specs.Prelude.{◌≡◌, ◌∷◌, ◌++◌, [], OnOk, IfOk, List, Some, min, not};
ghost use Rattle.std.specs.List.{fold, list_all};
ghost use Rattle.balancing.specs.Groups.{day_of};
ghost use Rattle.book.specs.Postings.{txn_in, txns_of};
ghost use Rattle.book.specs.declared.transaction.Txn.{Txn as Entry};
ghost use Rattle.entry_balance.specs.Settled.{lacks_sums};
ghost use Rattle.additions.specs.Words as words;

use crate::asking::day_of;
use book::{Boxed, Cause, Item, Placed, Posting, Txn, copied_txn};
use entry_balance::{Settled, settle};
use hl_base::Memory;
use std::alloc::Global;

/// A transaction with what balancing finds, what is wrong with it, and the day of its first group.
#[derive(Debug, Drop)]
pub struct Judged {
    pub txn: Txn,
    pub cause: Option<Boxed<Cause>>,
    pub first: u32,
}

/// The earlier of a day and those of some postings.
fn earliest(txn: &Txn, first: u32, postings: &[Posting]) -> u32
    ensures { result ≡ fold (λ d p. min d (day_of txn.now p)) first postings.now }
{
    let mut day = first;
    for posting in postings {
        day = day.min(day_of(txn, posting));
    }
    day
}

/// The earliest day of some postings of a transaction, its own day where there are none.
fn first_of(txn: &Txn, postings: &[Posting]) -> u32
    ensures { result ≡ words.first_of txn.now postings.now }
{
    match postings.split_first() {
        Some((first, rest)) => earliest(txn, day_of(txn, first), rest),
        None => txn.day.0,
    }
}

/// The day of a transaction's first group.
fn first_day(txn: &Txn) -> u32
    ensures { result ≡ words.first_day txn.now }
{
    first_of(txn, txn.postings.as_slice())
}

/// A transaction that was settled, with the day of its first group.
fn with_first(settled: Settled, first: u32) -> Judged
    ensures { (result.txn ≡ settled.txn)
        × ((result.cause ≡ settled.cause) × (result.first ≡ first)) }
{
    let Settled { txn, cause } = settled;
    Judged { txn, cause, first }
}

/// A transaction with what balancing finds.
fn judge_txn(alloc: Global, txn: &Txn) -> Result<Judged, Memory>
    ensures { IfOk result (words.IsJudged txn.now) }
{
    let first = first_day(txn);
    let copy = copied_txn(alloc, txn)?;
    let settled = settle(alloc, copy)?;
    Ok(with_first(settled, first))
}

/// Puts a transaction with what balancing finds behind others.
fn push_txn(alloc: Global, txn: &Txn, all: &mut Vec<Judged>) -> Result<(), Memory>
    ensures { OnOk result ((before : List Entry) → words.AreJudged before all.old.items
        → words.AreJudged (before ++ txn.now ∷ []) all.new.items) }
{
    let one = judge_txn(alloc, txn)?;
    all.push(one)?;
    Ok(())
}

/// The same of the transaction that an item is, if it is one.
fn push_item(alloc: Global, item: &Item, all: &mut Vec<Judged>) -> Result<(), Memory>
    ensures { OnOk result ((before : List Entry) → words.AreJudged before all.old.items
        → words.AreJudged (before ++ txn_in item.now) all.new.items) }
{
    match item {
        Item::Txn(txn) => push_txn(alloc, txn, all),
        Item::Gap => Ok(()),
        Item::Block => Ok(()),
        Item::Auto(_) => Ok(()),
        Item::Periodic(_) => Ok(()),
        Item::Price(_) => Ok(()),
        Item::Directive(_) => Ok(()),
    }
}

/// The transactions of some items with what balancing finds.
pub(crate) fn judge_items(alloc: Global, items: &[Placed]) -> Result<Vec<Judged>, Memory>
    ensures { IfOk result (λ all. words.AreJudged (txns_of items.now) all.items) }
{
    let mut all = Vec::new(alloc);
    for placed in items {
        push_item(alloc, &placed.item, &mut all)?;
    }
    Ok(all)
}

/// Whether a transaction with the cause has sums.
fn has_sums(cause: &Option<Boxed<Cause>>) -> bool
    ensures { result ≡ not (lacks_sums cause.now) }
{
    match cause {
        None => true,
        Some(cause) => cause_has_sums(cause.get()),
    }
}

/// The same of a cause that is there.
fn cause_has_sums(cause: &Cause) -> bool
    ensures { result ≡ not (lacks_sums (Some cause.now)) }
{
    match cause {
        Cause::TwoMissing | Cause::NotAllowed | Cause::Range => false,
        Cause::Form
        | Cause::Date
        | Cause::Number
        | Cause::Account
        | Cause::StatusMark
        | Cause::Directive
        | Cause::Quote
        | Cause::TooLong
        | Cause::Encoding
        | Cause::Unbalanced { .. }
        | Cause::AssertionFailed { .. } => true,
    }
}

/// Whether each of some transactions has sums.
pub(crate) fn have_sums(all: &[Judged]) -> bool
    ensures { result ≡ list_all (λ j. not (lacks_sums j.cause)) all.now }
{
    all.iter().all(|judged| has_sums(&judged.cause))
}
