//! One transaction with a missing amount, worked out by hand; further ones are in tests/reports and tests/journals.
ghost use Rattle.std.specs.Prelude.{◌≡◌, IfOk, false};
ghost use Rattle.entry_balance.specs.Entry.{has_assignment, is_assignment};

use crate::samples::amount;
use balancing::{faults, solves, sums_at_places};
use book::{Amount, Mark, Posting, Side, Txn};
use entry_balance::balance_txn;
use hl_base::{List, Memory, Text};
use hl_time::Day;
use std::alloc::Global;
use std::test::Fail;

fn posting(alloc: Global, amount: Option<Amount>) -> Result<Posting, Memory>
    ensures { IfOk result (λ p. is_assignment p ≡ false) }
{
    let account = Text::copied(alloc, "a")?;
    let mut posting = Posting::plain(alloc, 1, Side::Real, account);
    posting.amount = amount;
    Ok(posting)
}

fn txn(alloc: Global, postings: Vec<Posting>) -> Txn
    ensures { result.postings ≡ postings.items }
{
    Txn {
        line: 1,
        day: Day(10),
        mark: Mark::Unmarked,
        code: Text::new(alloc),
        description: Text::new(alloc),
        comment: Text::new(alloc),
        tags: List::new(alloc),
        postings: List::from_vec(postings),
    }
}

/// `1 C`, `2 B` and a missing amount.
fn missing(alloc: Global) -> Result<Txn, Memory>
    ensures { IfOk result (λ t. has_assignment t.postings ≡ false) }
{
    let first = posting(alloc, Some(amount(alloc, 1, 0, "C")?))?;
    let second = posting(alloc, Some(amount(alloc, 2, 0, "B")?))?;
    let third = posting(alloc, None)?;
    let mut postings = Vec::new(alloc);
    postings.push(first)?;
    postings.push(second)?;
    postings.push(third)?;
    Ok(txn(alloc, postings))
}

#[test]
fn fills_a_missing_amount(rt: HostRuntime) -> Result<(), Fail> {
    let alloc = rt.alloc();
    match balance_txn(alloc, missing(alloc)?) {
        Ok(txn) => assert_eq!(rt; txn.postings.len(), 4),
        Err(_) => assert!(rt; false),
    }
    Ok(())
}

#[test]
fn the_laws_hold() {
    solves();
    faults();
    sums_at_places();
}
