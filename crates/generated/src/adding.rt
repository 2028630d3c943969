//! What automated rules add to transactions.
ghost use Rattle.std.specs.Prelude.{◌≡◌, ◌++◌, length, map, IfOk, OnOk};
ghost use Rattle.query.specs.OwnLetters.{own_in};
ghost use Rattle.rule_entries.specs.Counted.{told};
ghost use Rattle.generated.specs.Added as spec;
ghost use Rattle.generated.specs.Asking.{AllAsk, all_asked};
ghost use Rattle.generated.specs.Remembering.{AreReady};

use crate::asking::{Asker, add_if, count_one, means};
use crate::remembering::{Accounts, known_at};
use book::{Posting, Txn, copied_head, copied_posting};
use hl_base::{List, Memory};
use std::alloc::Global;

/// How many postings some rules add behind a posting.
fn count_behind(
    askers: &mut [Asker<'_>],
    accounts: &Accounts<'_>,
    txn: &Txn,
    posting: &Posting,
) -> u64
    requires { AreReady askers.old accounts.now.kept.now }
    ensures count { result
        ≡ told (length
        (spec.added (own_in accounts.now.types.now) (all_asked askers.old) txn.now posting.now)) }
    ensures ask { AllAsk askers.old askers.new }
{
    let verdicts = accounts.kept.known(&posting.account);
    let mut count: u64 = 0;
    let mut at = 0;
    for asker in askers.iter_mut() {
        let one = known_at(verdicts, at);
        count = count.saturating_add(count_one(asker, one, accounts.types, txn, posting));
        at += 1;
    }
    count
}

/// How many postings some rules add to a transaction.
fn count_in(askers: &mut [Asker<'_>], accounts: &Accounts<'_>, txn: &Txn) -> u64
    requires { AreReady askers.old accounts.now.kept.now }
    ensures count { result
        ≡ told (length
        (spec.added_to (own_in accounts.now.types.now) (all_asked askers.old) txn.now)) }
    ensures ask { AllAsk askers.old askers.new }
{
    let mut count: u64 = 0;
    for posting in txn.postings.as_slice() {
        count = count.saturating_add(count_behind(askers, accounts, txn, posting));
    }
    count
}

/// How many postings some rules add to transactions.
pub(crate) fn count_added(askers: &mut [Asker<'_>], accounts: &Accounts<'_>, txns: &[Txn]) -> u64
    requires { AreReady askers.old accounts.now.kept.now }
    ensures count { result
        ≡ told (length
        (spec.all_added (own_in accounts.now.types.now) (all_asked askers.old) txns.now)) }
    ensures ask { AllAsk askers.old askers.new }
{
    let mut count: u64 = 0;
    for txn in txns {
        count = count.saturating_add(count_in(askers, accounts, txn));
    }
    count
}

/// Puts what some rules add behind a posting, in their order.
fn add_behind(
    alloc: Global,
    askers: &mut [Asker<'_>],
    accounts: &Accounts<'_>,
    txn: &Txn,
    posting: &Posting,
    postings: &mut Vec<Posting>,
) -> Result<(), Memory>
    requires { AreReady askers.old accounts.now.kept.now }
    ensures added { OnOk result (postings.new.items ≡ postings.old.items
        ++ spec.added (own_in accounts.now.types.now) (all_asked askers.old) txn.now posting.now) }
    ensures ask { OnOk result (AllAsk askers.old askers.new) }
{
    let verdicts = accounts.kept.known(&posting.account);
    let mut at = 0;
    for asker in askers.iter_mut() {
        let one = known_at(verdicts, at);
        let asked = means(asker, one, accounts.types, txn, posting);
        add_if(alloc, asked, asker, posting, postings)?;
        at += 1;
    }
    Ok(())
}

/// A transaction with what some rules add, behind each posting what they add for it.
fn with_added(
    alloc: Global,
    askers: &mut [Asker<'_>],
    accounts: &Accounts<'_>,
    txn: &Txn,
) -> Result<Txn, Memory>
    requires { AreReady askers.old accounts.now.kept.now }
    ensures added { IfOk result (λ t. t
        ≡ spec.with_added (own_in accounts.now.types.now) (all_asked askers.old) txn.now) }
    ensures ask { OnOk result (AllAsk askers.old askers.new) }
{
    let mut postings = Vec::with_capacity(alloc, txn.postings.len())?;
    for posting in txn.postings.as_slice() {
        let copy = copied_posting(alloc, posting)?;
        postings.push(copy)?;
        add_behind(alloc, askers, accounts, txn, posting, &mut postings)?;
    }
    let made = copied_head(alloc, txn, List::from_vec(postings))?;
    Ok(made)
}

/// Some transactions with what rules add to them.
pub(crate) fn all_with_added(
    alloc: Global,
    askers: &mut [Asker<'_>],
    accounts: &Accounts<'_>,
    txns: &[Txn],
) -> Result<Vec<Txn>, Memory>
    requires { AreReady askers.old accounts.now.kept.now }
    ensures { IfOk result (λ made. made.items
        ≡ map (spec.with_added (own_in accounts.now.types.now) (all_asked askers.old)) txns.now) }
{
    let mut made = Vec::with_capacity(alloc, txns.len())?;
    for txn in txns {
        let more = with_added(alloc, askers, accounts, txn)?;
        made.push(more)?;
    }
    Ok(made)
}
