//! The last day on which a book asks for a balance, and whether it has assignments.
ghost use Rattle.std.specs.Prelude.{◌≡◌};
ghost use Rattle.additions.specs.Asked as spec;
ghost use Rattle.balancing.specs.Groups as groups;
ghost use Rattle.book.specs.SumsBefore as sums;
ghost use Rattle.std.specs.List.{list_any};

use book::{Posting, Txn};

/// The day of a posting.
pub(crate) fn day_of(txn: &Txn, posting: &Posting) -> u32
    ensures { result ≡ groups.day_of txn.now posting.now }
{
    posting.day_in(txn).0
}

/// The day of a posting that has an assertion or is an assignment; 0 of any other one.
fn asked_on(txn: &Txn, posting: &Posting) -> u32
    ensures { result ≡ spec.asked_on txn.now posting.now }
{
    if posting.wanted.is_some() {
        day_of(txn, posting)
    } else {
        0
    }
}

/// The later of a day and the last one on which a posting of a transaction asks.
fn asked_through(last: u32, txn: &Txn) -> u32
    ensures { result ≡ spec.asked_through last txn.now }
{
    let mut latest = last;
    for posting in txn.postings.as_slice() {
        latest = latest.max(asked_on(txn, posting));
    }
    latest
}

/// The last day on which a posting of a book asks, 0 where none does.
pub(crate) fn last_asked(txns: &[Txn]) -> u32
    ensures { result ≡ spec.last_asked txns.now }
{
    let mut last = 0;
    for txn in txns {
        last = asked_through(last, txn);
    }
    last
}

/// Whether a posting is an assignment, as it stands in a book: its amount was found, and it is to have a balance.
fn is_assigned(posting: &Posting) -> bool
    ensures { result ≡ sums.is_assigned posting.now }
{
    posting.filled && posting.wanted.is_some()
}

/// The same of one of some postings.
fn any_assigned(postings: &[Posting]) -> bool
    ensures { result ≡ list_any sums.is_assigned postings.now }
{
    postings.iter().any(is_assigned)
}

/// The same of a posting of a transaction.
fn txn_assigned(txn: &Txn) -> bool
    ensures { result ≡ list_any sums.is_assigned txn.now.postings }
{
    any_assigned(txn.postings.as_slice())
}

/// The same of one of some transactions.
fn any_txn_assigned(txns: &[Txn]) -> bool
    ensures { result ≡ list_any (λ t. list_any sums.is_assigned t.postings) txns.now }
{
    txns.iter().any(txn_assigned)
}

/// Whether a posting of a book is an assignment.
pub(crate) fn has_assigned(txns: &[Txn]) -> bool
    ensures { result ≡ spec.has_assigned txns.now }
{
    any_txn_assigned(txns)
}
