//! Transactions with a posting on another day than their own.
ghost use Rattle.std.specs.Prelude.{◌≡◌};
ghost use Rattle.std.specs.List.{list_any};
ghost use Rattle.reached_walk.specs.Apart as spec;

use book::{Posting, Txn};

/// Whether a posting of a transaction stands on another day than that one's.
pub fn is_dated(txn: &Txn) -> bool
    ensures { result ≡ spec.is_dated txn.now }
{
    is_one_apart(txn, txn.postings.as_slice())
}

fn is_one_apart(txn: &Txn, postings: &[Posting]) -> bool
    ensures { result ≡ list_any (spec.is_apart txn.now) postings.now }
{
    postings.iter().any(|posting| is_apart(txn, posting))
}

fn is_apart(txn: &Txn, posting: &Posting) -> bool
    ensures { result ≡ spec.is_apart txn.now posting.now }
{
    posting.day_in(txn).0 != txn.day.0
}
