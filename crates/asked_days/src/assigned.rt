//! How many postings of transactions are assignments.
ghost use Rattle.std.specs.Prelude.{◌≡◌, ◌∷◌, [], ◌+◌, ◌-◌, IfOk};
ghost use Rattle.book.specs.Postings.{postings_of};
ghost use Rattle.book.specs.SumsBefore as sums;
ghost use Rattle.asked_days.specs.Asked.{assigned_among};

use book::{Posting, Txn};
use hl_base::Memory;

/// Whether a posting is an assignment, as it stands in a book: its amount was found, and it is to have a balance.
fn is_assigned(posting: &Posting) -> bool
    ensures { result ≡ sums.is_assigned posting.now }
{
    posting.filled && posting.wanted.is_some()
}

/// A sum of two counts.
fn sum_of(a: u64, b: u64) -> Result<u64, Memory>
    ensures { IfOk result (λ sum. sum ≡ a + b) }
{
    if b > u64::MAX - a {
        return Err(Memory);
    }
    Ok(a + b)
}

/// A count with a posting, if that is an assignment.
fn with_posting(count: u64, posting: &Posting) -> Result<u64, Memory>
    ensures { IfOk result (λ n. n ≡ count + assigned_among (posting.now ∷ [])) }
{
    let assigned = is_assigned(posting);
    if assigned {
        return sum_of(count, 1);
    }
    Ok(count)
}

/// How many of some postings are assignments.
fn among(postings: &[Posting]) -> Result<u64, Memory>
    ensures { IfOk result (λ n. n ≡ assigned_among postings.now) }
{
    let mut count = 0;
    for posting in postings {
        count = with_posting(count, posting)?;
    }
    Ok(count)
}

/// A count with those of a transaction.
pub(crate) fn with_txn(count: u64, txn: &Txn) -> Result<u64, Memory>
    ensures { IfOk result (λ n. n ≡ count + assigned_among txn.now.postings) }
{
    let more = among(txn.postings.as_slice())?;
    sum_of(count, more)
}

/// A count without those of a transaction.
pub(crate) fn without_txn(count: u64, txn: &Txn) -> Result<u64, Memory>
    ensures { IfOk result (λ n. n ≡ count - assigned_among txn.now.postings) }
{
    let fewer = among(txn.postings.as_slice())?;
    Ok(count.saturating_sub(fewer))
}

/// How many postings of some transactions are assignments.
pub(crate) fn assigned_in(txns: &[Txn]) -> Result<u64, Memory>
    ensures { IfOk result (λ n. n ≡ assigned_among (postings_of txns.now)) }
{
    let mut count = 0;
    for txn in txns {
        count = with_txn(count, txn)?;
    }
    Ok(count)
}
