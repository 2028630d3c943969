//! Which transactions can be checked alone.
ghost use Rattle.std.specs.Prelude.{◌≡◌, ◌==◌, Some};
ghost use Rattle.std.specs.List.{list_all};
ghost use Rattle.book.specs.SumsBefore as names;
ghost use Rattle.entry_balance.specs.Entry as amounts;
ghost use Rattle.balancing.specs.Groups.{day_of};
ghost use Rattle.balancing.specs.Solves.{is_unmarked};
ghost use Rattle.placed_checks.specs.Unmixed as spec;

use book::{Amount, Assertion, Boxed, Posting, Txn, lies_below};
use hl_base::Text;

/// Whether nothing of some postings is marked as found, as it is where they were read.
pub fn are_unmarked(postings: &[Posting]) -> bool
    ensures { result ≡ list_all is_unmarked postings.now }
{
    postings.iter().all(is_unmarked)
}

fn is_unmarked(posting: &Posting) -> bool
    ensures { result ≡ is_unmarked posting.now }
{
    !posting.filled && !posting.costed
}

/// Whether a transaction that `check_one` answered isn't mixed: each of its postings is of its day; and where an
/// assertion or an assignment wants its symbol only, none of them, found ones too, posts another symbol to that account
/// or, where subaccounts count, to one below it.
pub fn is_unmixed(txn: &Txn) -> bool
    ensures { result ≡ spec.is_unmixed txn.now }
{
    are_single(txn, txn.postings.as_slice())
}

fn are_single(txn: &Txn, postings: &[Posting]) -> bool
    ensures { result ≡ list_all (spec.is_single txn.now) postings.now }
{
    postings.iter().all(|posting| is_single(txn, posting))
}

fn is_single(txn: &Txn, posting: &Posting) -> bool
    ensures { result ≡ spec.is_single txn.now posting.now }
{
    is_on_its_day(txn, posting)
        && are_alike(txn.postings.as_slice(), &posting.account, &posting.wanted)
}

/// Whether a posting of a transaction is of its day.
fn is_on_its_day(txn: &Txn, posting: &Posting) -> bool
    ensures { result ≡ (day_of txn.now posting.now == txn.now.day.0) }
{
    posting.day_in(txn).0 == txn.day.0
}

/// Whether what an account is asked for is of one symbol among some postings, if it has to be.
fn are_alike(postings: &[Posting], account: &Text, wanted: &Option<Boxed<Assertion>>) -> bool
    ensures { result ≡ spec.are_alike postings.now account.now wanted.now }
{
    match wanted {
        Some(wanted) => wants_alike(postings, account, wanted.get()),
        None => true,
    }
}

fn wants_alike(postings: &[Posting], account: &Text, wanted: &Assertion) -> bool
    ensures { result ≡ spec.are_alike postings.now account.now (Some wanted.now) }
{
    !wanted.only || all_alike(postings, account, wanted)
}

fn all_alike(postings: &[Posting], account: &Text, wanted: &Assertion) -> bool
    ensures { result ≡ list_all (spec.is_alike account.now wanted.now) postings.now }
{
    postings
        .iter()
        .all(|posting| is_alike(account, wanted, posting))
}

/// Whether a posting doesn't count for what an account is asked for, or has an amount of the wanted symbol.
fn is_alike(account: &Text, wanted: &Assertion, posting: &Posting) -> bool
    ensures { result ≡ spec.is_alike account.now wanted.now posting.now }
{
    !is_of(account, wanted.below, &posting.account) || is_in(&wanted.amount.symbol, &posting.amount)
}

/// Whether an amount is there and is of a symbol.
fn is_in(symbol: &Text, amount: &Option<Amount>) -> bool
    ensures { result ≡ amounts.is_of symbol.now amount.now }
{
    match amount {
        Some(amount) => amount.symbol.as_bytes() == symbol.as_bytes(),
        None => false,
    }
}

/// Whether a name is that of an account or, with `below`, of one of its subaccounts.
fn is_of(account: &Text, below: bool, name: &Text) -> bool
    ensures { result ≡ names.is_of account.now below name.now }
{
    name.as_bytes() == account.as_bytes()
        || (below && lies_below(account.as_bytes(), name.as_bytes()))
}
