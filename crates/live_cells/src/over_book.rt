//! Sums over the postings of a book before a day.
ghost use Rattle.std.specs.Prelude.{◌≡◌, ◌≤◌, pos, ◌+ℤ◌, max, true, if◌then◌else◌};
ghost use Rattle.std.specs.Str.{bytes_eq};
ghost use Rattle.hl_num.specs.Decimal.{add_fits, units_of};
ghost use Rattle.book.specs.Bounds.{TurnoverFits, places_in};
ghost use Rattle.book.specs.Postings.{postings_of};
ghost use Rattle.book.specs.Sums.{share, sum_of};
ghost use Rattle.book.specs.SumsBefore as names;
ghost use Rattle.placed_sums.specs.Own.{IsSumIn};
ghost use Rattle.live_cells.specs.Earlier.{earlier_in, earlier_of, is_earlier};

use book::{Posting, Txn, lies_below};
use hl_base::Text;
use hl_num::Dec;
use hl_time::Day;
use placed_sums::amount_sum;

/// The plain sum of an account in a symbol over the postings of a book before a day; with `below` those of its subaccounts
/// count too.
pub(crate) fn sum_over(book: &[Txn], account: &Text, symbol: &Text, end: Day, below: bool) -> Dec
    requires { TurnoverFits (postings_of book.now) }
    ensures { IsSumIn (postings_of book.now) symbol.now
        (sum_of symbol.now (earlier_of account.now below end.0 book.now)) result }
{
    let mut sum = Dec::zero();
    for txn in book {
        let part = txn_sum(txn, account, symbol, end, below);
        sum = sum_of(sum, part);
    }
    sum
}

/// The same over one transaction.
fn txn_sum(txn: &Txn, account: &Text, symbol: &Text, end: Day, below: bool) -> Dec
    requires { TurnoverFits txn.now.postings }
    ensures { IsSumIn txn.now.postings symbol.now
        (sum_of symbol.now (earlier_in account.now below end.0 txn.now)) result }
{
    let mut sum = Dec::zero();
    for posting in txn.postings.as_slice() {
        let part = posting_sum(txn, posting, account, symbol, end, below);
        sum = sum_of(sum, part);
    }
    sum
}

/// What a posting of a transaction counts for.
fn posting_sum(
    txn: &Txn,
    posting: &Posting,
    account: &Text,
    symbol: &Text,
    end: Day,
    below: bool,
) -> Dec
    ensures value { units_of result
        ≡ (if is_earlier account.now below end.0 txn.now posting.now
        then share symbol.now posting.now.amount else pos 0) }
    ensures places { result.places ≤ places_in symbol.now posting.now.amount }
{
    if is_earlier(txn, posting, account, end, below) {
        amount_sum(&posting.amount, symbol)
    } else {
        Dec::zero()
    }
}

/// Whether a posting of a transaction is before a day and on an account or, with `below`, on one of its subaccounts.
fn is_earlier(txn: &Txn, posting: &Posting, account: &Text, end: Day, below: bool) -> bool
    ensures { result ≡ is_earlier account.now below end.0 txn.now posting.now }
{
    posting.day_in(txn).0 < end.0 && is_of(account, below, &posting.account)
}

fn is_same_text(a: &Text, b: &Text) -> bool
    ensures { result ≡ bytes_eq a.now b.now }
{
    a.as_bytes() == b.as_bytes()
}

/// Whether a name is that of an account or, with `below`, of one of its subaccounts.
fn is_of(account: &Text, below: bool, name: &Text) -> bool
    ensures { result ≡ names.is_of account.now below name.now }
{
    name.as_bytes() == account.as_bytes()
        || (below && lies_below(account.as_bytes(), name.as_bytes()))
}

/// The sum of two numbers, which is in range.
fn sum_of(a: Dec, b: Dec) -> Dec
    requires { a.places ≤ 36 → b.places ≤ 36 → add_fits a b ≡ true }
    ensures value { units_of result ≡ units_of a +ℤ units_of b }
    ensures places { result.places ≡ max a.places b.places }
{
    let _places = (a.places, b.places);
    a.add(b).unwrap()
}
