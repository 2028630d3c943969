//! Sums over the transactions of one day.
ghost use Rattle.std.specs.Prelude.{◌≡◌, ◌≤◌, ℕ, pos, ◌+ℤ◌, List, Some, max, slice_get, true, if◌then◌else◌};
ghost use Rattle.hl_num.specs.Decimal.{add_fits, units_of};
ghost use Rattle.book.specs.Bounds.{TurnoverFits, places_in, turnover};
ghost use Rattle.book.specs.Postings.{postings_of};
ghost use Rattle.book.specs.Sums.{share, sum_of};
ghost use Rattle.placed_sums.specs.Days.{numbers_in};
ghost use Rattle.placed_sums.specs.Own.{IsSumIn, is_posted, own_at, own_postings, own_under};

use crate::accounts::{is_of, is_same_text};
use crate::by_number::ByNumber;
use crate::on_day::OnDay;
use book::{Amount, Posting, Txn};
use hl_base::Text;
use hl_num::Dec;
use hl_time::Day;

/// The plain sum of an account in a symbol over the postings on a day of some transactions of a
/// book, which together move no more than the book does.
pub(crate) fn day_sum<B: ByNumber>(
    book: &B,
    places: &[OnDay],
    account: &Text,
    symbol: &Text,
    below: bool,
    day: Day,
) -> Dec
    requires fits { TurnoverFits (postings_of (B.txns book.now)) }
    requires part { turnover symbol.now
        (own_under (B.txns book.now) account.now below day.0 (numbers_in places.now))
        ≤ turnover symbol.now (postings_of (B.txns book.now)) }
    ensures { IsSumIn (postings_of (B.txns book.now)) symbol.now (sum_of symbol.now
        (own_under (B.txns book.now) account.now below day.0 (numbers_in places.now))) result }
{
    let mut sum = Dec::zero();
    for place in places {
        let part = number_sum(book, place.number, account, symbol, below, day);
        sum = sum_of(sum, part);
    }
    sum
}

/// The same over one transaction, if the book has it.
fn number_sum<B: ByNumber>(
    book: &B,
    number: usize,
    account: &Text,
    symbol: &Text,
    below: bool,
    day: Day,
) -> Dec
    requires { TurnoverFits (postings_of (B.txns book.now)) }
    ensures { IsSumIn (postings_of (B.txns book.now)) symbol.now (sum_of symbol.now
        (own_at account.now below day.0 (slice_get (B.txns book.now) number))) result }
{
    match book.txn(number) {
        Some(txn) => txn_sum(txn, account, symbol, below, day),
        None => Dec::zero(),
    }
}

/// The same over one transaction.
fn txn_sum(txn: &Txn, account: &Text, symbol: &Text, below: bool, day: Day) -> Dec
    requires { TurnoverFits txn.now.postings }
    ensures { IsSumIn txn.now.postings symbol.now
        (sum_of symbol.now (own_postings account.now below day.0 txn.now)) result }
{
    let mut sum = Dec::zero();
    for posting in txn.postings.as_slice() {
        let part = posting_sum(txn, posting, account, symbol, below, day);
        sum = sum_of(sum, part);
    }
    sum
}

/// What a posting of a transaction counts for.
fn posting_sum(
    txn: &Txn,
    posting: &Posting,
    account: &Text,
    symbol: &Text,
    below: bool,
    day: Day,
) -> Dec
    ensures value { units_of result
        ≡ (if is_posted account.now below day.0 txn.now posting.now
        then share symbol.now posting.now.amount else pos 0) }
    ensures places { result.places ≤ places_in symbol.now posting.now.amount }
{
    if is_posted(txn, posting, account, below, day) {
        amount_sum(&posting.amount, symbol)
    } else {
        Dec::zero()
    }
}

/// Whether a posting of a transaction is on a day and on an account or, with `below`, on one of its
/// subaccounts.
fn is_posted(txn: &Txn, posting: &Posting, account: &Text, below: bool, day: Day) -> bool
    ensures { result ≡ is_posted account.now below day.0 txn.now posting.now }
{
    posting.day_in(txn).0 == day.0 && is_of(account, below, &posting.account)
}

/// What an amount counts for in a symbol.
pub fn amount_sum(amount: &Option<Amount>, symbol: &Text) -> Dec
    ensures value { units_of result ≡ share symbol.now amount.now }
    ensures places { result.places ≤ places_in symbol.now amount.now }
{
    match amount {
        Some(amount) => symbol_sum(amount, symbol),
        None => Dec::zero(),
    }
}

fn symbol_sum(amount: &Amount, symbol: &Text) -> Dec
    ensures value { units_of result ≡ share symbol.now (Some amount.now) }
    ensures places { result.places ≤ places_in symbol.now (Some amount.now) }
{
    if is_same_text(&amount.symbol, symbol) {
        amount.value
    } else {
        Dec::zero()
    }
}

/// The sum of two numbers, which is in range.
pub(crate) fn sum_of(a: Dec, b: Dec) -> Dec
    requires { a.places ≤ 36 → b.places ≤ 36 → add_fits a b ≡ true }
    ensures value { units_of result ≡ units_of a +ℤ units_of b }
    ensures places { result.places ≡ max a.places b.places }
{
    let _places = (a.places, b.places);
    a.add(b).unwrap()
}
