//! Symbols of forms.
ghost use Rattle.std.specs.Prelude.{◌≡◌, Some};
ghost use Rattle.std.specs.List.{list_all, list_any};
ghost use Rattle.std.specs.Str.{bytes_eq};
ghost use Rattle.book.specs.Sums.{is_nonzero};
ghost use Rattle.hl_num.specs.Decimal.{units_of};
ghost use Rattle.walked_edits.specs.Symbols as spec;

use book::{Amount, Posting, Txn};
use hl_base::Text;
use hl_num::Dec;

/// Whether each symbol of a transaction's amounts is among some symbols, but for amounts of zero.
pub fn are_known(symbols: &[Text], txn: &Txn) -> bool
    ensures { result ≡ spec.are_known symbols.now txn.now.postings }
{
    all_known(symbols, txn.postings.as_slice())
}

fn all_known(symbols: &[Text], postings: &[Posting]) -> bool
    ensures { result ≡ spec.are_known symbols.now postings.now }
{
    postings
        .iter()
        .all(|posting| is_known(symbols, &posting.amount))
}

fn is_known(symbols: &[Text], amount: &Option<Amount>) -> bool
    ensures { result ≡ spec.is_known symbols.now amount.now }
{
    match amount {
        Some(amount) => is_passed(symbols, amount),
        None => true,
    }
}

fn is_passed(symbols: &[Text], amount: &Amount) -> bool
    ensures { result ≡ spec.is_known symbols.now (Some amount.now) }
{
    if is_nonzero(amount.value) {
        is_among(symbols, &amount.symbol)
    } else {
        true
    }
}

fn is_nonzero(value: Dec) -> bool
    ensures { result ≡ is_nonzero (units_of value) }
{
    !value.is_zero()
}

fn is_among(symbols: &[Text], symbol: &Text) -> bool
    ensures { result ≡ list_any (λ other. bytes_eq other symbol.now) symbols.now }
{
    symbols.iter().any(|other| is_same(other, symbol))
}

fn is_same(a: &Text, b: &Text) -> bool
    ensures { result ≡ bytes_eq a.now b.now }
{
    a.as_bytes() == b.as_bytes()
}
