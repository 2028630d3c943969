//! Whether transactions ask for no balance, and count for none that a book asks for.
ghost use Rattle.std.specs.Prelude.{◌≡◌};
ghost use Rattle.std.specs.List.{list_all};
ghost use Rattle.book.specs.Postings.{txn_in, txns_of};
ghost use Rattle.additions.specs.Coming as spec;

use crate::asking::day_of;
use book::{Item, Placed, Posting, Txn};

/// Whether a posting asks for no balance, and is of a day not before the last one on which the book asks.
fn is_quiet_posting(asked: u32, txn: &Txn, posting: &Posting) -> bool
    ensures { result ≡ spec.is_quiet_posting asked txn.now posting.now }
{
    posting.wanted.is_none() && !(day_of(txn, posting) < asked)
}

/// The same of each of some postings of a transaction.
fn each_quiet(asked: u32, txn: &Txn, postings: &[Posting]) -> bool
    ensures { result ≡ list_all (spec.is_quiet_posting asked txn.now) postings.now }
{
    postings
        .iter()
        .all(|posting| is_quiet_posting(asked, txn, posting))
}

/// The same of each posting of a transaction.
fn is_quiet(asked: u32, txn: &Txn) -> bool
    ensures { result ≡ spec.is_quiet asked txn.now }
{
    each_quiet(asked, txn, txn.postings.as_slice())
}

/// The same of the transaction that an item is, if it is one.
fn item_quiet(asked: u32, item: &Item) -> bool
    ensures { result ≡ spec.are_quiet asked (txn_in item.now) }
{
    match item {
        Item::Txn(txn) => is_quiet(asked, txn),
        Item::Gap => true,
        Item::Block => true,
        Item::Auto(_) => true,
        Item::Periodic(_) => true,
        Item::Price(_) => true,
        Item::Directive(_) => true,
    }
}

/// The same of the transactions of each of some items.
fn each_item_quiet(asked: u32, items: &[Placed]) -> bool
    ensures { result ≡ list_all (λ p. spec.are_quiet asked (txn_in p.item)) items.now }
{
    items.iter().all(|placed| item_quiet(asked, &placed.item))
}

/// Whether the transactions of some items ask for nothing, and count for nothing that the book asks for.
pub(crate) fn are_quiet(asked: u32, items: &[Placed]) -> bool
    ensures { result ≡ spec.are_quiet asked (txns_of items.now) }
{
    each_item_quiet(asked, items)
}
