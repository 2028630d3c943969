//! What the pieces of a text say, and the book that they make.
ghost use Rattle.std.specs.Prelude.{◌≡◌, ◌≤◌, length};
ghost use Rattle.std.specs.Option.{option_copied, option_to_list};
ghost use Rattle.book.specs.Postings.{txn_in, txns_of};

use crate::directive::{Directive, Price};
use crate::rules::{AutoRule, PeriodicRule};
use crate::transaction::Txn;
use hl_base::{List, Piece};

/// What a piece of a text says. A gap and a block of comments say nothing.
#[derive(Debug, Drop)]
pub enum Item {
    Gap,
    Block,
    Txn(Txn),
    Auto(AutoRule),
    Periodic(PeriodicRule),
    Price(Price),
    Directive(Directive),
}

impl Item {
    /// The transaction that an item is, if it is one.
    pub fn entry(&self) -> Option<&Txn>
        ensures { option_to_list (option_copied result) ≡ txn_in self.now }
    {
        match self {
            Item::Txn(txn) => Some(txn),
            Item::Gap => None,
            Item::Block => None,
            Item::Auto(_) => None,
            Item::Periodic(_) => None,
            Item::Price(_) => None,
            Item::Directive(_) => None,
        }
    }
}

/// An item at its place in the text.
#[derive(Debug, Drop)]
pub struct Placed {
    pub piece: Piece,
    pub item: Item,
}

/// The items of a text, in its order.
pub type Items = List<Placed>;

/// The transactions of a text, in its order, each balanced and each posting with its amount.
#[derive(Debug, Drop)]
pub struct Book {
    pub txns: List<Txn>,
}

/// How many transactions an item is: one or none.
fn count_in(item: &Item) -> usize
    ensures count { result ≡ length (txn_in item.now) }
    ensures few { result ≤ 1 }
{
    match item {
        Item::Txn(_) => 1,
        Item::Gap => 0,
        Item::Block => 0,
        Item::Auto(_) => 0,
        Item::Periodic(_) => 0,
        Item::Price(_) => 0,
        Item::Directive(_) => 0,
    }
}

/// How many of some items are transactions.
pub fn count_txns(items: &[Placed]) -> usize
    ensures count { result ≡ length (txns_of items.now) }
    ensures few { result ≤ length items.now }
{
    let mut count = 0;
    for placed in items {
        count += count_in(&placed.item);
    }
    count
}
