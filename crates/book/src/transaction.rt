//! Transactions and their postings.
ghost use Rattle.std.specs.Prelude.{◌≡◌, unwrap_or};
ghost use Rattle.book.specs.Postings.{plain_posting};

use crate::amount::{Amount, Assertion, Cost};
use crate::boxed::Boxed;
use hl_base::{List, Text};
use hl_time::Day;
use std::alloc::Global;

/// Whether a posting is real, or virtual: in brackets and balanced, or in parentheses and free.
#[derive(Clone, Copy, Debug, PartialEq, Eq)]
pub enum Side {
    Real,
    Balanced,
    Free,
}

/// Whether a transaction or a posting is marked as pending (`!`) or cleared (`*`).
#[derive(Clone, Copy, Debug, PartialEq, Eq)]
pub enum Mark {
    Unmarked,
    Pending,
    Cleared,
}

/// A word in a comment that is followed by a colon, and its value.
#[derive(Debug, Drop)]
pub struct Tag {
    pub name: Text,
    pub value: Text,
}

/// One movement of a transaction on an account. `filled` says that balancing found the amount, and `costed`
/// that it found the cost. `day` is there where the posting has a day of its own. The largest fields stand first, so that
/// there are no gaps between them.
#[derive(Debug, Drop)]
pub struct Posting {
    pub amount: Option<Amount>,
    pub account: Text,
    pub comment: Text,
    pub tags: List<Tag>,
    pub cost: Option<Boxed<Cost>>,
    pub wanted: Option<Boxed<Assertion>>,
    pub line: u64,
    pub day: Option<Day>,
    pub mark: Mark,
    pub side: Side,
    pub filled: bool,
    pub costed: bool,
}

impl Posting {
    /// A posting of an account that says nothing else, which takes no memory.
    pub fn plain(alloc: Global, line: u64, side: Side, account: Text) -> Posting
        ensures { result ≡ plain_posting line side account }
    {
        Posting {
            line,
            mark: Mark::Unmarked,
            side,
            account,
            amount: None,
            cost: None,
            wanted: None,
            filled: false,
            costed: false,
            comment: Text::new(alloc),
            tags: List::new(alloc),
            day: None,
        }
    }

    /// The posting's own day, else that of its transaction.
    pub fn day_in(&self, txn: &Txn) -> Day
        ensures { result ≡ unwrap_or self.now.day txn.now.day }
    {
        match self.day {
            Some(day) => day,
            None => txn.day,
        }
    }
}

/// An entry of a journal: a day, what it was, and its postings. `line` is that of its head.
#[derive(Debug, Drop)]
pub struct Txn {
    pub line: u64,
    pub day: Day,
    pub mark: Mark,
    pub code: Text,
    pub description: Text,
    pub comment: Text,
    pub tags: List<Tag>,
    pub postings: List<Posting>,
}
