//! What is kept of a book.
ghost use Rattle.std.specs.Prelude.{◌≡◌, ◌++◌, IfOk, List, length};
ghost use Rattle.book.specs.Bounds.{TurnoverFits};
ghost use Rattle.book.specs.Postings.{postings_of, txns_of};
ghost use Rattle.book.specs.declared.transaction.Txn.{Txn as Entry};
ghost use Rattle.balancing.specs.Solves.{Solves};
ghost use Rattle.kept_books.specs.Keeping.{IsOf};

use crate::behind::walks_behind;
use crate::sums::{kept_or_made, sums_after};
use crate::walks::{Walks, walks_of};
use book::{Placed, Txn};
use hl_base::Memory;
use index_cells::Kept;
use std::alloc::Global;
use std::mem::replace;

/// What is kept of the book of a text beside its transactions: what a walk of an edit asks, and the sums of plain reports, once
/// one was asked for. Without these a report walks over the book.
#[derive(Drop)]
pub struct KeptBook {
    pub walks: Walks,
    pub sums: Option<Kept>,
}

impl KeptBook {
    /// What is kept of the book of some items. Its sums come when a report asks for them.
    pub fn of(alloc: Global, items: &[Placed], txns: &[Txn]) -> Result<KeptBook, Memory>
        requires { Solves (txns_of items.now) txns.now }
        ensures { IfOk result (IsOf (txns_of items.now) txns.now) }
    {
        let walks = walks_of(alloc, items, txns)?;
        Ok(KeptBook { walks, sums: None })
    }

    /// What is kept of the book with transactions behind it, which are written in some items and solved so.
    pub fn behind(
        &self,
        alloc: Global,
        items: &[Placed],
        book: &[Txn],
        more: &[Placed],
        txns: &[Txn],
    ) -> Result<KeptBook, Memory>
        requires kept { IsOf (txns_of items.now) book.now self.now }
        requires size { length (txns_of items.now) ≡ length book.now }
        requires solves { Solves (txns_of items.now ++ txns_of more.now) (book.now ++ txns.now) }
        requires fits { TurnoverFits (postings_of (book.now ++ txns.now)) }
        ensures { IfOk result
            (IsOf (txns_of items.now ++ txns_of more.now) (book.now ++ txns.now)) }
    {
        let walks = walks_behind(alloc, items, &self.walks, book, more, txns)?;
        let sums = sums_after(alloc, &self.sums, book, txns)?;
        Ok(KeptBook { walks, sums })
    }

    /// Keeps the sums of the book for plain reports, if none are kept yet. Where there is no memory for them none are kept.
    pub fn keep_sums(&mut self, alloc: Global, book: &[Txn])
        requires { TurnoverFits (postings_of book.now) }
        ensures { (written : List Entry) → IsOf written book.now self.old
            → IsOf written book.now self.new }
    {
        let sums = replace(&mut self.sums, None);
        self.sums = kept_or_made(alloc, book, sums);
    }
}
