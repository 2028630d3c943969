//! The walk of an edit of a text.
ghost use Rattle.std.specs.Prelude.{◌≡◌, ◌<◌, ◌≤◌, length, set};
ghost use Rattle.book.specs.Postings.{txns_of};
ghost use Rattle.book.specs.declared.item.Item.TheVariants as kinds;
ghost use Rattle.balancing.specs.Solves.{Solves};
ghost use Rattle.kept_books.specs.Keeping.{AreWalks, IsOf};
ghost use Rattle.kept_books.specs.Rewriting.{MayRewrite, edit_by, meant};
ghost use Rattle.kept_books.specs.Walking.{IsWalk};
ghost use Rattle.text_ends.specs.Going.{items_behind};
ghost use Rattle.walked_texts.specs.Making as spec;

use crate::opened::{ItemAt, Open};
use book::{Item, Placed, Txn, count_txns};
use hl_base::Steps;
use kept_books::{KeptBook, Rewriting, Walk, Walks, walk_rewritten};
use std::alloc::Global;
use std::sync::ledger::Ledger;
use text_ends::Grown;
use walked_edits::WalkFault;

/// The walk of an edit by what a walk asks of the book.
fn walked_by<L: Ledger>(
    alloc: Global,
    walks: &Walks,
    rewriting: &Rewriting,
    open: &mut Open,
    steps: &mut Steps<L>,
) -> Result<Walk, WalkFault>
    requires walks { AreWalks (txns_of open.old.items.items) open.old.book.items walks.now }
    requires solves { Solves (txns_of open.old.items.items) open.old.book.items }
    requires may { MayRewrite (txns_of open.old.items.items) (meant rewriting.now) }
    ensures answers { spec.Answers (edit_by (txns_of open.old.items.items) (meant rewriting.now))
        (IsWalk (txns_of open.old.items.items) open.old.book.items (meant rewriting.now)) result
        steps.old steps.new }
    ensures items { open.new.items.items ≡ open.old.items.items }
    ensures book { open.new.book.items ≡ open.old.book.items }
{
    walk_rewritten(
        alloc,
        walks,
        open.items.as_slice(),
        rewriting,
        &mut open.book,
        steps,
    )
}

/// The walk of items behind those of a text.
pub(crate) fn walk_behind<L: Ledger>(
    alloc: Global,
    kept: &KeptBook,
    grown: &Grown,
    open: &mut Open,
    steps: &mut Steps<L>,
) -> Result<Walk, WalkFault>
    requires kept { IsOf (txns_of open.old.items.items) open.old.book.items kept.now }
    requires solves { Solves (txns_of open.old.items.items) open.old.book.items }
    requires some { 0 < length (txns_of grown.now.items) }
    ensures answers { spec.Answers (spec.edit_behind open.old.items.items grown.now)
        (spec.IsWalkFor (items_behind open.old.items.items grown.now) open.old.book.items) result
        steps.old steps.new }
    ensures items { open.new.items.items ≡ open.old.items.items }
    ensures book { open.new.book.items ≡ open.old.book.items }
{
    let rewriting = Rewriting::Behind(grown.items.as_slice());
    walked_by(alloc, &kept.walks, &rewriting, open, steps)
}

/// The transaction that an item is.
fn txn_of(item: &Item) -> &Txn
    requires { spec.IsTxn item.now }
    ensures { item.now ≡ kinds.Txn result.now }
{
    match item.entry() {
        Some(txn) => txn,
        None => unreachable!(),
    }
}

/// The number of the transaction that an item is, among all of a text.
fn number_at(items: &[Placed], number: usize) -> usize
    requires { number ≤ length items.now }
    ensures { result ≡ spec.number_at items.now number }
{
    let (front, _) = items.split_at(number);
    count_txns(front)
}

/// The walk of an item in the place of one.
pub(crate) fn walk_at<L: Ledger>(
    alloc: Global,
    kept: &KeptBook,
    at: &ItemAt,
    open: &mut Open,
    steps: &mut Steps<L>,
) -> Result<Walk, WalkFault>
    requires kept { IsOf (txns_of open.old.items.items) open.old.book.items kept.now }
    requires solves { Solves (txns_of open.old.items.items) open.old.book.items }
    requires there { spec.IsTxnAt open.old.items.items at.now.number }
    requires txn { spec.IsTxn at.now.placed.now.item }
    ensures answers { spec.Answers
        (spec.edit_at open.old.items.items at.now.number at.now.placed.now)
        (spec.IsWalkFor (set open.old.items.items at.now.number at.now.placed.now)
        open.old.book.items) result steps.old steps.new }
    ensures items { open.new.items.items ≡ open.old.items.items }
    ensures book { open.new.book.items ≡ open.old.book.items }
{
    let number = number_at(open.items.as_slice(), at.number);
    let txn = txn_of(&at.placed.item);
    let rewriting = Rewriting::At { number, txn };
    walked_by(alloc, &kept.walks, &rewriting, open, steps)
}
