//! What a walk of an edit makes of a text's items and its book.
ghost use Rattle.std.specs.Prelude.{◌≡◌, ◌<◌, ◌++◌, IfOk, IfSome, List, Some, length, set, slice_get};
ghost use Rattle.std.specs.List.{AllByRecursion};
ghost use Rattle.book.specs.Postings.{postings_of, txns_of};
ghost use Rattle.book.specs.declared.item.Placed.{Placed as Stood};
ghost use Rattle.book.specs.declared.transaction.Txn.{Txn as Entry};
ghost use Rattle.balancing.specs.Solves.{Solves};
ghost use Rattle.entry_balance.specs.Entry.{moved};
ghost use Rattle.kept_turnover.specs.Keeping.{IsTurnover};
ghost use Rattle.walked_edits.specs.Forms.{IsInside, put_forms};
ghost use Rattle.index_cells.specs.Books.{KeepsBook};
ghost use Rattle.kept_books.specs.Keeping.{IsOf};
ghost use Rattle.text_ends.specs.Going.{items_behind};
ghost use Rattle.kept_texts.specs.Keeping.{Has, IsWith};
ghost use Rattle.additions.specs.Kept.{IsBookEnd};
ghost use Rattle.walked_texts.specs.Making as spec;

use crate::exchanging::with_forms;
use crate::opened::{ItemAt, Open};
use crate::putting::swap_in;
use crate::vacating::vacants_for;
use crate::walking::{walk_at, walk_behind};
use additions::BookEnd;
use book::{Placed, Txn};
use hl_base::{Memory, Steps};
use index_cells::Kept;
use kept_books::{KeptBook, Walk, Walks, sums_walked};
use kept_texts::{Edited, KeptText};
use std::alloc::Global;
use std::sync::ledger::Ledger;
use text_ends::Grown;
use walked_edits::{Replaced, WalkFault};

/// What a walk of an edit makes of the book of a text, of which nothing is changed before it is put in: the forms of all
/// transactions that the edit reaches; those that hold places behind the book, one for each transaction that the text has more;
/// and what is kept of the new text's items and of its book, all but the text's end.
#[derive(Drop)]
pub struct Parts {
    pub forms: Vec<Replaced>,
    pub vacants: Vec<Txn>,
    pub edited: Edited,
    pub end: BookEnd,
    pub kept: KeptBook,
}

/// What a walk told, with what an edit makes of the text, as parts of the new text's book.
fn parts_with(
    alloc: Global,
    book: &[Txn],
    sums: &Option<Kept>,
    vacants: Vec<Txn>,
    edited: Edited,
    walk: Walk,
) -> Result<Parts, Memory>
    requires { spec.CanPut book.now vacants.items sums.now walk }
    ensures { IfOk result (λ p. (items : List Stood) →
        spec.CanMake items book.now vacants.items edited walk → spec.AreParts items book.now p) }
{
    let Walk { forms, walks } = walk;
    let whole = with_forms(alloc, edited, book, vacants.as_slice(), forms.as_slice())?;
    let end = end_with(&whole, &walks)?;
    let sums = sums_walked(alloc, sums, book, vacants.as_slice(), forms.as_slice())?;
    Ok(Parts {
        forms,
        vacants,
        edited: whole,
        end,
        kept: KeptBook { walks, sums },
    })
}

/// What is kept of the end of a book, by the days on which it asks and by what it moves.
fn end_with(edited: &Edited, walks: &Walks) -> Result<BookEnd, Memory>
    ensures { IfOk result (λ end. (items : List Stood) (book : List Entry) →
        IsWith items book edited.now → IsTurnover walks.now.kept.turnover (moved (postings_of book))
        → IsBookEnd book end) }
{
    let turnover = walks.kept.turnover.copied()?;
    let asked = edited.asked.last();
    let assigned = edited.asked.has_assigned();
    Ok(BookEnd {
        asked: asked.0,
        assigned,
        turnover,
    })
}

/// The parts of a walk of items behind those of a text.
fn parts_added(
    alloc: Global,
    text: &KeptText,
    sums: &Option<Kept>,
    grown: &Grown,
    open: &Open,
    walk: Walk,
) -> Result<Parts, Memory>
    requires text { Has open.now.items.items open.now.book.items text.now }
    requires sums { IfSome sums.now (KeepsBook open.now.book.items) }
    requires size { length open.now.book.items ≡ length (txns_of open.now.items.items) }
    requires walk { spec.IsWalkFor
        (items_behind open.now.items.items grown.now) open.now.book.items walk }
    ensures { IfOk result
        (spec.AreParts (items_behind open.now.items.items grown.now) open.now.book.items) }
{
    let vacants = vacants_for(alloc, grown.items.as_slice())?;
    let edited = text.with_added(alloc, grown, vacants.as_slice())?;
    parts_with(alloc, open.book.as_slice(), sums, vacants, edited, walk)
}

/// The item under a number.
fn item_at(items: &[Placed], number: usize) -> &Placed
    requires { number < length items.now }
    ensures { slice_get items.now number ≡ Some result.now }
{
    &items[number]
}

/// The parts of a walk of an item in the place of one.
fn parts_changed(
    alloc: Global,
    text: &KeptText,
    sums: &Option<Kept>,
    at: &ItemAt,
    open: &Open,
    walk: Walk,
) -> Result<Parts, Memory>
    requires text { Has open.now.items.items open.now.book.items text.now }
    requires sums { IfSome sums.now (KeepsBook open.now.book.items) }
    requires size { length open.now.book.items ≡ length (txns_of open.now.items.items) }
    requires there { spec.IsTxnAt open.now.items.items at.now.number }
    requires txn { spec.IsTxn at.now.placed.now.item }
    requires walk { spec.IsWalkFor
        (set open.now.items.items at.now.number at.now.placed.now) open.now.book.items walk }
    ensures { IfOk result (spec.AreParts
        (set open.now.items.items at.now.number at.now.placed.now) open.now.book.items) }
{
    let number = at.number;
    let old = item_at(open.items.as_slice(), number);
    let edited = text.with_changed(alloc, number as u64, &old.item, &at.placed.item)?;
    let vacants = Vec::new(alloc);
    parts_with(alloc, open.book.as_slice(), sums, vacants, edited, walk)
}

/// What a walk makes of bytes behind a text that come to items there, of which one at least is a transaction. The items and
/// the book are as they were afterwards. `Load` says that the whole text has to be loaded, and that load answers. It comes
/// only where no set of transactions is closed under what its members hand on and has none that is mixed in a book of the new
/// text.
pub fn parts_behind<L: Ledger>(
    alloc: Global,
    kept: &KeptBook,
    text: &KeptText,
    grown: &Grown,
    open: &mut Open,
    steps: &mut Steps<L>,
) -> Result<Parts, WalkFault>
    requires kept { IsOf (txns_of open.old.items.items) open.old.book.items kept.now }
    requires text { Has open.old.items.items open.old.book.items text.now }
    requires solves { Solves (txns_of open.old.items.items) open.old.book.items }
    requires some { 0 < length (txns_of grown.now.items) }
    ensures answers { spec.Answers (spec.edit_behind open.old.items.items grown.now)
        (spec.AreParts (items_behind open.old.items.items grown.now) open.old.book.items) result
        steps.old steps.new }
    ensures items { open.new.items.items ≡ open.old.items.items }
    ensures book { open.new.book.items ≡ open.old.book.items }
{
    let walk = walk_behind(alloc, kept, grown, open, steps)?;
    let parts = parts_added(alloc, text, &kept.sums, grown, open, walk)?;
    Ok(parts)
}

/// What a walk makes of an item in the place of one, where both are transactions. The items behind it keep their lines here.
/// The items and the book are as they were afterwards. `Load` says that the whole text has to be loaded, and that load answers.
/// It comes only where no set of transactions is closed under what its members hand on and has none that is mixed in a book of
/// the new text, or where the old transaction is dated.
pub fn parts_at<L: Ledger>(
    alloc: Global,
    kept: &KeptBook,
    text: &KeptText,
    at: &ItemAt,
    open: &mut Open,
    steps: &mut Steps<L>,
) -> Result<Parts, WalkFault>
    requires kept { IsOf (txns_of open.old.items.items) open.old.book.items kept.now }
    requires text { Has open.old.items.items open.old.book.items text.now }
    requires solves { Solves (txns_of open.old.items.items) open.old.book.items }
    requires there { spec.IsTxnAt open.old.items.items at.now.number }
    requires txn { spec.IsTxn at.now.placed.now.item }
    ensures answers { spec.Answers
        (spec.edit_at open.old.items.items at.now.number at.now.placed.now)
        (spec.AreParts (set open.old.items.items at.now.number at.now.placed.now)
        open.old.book.items) result steps.old steps.new }
    ensures items { open.new.items.items ≡ open.old.items.items }
    ensures book { open.new.book.items ≡ open.old.book.items }
{
    let walk = walk_at(alloc, kept, at, open, steps)?;
    let parts = parts_changed(alloc, text, &kept.sums, at, open, walk)?;
    Ok(parts)
}

/// Puts forms into a book, each in the place of what it has there.
pub fn put_all(book: &mut Vec<Txn>, forms: Vec<Replaced>)
    requires { AllByRecursion (IsInside book.old.items) forms.items }
    ensures { book.new.items ≡ put_forms book.old.items forms.items }
{
    let mut rest = forms;
    swap_in(book, &mut rest);
}
