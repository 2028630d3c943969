//! What bytes behind a text make of all that is made of it.
ghost use Rattle.std.specs.Prelude.{◌≡◌, ◌++◌, ◌<◌, IfOk, length};
ghost use Rattle.book.specs.Bounds.{TurnoverFits};
ghost use Rattle.book.specs.Postings.{postings_of, txns_of};
ghost use Rattle.balancing.specs.Solves.{Solves};
ghost use Rattle.additions.specs.Meaning.{AddsOn};
ghost use Rattle.kept_books.specs.Keeping.{IsOf};
ghost use Rattle.kept_texts.specs.Keeping.{Has};
ghost use Rattle.text_ends.specs.Going.{items_behind};
ghost use Rattle.walked_texts.specs.Making.{Answers, AreParts, edit_behind};
ghost use Rattle.loaded_texts.specs.Growing.{IsGrown};
ghost use Rattle.loaded_texts.specs.Keeping.{IsLoaded};
ghost use Rattle.loaded_texts.specs.Standing.{MakesBook};
ghost use Rattle.loaded_texts.specs.Ways.{AddsTo, HasRoom};

use crate::loaded::{Loaded, given_back, taken};
use crate::room::Room;
use additions::Plain;
use book::{Boxed, Placed, Txn};
use hl_base::{Memory, Steps};
use kept_books::KeptBook;
use std::alloc::Global;
use std::sync::ledger::Ledger;
use text_ends::Grown;
use walked_edits::WalkFault;
use walked_texts::{Parts, parts_behind};

/// A text, with the year that it begins in if it has one, and the bytes that are put behind it.
#[derive(Clone, Copy, Debug)]
pub struct Behind<'a> {
    pub year: Option<u16>,
    pub text: &'a [u8],
    pub bytes: &'a [u8],
}

/// What bytes behind a text make: what they come to there, and what is made of the book; with room for all items and all
/// transactions, so that putting it in takes no memory. Transactions that leave all others as they are stand in the parts as they
/// are solved, with no forms.
#[derive(Drop)]
pub struct Addition {
    pub grown: Grown,
    pub parts: Parts,
    pub item_room: Room<Placed>,
    pub txn_room: Room<Txn>,
}

/// What was read and what is made of the book, with room for both.
fn with_room(
    alloc: Global,
    loaded: &Loaded,
    grown: Grown,
    parts: Parts,
) -> Result<Boxed<Addition>, Memory>
    ensures grown { IfOk result (λ a. a.grown ≡ grown) }
    ensures parts { IfOk result (λ a. a.parts ≡ parts) }
    ensures room { IfOk result (HasRoom loaded.now.items loaded.now.book.txns) }
{
    let item_room = Room::of(alloc, loaded.items.len(), grown.items.len())?;
    let txn_room = Room::of(alloc, loaded.book.txns.len(), parts.vacants.len())?;
    let addition = Addition {
        grown,
        parts,
        item_room,
        txn_room,
    };
    let boxed = Boxed::new(alloc, addition)?;
    Ok(boxed)
}

/// What is kept of the book with transactions behind it that leave all others as they are.
fn kept_behind(
    alloc: Global,
    loaded: &Loaded,
    grown: &Grown,
    txns: &[Txn],
) -> Result<KeptBook, Memory>
    requires kept { IsOf (txns_of loaded.now.items) loaded.now.book.txns loaded.now.kept }
    requires solves { Solves (txns_of loaded.now.items) loaded.now.book.txns }
    requires whole { Solves (txns_of loaded.now.items ++ txns_of grown.now.items)
        (loaded.now.book.txns ++ txns.now) }
    requires fits { TurnoverFits (postings_of (loaded.now.book.txns ++ txns.now)) }
    ensures { IfOk result (IsOf (txns_of loaded.now.items ++ txns_of grown.now.items)
        (loaded.now.book.txns ++ txns.now)) }
{
    loaded.kept.behind(
        alloc,
        loaded.items.as_slice(),
        loaded.book.txns.as_slice(),
        grown.items.as_slice(),
        txns,
    )
}

/// Transactions that leave all others of a book as they are, as parts of the new book.
fn plain_parts(alloc: Global, loaded: &Loaded, grown: &Grown, plain: Plain) -> Result<Parts, Memory>
    requires text { Has loaded.now.items loaded.now.book.txns loaded.now.text }
    requires kept { IsOf (txns_of loaded.now.items) loaded.now.book.txns loaded.now.kept }
    requires solves { Solves (txns_of loaded.now.items) loaded.now.book.txns }
    requires written { txns_of (items_behind loaded.now.items grown.now)
        ≡ txns_of loaded.now.items ++ txns_of grown.now.items }
    requires whole { Solves (txns_of loaded.now.items ++ txns_of grown.now.items)
        (loaded.now.book.txns ++ plain.txns) }
    requires adds { AddsOn loaded.now.items loaded.now.book.txns grown.now plain }
    ensures { IfOk result
        (MakesBook (items_behind loaded.now.items grown.now) loaded.now.book.txns) }
{
    let Plain { txns, end } = plain;
    let edited = loaded.text.with_added(alloc, grown, txns.as_slice())?;
    let kept = kept_behind(alloc, loaded, grown, txns.as_slice())?;
    Ok(Parts {
        forms: Vec::new(alloc),
        vacants: txns.into_vec(),
        edited,
        end,
        kept,
    })
}

/// What bytes make whose transactions leave all others of the book as they are.
pub fn plain_addition(
    alloc: Global,
    loaded: &Loaded,
    behind: &Behind,
    grown: Grown,
    plain: Plain,
) -> Result<Boxed<Addition>, Memory>
    requires loaded { IsLoaded behind.now.year behind.now.text.now loaded.now }
    requires grown { IsGrown behind.now.year behind.now.text.now behind.now.bytes.now
        loaded.now.items grown }
    requires adds { AddsOn loaded.now.items loaded.now.book.txns grown plain }
    ensures { IfOk result (AddsTo behind.now.year behind.now.text.now behind.now.bytes.now) }
{
    let parts = plain_parts(alloc, loaded, &grown, plain)?;
    with_room(alloc, loaded, grown, parts)
}

/// What a walk makes of bytes behind a text, of the book alone.
fn walked_parts<L: Ledger>(
    alloc: Global,
    loaded: &mut Loaded,
    grown: &Grown,
    steps: &mut Steps<L>,
) -> Result<Parts, WalkFault>
    requires text { Has loaded.old.items loaded.old.book.txns loaded.old.text }
    requires kept { IsOf (txns_of loaded.old.items) loaded.old.book.txns loaded.old.kept }
    requires solves { Solves (txns_of loaded.old.items) loaded.old.book.txns }
    requires some { 0 < length (txns_of grown.now.items) }
    ensures answers { Answers (edit_behind loaded.old.items grown.now)
        (AreParts (items_behind loaded.old.items grown.now) loaded.old.book.txns) result steps.old
        steps.new }
    ensures stays { loaded.new ≡ loaded.old }
{
    let mut open = taken(alloc, loaded);
    let parts = parts_behind(alloc, &loaded.kept, &loaded.text, grown, &mut open, steps);
    given_back(loaded, open);
    parts
}

/// What bytes make by a walk of the transactions that they reach, of which one at least is theirs. What is loaded is as it was
/// afterwards. `Load` says that the whole text has to be loaded, and that load answers.
pub fn walked_addition<L: Ledger>(
    alloc: Global,
    loaded: &mut Loaded,
    behind: &Behind,
    grown: Grown,
    steps: &mut Steps<L>,
) -> Result<Boxed<Addition>, WalkFault>
    requires loaded { IsLoaded behind.now.year behind.now.text.now loaded.old }
    requires grown { IsGrown behind.now.year behind.now.text.now behind.now.bytes.now
        loaded.old.items grown }
    requires some { 0 < length (txns_of grown.items) }
    ensures answers { Answers (edit_behind loaded.old.items grown)
        (AddsTo behind.now.year behind.now.text.now behind.now.bytes.now) result steps.old
        steps.new }
    ensures stays { loaded.new ≡ loaded.old }
{
    let parts = walked_parts(alloc, loaded, &grown, steps)?;
    let addition = with_room(alloc, loaded, grown, parts)?;
    Ok(addition)
}
