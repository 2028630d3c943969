//! What an edit makes of all that is made of a text, and how it is put in.
ghost use Rattle.std.specs.Prelude.{◌≡◌, ◌+◌, ◌^◌, ◌<◌, ◌≤◌, ◌++◌, IfSome, Option, drop, length, ℕ};
ghost use Rattle.std.specs.Prelude as lists;
ghost use Rattle.std.specs.List.{AllByRecursion};
ghost use Rattle.text_ends.specs.Ends.{last_of};
ghost use Rattle.text_ends.specs.Going.{items_behind};
ghost use Rattle.moved_lines.specs.Moving.{CanMoveTxn, moved_from};
ghost use Rattle.walked_edits.specs.Forms.{IsInside, put_forms};
ghost use Rattle.loaded_texts.specs.Changing.{CanTakeChange, Changes};
ghost use Rattle.loaded_texts.specs.Keeping.{IsLoaded, pieces_at};
ghost use Rattle.loaded_texts.specs.Ways.{Adds, CanTake, CanTakeIn, IsMadeFrom};

use crate::adding::Addition;
use crate::changing::Changed;
use crate::lengthening::lengthen;
use crate::loaded::Loaded;
use crate::room::{Room, put_items};
use book::{Boxed, Items, Placed, Txn};
use changed_texts::put_met;
use hl_base::{List, Piece};
use kept_texts::EndMove;
use moved_lines::{Shift, move_lines};
use std::alloc::Global;
use std::mem::replace;
use text_ends::Grown;
use walked_edits::Replaced;
use walked_texts::{Parts, put_all};

/// What an edit makes: all that is made of the new text; or what bytes behind the old one make, or what an entry makes in the place of
/// another one.
#[derive(Drop)]
pub enum Made {
    Loaded(Boxed<Loaded>),
    Added(Boxed<Addition>),
    Changed(Boxed<Changed>),
}

/// Puts what was read behind the text's items, of which the last one is longer now. It takes no memory.
fn put_grown(alloc: Global, items: &mut Items, grown: Grown, room: Room<Placed>)
    requires longer { IfSome (last_of items.old) (λ p. p.piece.len + grown.taken < 2 ^ 64) }
    requires room { length items.old + length grown.items ≤ room }
    ensures { items.new ≡ items_behind items.old grown }
{
    let Grown {
        taken,
        lines: _,
        items: more,
    } = grown;
    lengthen(alloc, items, taken);
    put_items(alloc, items, more, room);
}

/// Puts transactions behind a book, and then forms into it. It takes no memory.
fn put_txns(
    alloc: Global,
    txns: &mut List<Txn>,
    more: Vec<Txn>,
    forms: Vec<Replaced>,
    room: Room<Txn>,
)
    requires room { length txns.old + length more.items ≤ room }
    requires inside { AllByRecursion (IsInside (txns.old ++ more.items)) forms.items }
    ensures { txns.new ≡ put_forms (txns.old ++ more.items) forms.items }
{
    put_items(alloc, txns, List::from_vec(more), room);
    let list = replace(txns, List::new(alloc));
    let mut book = list.into_vec();
    put_all(&mut book, forms);
    *txns = List::from_vec(book);
}

/// Takes in what bytes behind the text make. It takes no memory.
fn take_addition(alloc: Global, loaded: &mut Loaded, bytes: &[u8], addition: Addition)
    requires { CanTakeIn bytes.now loaded.old addition }
    ensures { (year : Option ℕ) (text : lists.List ℕ) → IsLoaded year text loaded.old
        → Adds year text bytes.now loaded.old.items loaded.old.book.txns addition
        → IsLoaded year (text ++ bytes.now) loaded.new }
{
    let Addition {
        grown,
        parts,
        item_room,
        txn_room,
    } = addition;
    let Parts {
        forms,
        vacants,
        edited,
        end,
        kept,
    } = parts;
    loaded.text.put_behind(bytes, &grown, edited);
    put_grown(alloc, &mut loaded.items, grown, item_room);
    put_txns(alloc, &mut loaded.book.txns, vacants, forms, txn_room);
    loaded.end = end;
    loaded.kept = kept;
}

/// The piece of the last of some items.
fn last_piece(items: &[Placed]) -> Option<Piece>
    ensures { result ≡ last_of (pieces_at items.now) }
{
    match items {
        [] => None,
        [.., last] => Some(last.piece),
    }
}

/// Puts forms into a book, and moves all lines from a transaction on. It takes no memory.
fn put_moved(alloc: Global, txns: &mut List<Txn>, forms: Vec<Replaced>, first: usize, by: Shift)
    requires inside { AllByRecursion (IsInside txns.old) forms.items }
    requires first { first ≤ length (put_forms txns.old forms.items) }
    requires lines { AllByRecursion (CanMoveTxn by) (drop first (put_forms txns.old forms.items)) }
    ensures { txns.new ≡ moved_from first by (put_forms txns.old forms.items) }
{
    let list = replace(txns, List::new(alloc));
    let mut book = list.into_vec();
    put_all(&mut book, forms);
    move_lines(alloc, &mut book, first, by);
    *txns = List::from_vec(book);
}

/// Takes in what an entry makes in the place of another one. It takes no memory.
fn take_change(alloc: Global, loaded: &mut Loaded, changed: Changed)
    requires { CanTakeChange loaded.old changed }
    ensures { (year : Option ℕ) (text bytes new : lists.List ℕ) → IsLoaded year text loaded.old
        → Changes year text bytes new loaded.old.items loaded.old.book.txns changed
        → IsLoaded year new loaded.new }
{
    let Changed {
        number,
        met,
        first,
        parts,
    } = changed;
    let Parts {
        forms,
        vacants: _,
        edited,
        end,
        kept,
    } = parts;
    let by = met.by;
    let count = loaded.items.len();
    let was_last = number == count - 1;
    put_met(alloc, &mut loaded.items, number, met);
    let last = last_piece(loaded.items.as_slice());
    let to = EndMove { by, last, was_last };
    loaded.text.put_changed(to, edited);
    put_moved(alloc, &mut loaded.book.txns, forms, first, by.lines);
    loaded.end = end;
    loaded.kept = kept;
}

/// Puts in what an edit makes, which puts some bytes into the text. It takes no memory.
pub fn put_made(alloc: Global, loaded: &mut Loaded, bytes: &[u8], made: Made)
    requires { CanTake bytes.now loaded.old made }
    ensures { (year : Option ℕ) (old new : lists.List ℕ) → IsLoaded year old loaded.old
        → IsMadeFrom year old bytes.now new made → IsLoaded year new loaded.new }
{
    match made {
        Made::Loaded(other) => *loaded = other.into_inner(),
        Made::Added(addition) => take_addition(alloc, loaded, bytes, addition.into_inner()),
        Made::Changed(changed) => take_change(alloc, loaded, changed.into_inner()),
    }
}
