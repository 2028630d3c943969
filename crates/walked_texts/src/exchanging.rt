//! What an edit makes of what is kept of a text, with the forms of a walk.
ghost use Rattle.std.specs.Prelude.{◌≡◌, ◌<◌, ◌++◌, IfOk, List, OnOk, Some, length};
ghost use Rattle.std.specs.List.{AllByRecursion, slice_get};
ghost use Rattle.book.specs.declared.item.Placed.{Placed as Stood};
ghost use Rattle.reached_walk.specs.Spots.{AreOnce};
ghost use Rattle.walked_edits.specs.Forms.{IsInside, put_forms, spots_of};
ghost use Rattle.kept_texts.specs.Keeping.{IsWith};
ghost use Rattle.walked_texts.specs.Making.{TakesIn};

use book::Txn;
use hl_base::Memory;
use kept_texts::Edited;
use std::alloc::Global;
use walked_edits::Replaced;

/// The transaction under a number.
fn stood_at(txns: &[Txn], number: usize) -> &Txn
    requires { number < length txns.now }
    ensures { slice_get txns.now number ≡ Some result.now }
{
    &txns[number]
}

/// The transaction under a number among those of a book and some behind it.
fn txn_at<'a>(book: &'a [Txn], behind: &'a [Txn], number: usize) -> &'a Txn
    requires { number < length (book.now ++ behind.now) }
    ensures { slice_get (book.now ++ behind.now) number ≡ Some result.now }
{
    let count = book.len();
    let inside = number < count;
    if inside {
        stood_at(book, number)
    } else {
        stood_at(behind, number - count)
    }
}

/// Lets what an edit makes have one form in the place of what a book, with some behind it, has there.
fn exchange_one(
    alloc: Global,
    edited: &mut Edited,
    book: &[Txn],
    behind: &[Txn],
    form: &Replaced,
) -> Result<(), Memory>
    requires { IsInside (book.now ++ behind.now) form.now }
    ensures { OnOk result (TakesIn (book.now ++ behind.now) form.now edited.old edited.new) }
{
    let number = form.spot.number as usize;
    let old = txn_at(book, behind, number);
    edited.exchange(alloc, old, &form.txn)?;
    Ok(())
}

/// Lets it have forms under numbers that differ, one after another.
fn exchange_all(
    alloc: Global,
    edited: &mut Edited,
    book: &[Txn],
    behind: &[Txn],
    forms: &[Replaced],
) -> Result<(), Memory>
    requires inside { AllByRecursion (IsInside (book.now ++ behind.now)) forms.now }
    requires once { AreOnce (spots_of forms.now) }
    ensures { OnOk result ((items : List Stood) → IsWith items (book.now ++ behind.now) edited.old
        → IsWith items (put_forms (book.now ++ behind.now) forms.now) edited.new) }
{
    for form in forms {
        exchange_one(alloc, edited, book, behind, form)?;
    }
    Ok(())
}

/// What an edit makes of what is kept of a text and its book, where forms stand in the book with some behind it. The time is
/// that of the forms.
pub(crate) fn with_forms(
    alloc: Global,
    edited: Edited,
    book: &[Txn],
    behind: &[Txn],
    forms: &[Replaced],
) -> Result<Edited, Memory>
    requires inside { AllByRecursion (IsInside (book.now ++ behind.now)) forms.now }
    requires once { AreOnce (spots_of forms.now) }
    ensures { IfOk result (λ e. (items : List Stood) → IsWith items (book.now ++ behind.now) edited
        → IsWith items (put_forms (book.now ++ behind.now) forms.now) e) }
{
    let mut whole = edited;
    exchange_all(alloc, &mut whole, book, behind, forms)?;
    Ok(whole)
}
