//! Copies of the transactions of a book that other forms take the place of, and of these forms.
ghost use Rattle.std.specs.Prelude.{◌≡◌, ◌∷◌, ◌++◌, [], IfOk, OnOk};
ghost use Rattle.std.specs.List.{flat_map, slice_get};
ghost use Rattle.std.specs.Option.{option_to_list};
ghost use Rattle.kept_books.specs.Exchanging as spec;

use book::{Txn, copied_txn};
use hl_base::Memory;
use std::alloc::Global;
use walked_edits::Replaced;

/// Puts a copy of a transaction behind others.
fn push_copy(alloc: Global, txns: &mut Vec<Txn>, txn: &Txn) -> Result<(), Memory>
    ensures { OnOk result (txns.new.items ≡ txns.old.items ++ txn.now ∷ []) }
{
    let copy = copied_txn(alloc, txn)?;
    txns.push(copy)?;
    Ok(())
}

/// The same of the one under a number, if there is one.
fn push_old(alloc: Global, txns: &mut Vec<Txn>, book: &[Txn], number: usize) -> Result<(), Memory>
    ensures { OnOk result (txns.new.items
        ≡ txns.old.items ++ option_to_list (slice_get book.now number)) }
{
    match book.get(number) {
        Some(txn) => push_copy(alloc, txns, txn),
        None => Ok(()),
    }
}

/// Those that a book has under the numbers of some forms.
pub(crate) fn olds_in(alloc: Global, book: &[Txn], forms: &[Replaced]) -> Result<Vec<Txn>, Memory>
    ensures { IfOk result (λ olds. olds.items ≡ spec.olds_in book.now forms.now) }
{
    let mut olds = Vec::with_capacity(alloc, forms.len())?;
    for form in forms {
        push_old(alloc, &mut olds, book, form.spot.number as usize)?;
    }
    Ok(olds)
}

/// Whether a book has a transaction with postings under a number.
fn is_held(book: &[Txn], number: usize) -> bool
    ensures { result ≡ spec.is_held (slice_get book.now number) }
{
    match book.get(number) {
        Some(txn) => 0 < txn.postings.len(),
        None => false,
    }
}

/// Puts a copy of a form behind others, if it takes the place of such a one.
fn push_held(
    alloc: Global,
    txns: &mut Vec<Txn>,
    book: &[Txn],
    form: &Replaced,
) -> Result<(), Memory>
    ensures { OnOk result (txns.new.items ≡ txns.old.items ++ spec.held_form book.now form.now) }
{
    let held = is_held(book, form.spot.number as usize);
    if held {
        push_copy(alloc, txns, &form.txn)
    } else {
        Ok(())
    }
}

/// Puts a copy of a form behind others, if it doesn't.
fn push_free(
    alloc: Global,
    txns: &mut Vec<Txn>,
    book: &[Txn],
    form: &Replaced,
) -> Result<(), Memory>
    ensures { OnOk result (txns.new.items ≡ txns.old.items ++ spec.free_form book.now form.now) }
{
    let held = is_held(book, form.spot.number as usize);
    if held {
        Ok(())
    } else {
        push_copy(alloc, txns, &form.txn)
    }
}

/// The forms that take the place of transactions with postings.
fn held_in(alloc: Global, book: &[Txn], forms: &[Replaced]) -> Result<Vec<Txn>, Memory>
    ensures { IfOk result (λ txns. txns.items ≡ flat_map (spec.held_form book.now) forms.now) }
{
    let mut txns = Vec::with_capacity(alloc, forms.len())?;
    for form in forms {
        push_held(alloc, &mut txns, book, form)?;
    }
    Ok(txns)
}

/// Puts all others behind some.
fn push_all_free(
    alloc: Global,
    txns: &mut Vec<Txn>,
    book: &[Txn],
    forms: &[Replaced],
) -> Result<(), Memory>
    ensures { OnOk result (txns.new.items
        ≡ txns.old.items ++ flat_map (spec.free_form book.now) forms.now) }
{
    for form in forms {
        push_free(alloc, txns, book, form)?;
    }
    Ok(())
}

/// All forms, first those that take the place of transactions with postings.
pub(crate) fn news_in(alloc: Global, book: &[Txn], forms: &[Replaced]) -> Result<Vec<Txn>, Memory>
    ensures { IfOk result (λ news. news.items ≡ spec.news_in book.now forms.now) }
{
    let mut news = held_in(alloc, book, forms)?;
    push_all_free(alloc, &mut news, book, forms)?;
    Ok(news)
}
