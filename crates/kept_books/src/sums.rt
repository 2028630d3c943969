//! The sums of a book for plain reports.
ghost use Rattle.std.specs.Prelude.{◌≡◌, ◌++◌, [], IfOk, IfSome, List};
ghost use Rattle.std.specs.List.{AllByRecursion};
ghost use Rattle.book.specs.Bounds.{TurnoverFits};
ghost use Rattle.book.specs.Postings.{postings_of};
ghost use Rattle.book.specs.declared.transaction.Txn.{Txn as Entry};
ghost use Rattle.index_cells.specs.Books.{KeepsBook};
ghost use Rattle.index_cells.specs.Exchange.{CanChange};
ghost use Rattle.index_cells.specs.Keeps.{Keeps};
ghost use Rattle.index_cells.specs.Names.{NamesOf};
ghost use Rattle.index_cells.specs.Posted.{AreDated, posted_in};
ghost use Rattle.reached_walk.specs.Spots.{AreOnce};
ghost use Rattle.walked_edits.specs.Forms.{IsInside, put_forms, spots_of};
ghost use Rattle.kept_books.specs.Summing.{KeepsNamed};

use crate::exchanging::{news_in, olds_in};
use crate::symbols::copied_names;
use book::Txn;
use hl_base::Memory;
use index_cells::{Kept, are_dated, keep_book};
use std::alloc::Global;
use walked_edits::Replaced;

/// The sums of a book whose days are days of the calendar.
fn dated_sums(alloc: Global, txns: &[Txn]) -> Result<Kept, Memory>
    requires fits { TurnoverFits (postings_of txns.now) }
    requires dated { AreDated txns.now }
    ensures { IfOk result (KeepsBook txns.now) }
{
    let sums = keep_book(alloc, txns)?;
    Ok(sums)
}

/// The sums of a book; nothing where a day of it is none of the calendar.
fn sums_of(alloc: Global, txns: &[Txn]) -> Result<Option<Kept>, Memory>
    requires { TurnoverFits (postings_of txns.now) }
    ensures { IfOk result (λ o. IfSome o (KeepsBook txns.now)) }
{
    let dated = are_dated(txns);
    if !dated {
        return Ok(None);
    }
    let sums = dated_sums(alloc, txns)?;
    Ok(Some(sums))
}

/// The sums of a book; nothing also where there is no memory for them.
fn made_sums(alloc: Global, txns: &[Txn]) -> Option<Kept>
    requires { TurnoverFits (postings_of txns.now) }
    ensures { IfSome result (KeepsBook txns.now) }
{
    match sums_of(alloc, txns) {
        Ok(sums) => sums,
        Err(Memory) => None,
    }
}

/// Sums that are kept of a book, or else those that are made of it.
pub(crate) fn kept_or_made(alloc: Global, txns: &[Txn], sums: Option<Kept>) -> Option<Kept>
    requires { TurnoverFits (postings_of txns.now) }
    ensures { IfSome sums (KeepsBook txns.now) → IfSome result (KeepsBook txns.now) }
{
    match sums {
        Some(kept) => Some(kept),
        None => made_sums(alloc, txns),
    }
}

/// A copy of sums, which shares their rows.
fn copied_sums(alloc: Global, kept: &Kept) -> Result<Kept, Memory>
    ensures { IfOk result (λ copy. copy ≡ kept.now) }
{
    let sums = kept.sums.copy()?;
    let accounts = copied_names(alloc, kept.accounts.as_slice())?;
    let symbols = copied_names(alloc, kept.symbols.as_slice())?;
    Ok(Kept {
        sums,
        accounts,
        symbols,
    })
}

/// The sums of a book in which some transactions are gone and others are put in, wherever they stand.
fn exchanged_sums(alloc: Global, kept: &Kept, gone: &[Txn], more: &[Txn]) -> Result<Kept, Memory>
    requires { (before : List Entry)
        × ((after : List Entry) × CanChange kept.now before gone.now more.now after) }
    ensures keeps { IfOk result (λ k. (before after : List Entry)
        → CanChange kept.now before gone.now more.now after
        → Keeps (posted_in after) k) }
    ensures names { IfOk result (λ k. (before after : List Entry)
        → CanChange kept.now before gone.now more.now after
        → gone.now ≡ [] → NamesOf (posted_in before) kept.now → NamesOf (posted_in after) k) }
{
    let mut sums = copied_sums(alloc, kept)?;
    let changed = sums.prepare(alloc, gone, more)?;
    sums.put(changed);
    Ok(sums)
}

/// The sums of a book with transactions behind it, of which the whole is in range; nothing where a day of these is none of the
/// calendar.
fn sums_behind(
    alloc: Global,
    kept: &Kept,
    book: &[Txn],
    more: &[Txn],
) -> Result<Option<Kept>, Memory>
    requires sums { KeepsBook book.now kept.now }
    requires fits { TurnoverFits (postings_of (book.now ++ more.now)) }
    ensures { IfOk result (λ o. IfSome o (KeepsBook (book.now ++ more.now))) }
{
    let dated = are_dated(more);
    if !dated {
        return Ok(None);
    }
    let gone: Vec<Txn> = Vec::new(alloc);
    let sums = exchanged_sums(alloc, kept, gone.as_slice(), more)?;
    Ok(Some(sums))
}

/// The sums of a book with transactions behind it, if those of the book are there.
pub(crate) fn sums_after(
    alloc: Global,
    sums: &Option<Kept>,
    book: &[Txn],
    more: &[Txn],
) -> Result<Option<Kept>, Memory>
    requires sums { IfSome sums.now (KeepsBook book.now) }
    requires fits { TurnoverFits (postings_of (book.now ++ more.now)) }
    ensures { IfOk result (λ o. IfSome o (KeepsBook (book.now ++ more.now))) }
{
    match sums {
        Some(kept) => sums_behind(alloc, kept, book, more),
        None => Ok(None),
    }
}

/// The sums of a book in which some transactions are gone and others are put in, wherever they stand; nothing where a name may
/// go with those that are gone.
fn renamed_sums(
    alloc: Global,
    kept: &Kept,
    gone: &[Txn],
    more: &[Txn],
) -> Result<Option<Kept>, Memory>
    requires { (before : List Entry)
        × ((after : List Entry) × CanChange kept.now before gone.now more.now after) }
    ensures { IfOk result (λ o. IfSome o (λ k. (before after : List Entry)
        → CanChange kept.now before gone.now more.now after
        → NamesOf (posted_in before) kept.now → KeepsNamed after k)) }
{
    let mut sums = copied_sums(alloc, kept)?;
    let changed = sums.prepare(alloc, gone, more)?;
    let stay = changed.names_stay;
    if !stay {
        return Ok(None);
    }
    sums.put(changed);
    Ok(Some(sums))
}

/// The sums of a book in which forms stand; nothing where a day of these is none of the calendar, or where a name may go.
fn sums_with_forms(
    alloc: Global,
    kept: &Kept,
    book: &[Txn],
    vacants: &[Txn],
    forms: &[Replaced],
) -> Result<Option<Kept>, Memory>
    requires sums { KeepsBook book.now kept.now }
    requires vacants { AllByRecursion (λ t. t.postings ≡ []) vacants.now }
    requires inside { AllByRecursion (IsInside (book.now ++ vacants.now)) forms.now }
    requires once { AreOnce (spots_of forms.now) }
    requires fits { TurnoverFits (postings_of (put_forms (book.now ++ vacants.now) forms.now)) }
    ensures { IfOk result (λ o.
        IfSome o (KeepsBook (put_forms (book.now ++ vacants.now) forms.now))) }
{
    let gone = olds_in(alloc, book, forms)?;
    let more = news_in(alloc, book, forms)?;
    let dated = are_dated(more.as_slice());
    if !dated {
        return Ok(None);
    }
    renamed_sums(alloc, kept, gone.as_slice(), more.as_slice())
}

/// The sums of a book, with places held behind it, in which the forms of a walk stand, if those of the book are there. They are
/// made at the cost of the forms. Nothing also where a name goes with a transaction that gets another form: then a report makes
/// them of the book.
pub fn sums_walked(
    alloc: Global,
    sums: &Option<Kept>,
    book: &[Txn],
    vacants: &[Txn],
    forms: &[Replaced],
) -> Result<Option<Kept>, Memory>
    requires sums { IfSome sums.now (KeepsBook book.now) }
    requires vacants { AllByRecursion (λ t. t.postings ≡ []) vacants.now }
    requires inside { AllByRecursion (IsInside (book.now ++ vacants.now)) forms.now }
    requires once { AreOnce (spots_of forms.now) }
    requires fits { TurnoverFits (postings_of (put_forms (book.now ++ vacants.now) forms.now)) }
    ensures { IfOk result (λ o.
        IfSome o (KeepsBook (put_forms (book.now ++ vacants.now) forms.now))) }
{
    match sums {
        Some(kept) => sums_with_forms(alloc, kept, book, vacants, forms),
        None => Ok(None),
    }
}
