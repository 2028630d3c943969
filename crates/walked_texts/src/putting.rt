//! Forms that are put into a book.
ghost use Rattle.std.specs.Prelude.{◌≡◌, ◌<◌, Some, length, set};
ghost use Rattle.std.specs.List.{AllByRecursion, slice_get};
ghost use Rattle.walked_edits.specs.Forms.{IsInside, put_forms};

use book::Txn;
use std::mem::swap;
use walked_edits::Replaced;

/// Puts a form into a book under a number, and takes the one that was there.
fn swap_at(book: &mut Vec<Txn>, number: usize, form: &mut Txn)
    requires { number < length book.old.items }
    ensures book { book.new.items ≡ set book.old.items number form.old }
    ensures form { slice_get book.old.items number ≡ Some form.new }
{
    swap(&mut book[number], form);
}

/// Puts a form into a book where it stands, and takes the one that was there.
fn swap_one(book: &mut Vec<Txn>, form: &mut Replaced)
    requires { form.old.spot.number < length book.old.items }
    ensures book { book.new.items ≡ set book.old.items form.old.spot.number form.old.txn }
    ensures spot { form.new.spot ≡ form.old.spot }
{
    let number = form.spot.number as usize;
    swap_at(book, number, &mut form.txn);
}

/// Puts forms into a book, one after another, and takes those that were there.
pub(crate) fn swap_in(book: &mut Vec<Txn>, forms: &mut Vec<Replaced>)
    requires { AllByRecursion (IsInside book.old.items) forms.old.items }
    ensures { book.new.items ≡ put_forms book.old.items forms.old.items }
{
    let mut at = 0;
    while at < forms.len() {
        swap_one(book, &mut forms[at]);
        at += 1;
    }
}
