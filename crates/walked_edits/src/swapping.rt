//! Forms that change places with those of a book.
ghost use Rattle.std.specs.Prelude.{◌≡◌, ◌∷◌, ◌++◌, [], ◌<◌, List, Some, length, set};
ghost use Rattle.std.specs.List.{slice_get, AllByRecursion};
ghost use Rattle.walked_edits.specs.Forms.{IsInside, IsSwapped, put_back, put_forms, spots_of};
ghost use Rattle.walked_edits.specs.declared.replaced.Replaced.{Replaced};

use crate::replaced::Replaced;
use book::Txn;
use std::mem::swap;

/// Puts a form into a book under a number, and takes the one that was there.
pub(crate) fn swap_at(book: &mut Vec<Txn>, number: usize, form: &mut Txn)
    requires { number < length book.old.items }
    ensures book { book.new.items ≡ set book.old.items number form.old }
    ensures form { slice_get book.old.items number ≡ Some form.new }
{
    swap(&mut book[number], form);
}

/// Puts a form into a book where it stands, and takes the one that was there.
fn swap_one(book: &mut Vec<Txn>, form: &mut Replaced)
    requires { form.old.spot.number < length book.old.items }
    ensures book { book.new.items ≡ set book.old.items form.old.spot.number form.old.txn }
    ensures form { slice_get book.old.items form.old.spot.number ≡ Some form.new.txn }
    ensures spot { form.new.spot ≡ form.old.spot }
{
    let number = form.spot.number as usize;
    swap_at(book, number, &mut form.txn);
}

/// Puts the last form into a book, and takes the one that was there.
pub(crate) fn swap_last(book: &mut Vec<Txn>, forms: &mut Vec<Replaced>)
    requires some { 0 < length forms.old.items }
    requires inside { AllByRecursion (IsInside book.old.items) forms.old.items }
    ensures { (older : List Replaced) (last : Replaced) → forms.old.items ≡ older ++ last ∷ []
        → IsSwapped older last book.old.items book.new.items forms.new.items }
{
    let at = forms.len() - 1;
    swap_one(book, &mut forms[at]);
}

/// Takes back all forms that a book got, from the last one on: it has the older ones again, and the forms are those that it
/// had.
pub(crate) fn swap_back(book: &mut Vec<Txn>, forms: &mut Vec<Replaced>)
    requires { AllByRecursion (IsInside book.old.items) forms.old.items }
    ensures back { book.new.items ≡ put_back book.old.items forms.old.items }
    ensures forth { put_forms book.new.items forms.new.items ≡ book.old.items }
    ensures spots { spots_of forms.new.items ≡ spots_of forms.old.items }
{
    let mut at = forms.len();
    while 0 < at {
        at -= 1;
        swap_one(book, &mut forms[at]);
    }
}
