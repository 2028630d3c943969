//! The steps of a walk.
ghost use Rattle.std.specs.Prelude.{◌≡◌, [], ◌+◌, ◌<◌, ◌≤◌, false, true, List, Ok, Err, Some, IfErr, IfOk, OnErr, OnOk, length};
ghost use Rattle.std.specs.List.{slice_get, AllByRecursion};
ghost use Rattle.walked_edits.specs.Causes.{Answers, CanNot, IsCause, IsDatedAt};
ghost use Rattle.walked_edits.specs.Counting.{AreChecked, ChecksFew, IsCounted, nodes_at, nodes_of, nodes_on};
ghost use Rattle.walked_edits.specs.Forms.{IsInside, put_back, spots_of};
ghost use Rattle.walked_edits.specs.Keeping.{AreSums, TellSums};
ghost use Rattle.walked_edits.specs.Solving as solving;
ghost use Rattle.walked_edits.specs.Solving.{IsFormOf};
ghost use Rattle.book.specs.declared.transaction.Txn.{Txn};
ghost use Rattle.reached_walk.specs.Walks.{IsHanded};
ghost use Rattle.walked_edits.specs.Stepping.{IsElsewhere, IsOneOut, StaysBack, Vacates};
ghost use Rattle.walked_edits.specs.Walking.{HasCome, IsFound, IsNext, IsPutting, IsWalkedIn, PutsNext, Takes};

use crate::edited::Edited;
use crate::fault::WalkFault;
use crate::holding::vacant;
use crate::kept::{Kept, put_kept, take_kept};
use crate::replaced::Replaced;
use crate::solving::{SolvedBy, is_at, solved_at};
use crate::swapping::{swap_at, swap_back, swap_last};
use book::{Txn, copied_txn};
use hl_base::Steps;
use placed_sums::ByNumber;
use reached_walk::{Reach, Spot};
use std::alloc::Global;
use std::sync::ledger::Ledger;

/// What a walk answers: the forms of the transactions that an edit reaches, in the order of their places, and what is kept
/// of the book that has them.
#[derive(Drop)]
pub struct Walked {
    pub forms: Vec<Replaced>,
    pub kept: Kept,
}

/// A walk: what is kept of the book as it is now, and the forms that were taken out of the book, in the order of their
/// places.
#[derive(Drop)]
pub(crate) struct Walking {
    pub(crate) kept: Kept,
    pub(crate) taken: Vec<Replaced>,
}

/// Notes that the accounts of a written transaction change.
fn note<V: ByNumber, W: ByNumber>(
    edit: &Edited<V, W>,
    reach: &mut Reach,
    spot: Spot,
) -> Result<(), WalkFault>
    ensures handed { OnOk result ((written : Txn)
        → slice_get edit.now.written spot.number ≡ Some written
        → IsHanded edit.now.watches spot written reach.old reach.new) }
    ensures load { IfErr result (λ fault. IsCause fault (IsDatedAt edit.now spot)) }
{
    match edit.written_form(spot.number) {
        Some(written) => {
            reach.reach(edit.alloc(), edit.watchers(), spot, written)?;
            Ok(())
        }
        None => Err(WalkFault::Load),
    }
}

/// Takes the form that a book has at a place out of it, where that stands there with all its postings. The place is held.
fn vacate(
    alloc: Global,
    book: &mut Vec<Txn>,
    walking: &mut Walking,
    spot: Spot,
) -> Result<(), WalkFault>
    requires inside { spot.number < length book.old.items }
    requires taken { AllByRecursion (IsInside book.old.items) walking.old.taken.items }
    requires sums { AreSums book.old.items walking.old.kept }
    ensures vacates { OnOk result (Vacates spot book.old.items book.new.items walking.old walking.new) }
    ensures stays { OnErr result ((book.new.items ≡ book.old.items)
        × (walking.new.taken.items ≡ walking.old.taken.items)) }
    ensures load { IfErr result (λ fault. IsCause fault (IsElsewhere book.old.items spot)) }
{
    let number = spot.number as usize;
    if !is_at(spot, &book[number]) {
        return Err(WalkFault::Load);
    }
    let held = vacant(alloc, spot.day);
    take_kept(alloc, &mut walking.kept, &book[number], &held)?;
    walking.taken.push(Replaced { spot, txn: held })?;
    swap_last(book, &mut walking.taken);
    Ok(())
}

/// Takes the transaction out of the book that a walk has come to.
fn take_next<V: ByNumber, W: ByNumber>(
    book: &mut Vec<Txn>,
    edit: &Edited<V, W>,
    walking: &mut Walking,
    reach: &mut Reach,
    spot: Spot,
) -> Result<(), WalkFault>
    requires { HasCome edit.now spot book.old.items walking.old reach.old }
    ensures takes { OnOk result (Takes edit.now book.new.items walking.new reach.new) }
    ensures out { OnOk result (IsOneOut spot book.old.items book.new.items walking.old.taken.items walking.new.taken.items) }
    ensures stays { OnErr result ((book.new.items ≡ book.old.items)
        × (walking.new.taken.items ≡ walking.old.taken.items)) }
    ensures load { IfErr result (λ fault. IsCause fault (CanNot edit.now)) }
{
    note(edit, reach, spot)?;
    vacate(edit.alloc(), book, walking, spot)
}

/// Takes all transactions out of the book that the edit reaches.
fn take_all<V: ByNumber, W: ByNumber>(
    book: &mut Vec<Txn>,
    edit: &Edited<V, W>,
    walking: &mut Walking,
    reach: &mut Reach,
) -> Result<(), WalkFault>
    requires { Takes edit.now book.old.items walking.old reach.old }
    ensures taken { OnOk result (IsPutting edit.now book.new.items walking.new.kept [] walking.new.taken.items) }
    ensures back { put_back book.new.items walking.new.taken.items
        ≡ put_back book.old.items walking.old.taken.items }
    ensures inside { AllByRecursion (IsInside book.new.items) walking.new.taken.items }
    ensures load { IfErr result (λ fault. IsCause fault (CanNot edit.now)) }
{
    while let Some(spot) = reach.next(edit.watchers()) {
        take_next(book, edit, walking, reach, spot)?;
    }
    Ok(())
}

/// A copy of the transaction that is written at a place.
fn form_at<V: ByNumber, W: ByNumber>(edit: &Edited<V, W>, spot: Spot) -> Result<Txn, WalkFault>
    requires { spot.number < length edit.now.written }
    ensures written { IfOk result (λ txn. slice_get edit.now.written spot.number ≡ Some txn) }
    ensures load { IfErr result (λ fault. IsCause fault ⊥) }
{
    match edit.written_form(spot.number) {
        Some(written) => Ok(copied_txn(edit.alloc(), written)?),
        None => Err(WalkFault::Load),
    }
}

/// Solves a written transaction at a place.
fn solved_now<V: ByNumber, W: ByNumber, L: Ledger>(
    book: &Vec<Txn>,
    edit: &Edited<V, W>,
    kept: &Kept,
    written: Txn,
    spot: Spot,
    steps: &mut Steps<L>,
) -> Result<Txn, WalkFault>
    requires { TellSums edit.now.symbols book.now.items kept.now spot }
    ensures found { IfOk result (IsFound edit.now.symbols book.now.items spot written) }
    ensures answers { (after : List Txn) (solved : Txn) → solving.is_near spot written ≡ true
        → IsFormOf book.now.items after spot written solved
        → Answers solved (solving.is_fit edit.now.symbols spot solved ≡ false) result }
    ensures counted { OnOk result (IsCounted steps.old steps.new) }
    ensures few { OnOk result (steps.new.nodes ≤ steps.old.nodes
        + nodes_of edit.now.symbols written) }
    ensures read { steps.new.bytes_read ≡ steps.old.bytes_read }
    ensures most { steps.new.checked ≤ steps.old.checked + 1 }
{
    let by = SolvedBy {
        alloc: edit.alloc(),
        book,
        kept,
        symbols: edit.symbols(),
    };
    solved_at(&by, written, spot, steps)
}

/// Solves the transaction anew that is the next of those that are out of the book, and puts its form in.
fn put_next<V: ByNumber, W: ByNumber, L: Ledger>(
    book: &mut Vec<Txn>,
    edit: &Edited<V, W>,
    kept: &mut Kept,
    next: &Replaced,
    steps: &mut Steps<L>,
) -> Result<(), WalkFault>
    requires { IsNext edit.now book.old.items kept.old next.now }
    ensures put { OnOk result (PutsNext edit.now next.now book.old.items kept.old book.new.items kept.new) }
    ensures back { StaysBack next.now.spot.number book.old.items book.new.items }
    ensures counted { OnOk result (IsCounted steps.old steps.new) }
    ensures few { OnOk result (steps.new.nodes ≤ steps.old.nodes
        + nodes_at edit.now.symbols (slice_get edit.now.written next.now.spot.number)) }
    ensures read { steps.new.bytes_read ≡ steps.old.bytes_read }
    ensures load { IfErr result (λ fault. IsCause fault (CanNot edit.now)) }
    ensures most { steps.new.checked ≤ steps.old.checked + 1 }
{
    let number = next.spot.number as usize;
    let written = form_at(edit, next.spot)?;
    let mut form = solved_now(book, edit, kept, written, next.spot, steps)?;
    put_kept(edit.alloc(), kept, &book[number], next, &form)?;
    swap_at(book, number, &mut form);
    Ok(())
}

/// Solves all transactions anew that are out of the book, in the order of their places.
fn put_all<V: ByNumber, W: ByNumber, L: Ledger>(
    book: &mut Vec<Txn>,
    edit: &Edited<V, W>,
    kept: &mut Kept,
    taken: &[Replaced],
    steps: &mut Steps<L>,
) -> Result<(), WalkFault>
    requires { IsPutting edit.now book.old.items kept.old [] taken.now }
    ensures put { OnOk result (IsPutting edit.now book.new.items kept.new taken.now []) }
    ensures back { put_back book.new.items taken.now ≡ put_back book.old.items taken.now }
    ensures counted { OnOk result (AreChecked (length taken.now) steps.old steps.new) }
    ensures few { OnOk result (steps.new.nodes ≤ steps.old.nodes
        + nodes_on edit.now (spots_of taken.now)) }
    ensures read { steps.new.bytes_read ≡ steps.old.bytes_read }
    ensures load { IfErr result (λ fault. IsCause fault (CanNot edit.now)) }
    ensures most { ChecksFew edit.now steps.old steps.new }
{
    for next in taken {
        put_next(book, edit, kept, next, steps)?;
    }
    Ok(())
}

/// Takes all transactions that the edit reaches out of the book, and then puts each of them in anew: so the book has only
/// what the new book has, and what it moves is never more than that.
fn go<V: ByNumber, W: ByNumber, L: Ledger>(
    book: &mut Vec<Txn>,
    edit: &Edited<V, W>,
    walking: &mut Walking,
    reach: &mut Reach,
    steps: &mut Steps<L>,
) -> Result<(), WalkFault>
    requires { Takes edit.now book.old.items walking.old reach.old }
    ensures put { OnOk result (IsPutting edit.now book.new.items walking.new.kept walking.new.taken.items []) }
    ensures back { put_back book.new.items walking.new.taken.items
        ≡ put_back book.old.items walking.old.taken.items }
    ensures inside { AllByRecursion (IsInside book.new.items) walking.new.taken.items }
    ensures counted { OnOk result (AreChecked
        (length walking.new.taken.items) steps.old steps.new) }
    ensures few { OnOk result (steps.new.nodes ≤ steps.old.nodes
        + nodes_on edit.now (spots_of walking.new.taken.items)) }
    ensures read { steps.new.bytes_read ≡ steps.old.bytes_read }
    ensures load { IfErr result (λ fault. IsCause fault (CanNot edit.now)) }
    ensures most { ChecksFew edit.now steps.old steps.new }
{
    take_all(book, edit, walking, reach)?;
    put_all(
        book,
        edit,
        &mut walking.kept,
        walking.taken.as_slice(),
        steps,
    )
}

/// Walks to the end, and takes all forms back out of the book.
pub(crate) fn walk_all<V: ByNumber, W: ByNumber, L: Ledger>(
    book: &mut Vec<Txn>,
    edit: &Edited<V, W>,
    begun: Walking,
    reach: Reach,
    steps: &mut Steps<L>,
) -> Result<Walked, WalkFault>
    requires takes { Takes edit.now book.old.items begun reach }
    requires none { begun.taken.items ≡ [] }
    ensures walked { IfOk result (IsWalkedIn edit.now book.old.items) }
    ensures stays { book.new.items ≡ book.old.items }
    ensures counted { IfOk result (λ w. AreChecked (length w.forms.items) steps.old steps.new) }
    ensures few { IfOk result (λ w. steps.new.nodes ≤ steps.old.nodes
        + nodes_on edit.now (spots_of w.forms.items)) }
    ensures read { steps.new.bytes_read ≡ steps.old.bytes_read }
    ensures load { IfErr result (λ fault. IsCause fault (CanNot edit.now)) }
    ensures most { ChecksFew edit.now steps.old steps.new }
{
    let mut walking = begun;
    let mut reached = reach;
    let outcome = go(book, edit, &mut walking, &mut reached, steps);
    swap_back(book, &mut walking.taken);
    told(outcome, walking)
}

/// What a walk answers whose forms were taken back, if it came to its end.
fn told(outcome: Result<(), WalkFault>, walking: Walking) -> Result<Walked, WalkFault>
    ensures kept { IfOk result (λ w. w.kept ≡ walking.kept) }
    ensures forms { IfOk result (λ w. w.forms.items ≡ walking.taken.items) }
    ensures ended { IfOk result (λ _. outcome ≡ Ok tt) }
    ensures fault { IfErr result (λ fault. outcome ≡ Err fault) }
{
    match outcome {
        Ok(()) => Ok(told_all(walking)),
        Err(fault) => Err(fault),
    }
}

/// What a walk answers that came to its end.
fn told_all(walking: Walking) -> Walked
    ensures kept { result.kept ≡ walking.kept }
    ensures forms { result.forms.items ≡ walking.taken.items }
{
    Walked {
        forms: walking.taken,
        kept: walking.kept,
    }
}
