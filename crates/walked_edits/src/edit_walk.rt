//! The walk of an edit.
ghost use Rattle.std.specs.Prelude.{◌≡◌, [], ◌∷◌, ◌++◌, ◌+◌, ◌<◌, ◌≤◌, List, true, IfErr, IfOk, OnErr, OnOk, length, take};
ghost use Rattle.std.specs.List.{AllByRecursion, slice_get};
ghost use Rattle.std.specs.Option.{option_map};
ghost use Rattle.book.specs.declared.transaction.Txn.{Txn};
ghost use Rattle.entry_balance.specs.Entry.{costs_fit};
ghost use Rattle.placed_sums.specs.Accounts.{HasSymbols};
ghost use Rattle.placed_sums.specs.Replaced.{Replaces};
ghost use Rattle.reached_walk.specs.Spots.{holds};
ghost use Rattle.walked_edits.specs.Causes.{CanNot, IsCause};
ghost use Rattle.walked_edits.specs.Counting.{AreChecked, ChecksFew, nodes_on};
ghost use Rattle.walked_edits.specs.Forms.{IsInside, put_back, spots_of, with_room, with_vacants};
ghost use Rattle.walked_edits.specs.Forms.{vacant as vacant_on};
ghost use Rattle.walked_edits.specs.Keeping.{AreSums, IsKept, IsWhole};
ghost use Rattle.walked_edits.specs.Scenes.{IsEdited};
ghost use Rattle.walked_edits.specs.Stepping.{Leaves};
ghost use Rattle.walked_edits.specs.Walking.{AreLeft, Begins, CanLeave, IsReady, IsWalked, IsWalkedIn, TellsOld, TellsOne};

use crate::edited::Edited;
use crate::fault::WalkFault;
use crate::holding::vacant;
use crate::kept::{Kept, copied_kept, leave_kept};
use crate::replaced::Replaced;
use crate::swapping::{swap_back, swap_last};
use crate::walking::{Walked, Walking, walk_all};
use book::Txn;
use hl_base::{Memory, Steps};
use hl_time::Day;
use placed_sums::ByNumber;
use reached_walk::{Reach, Spot};
use std::alloc::Global;
use std::sync::ledger::Ledger;

/// Tells a walk the old form of an edited transaction, if it had one.
fn tell_one<V: ByNumber, W: ByNumber>(
    edit: &Edited<V, W>,
    reach: &mut Reach,
    spot: &Spot,
) -> Result<(), WalkFault>
    requires { holds edit.now.spots spot.now.number ≡ true }
    ensures told { OnOk result (TellsOne edit.now spot.now reach.old reach.new) }
    ensures load { IfErr result (λ fault. IsCause fault (CanNot edit.now)) }
{
    match edit.former_form(spot.number) {
        Some(old) => {
            reach.leave(edit.alloc(), edit.watchers(), *spot, old)?;
            Ok(())
        }
        None => Ok(()),
    }
}

/// Tells a walk the old forms of all edited transactions.
fn tell_all<V: ByNumber, W: ByNumber>(
    edit: &Edited<V, W>,
    reach: &mut Reach,
    spots: &[Spot],
) -> Result<(), WalkFault>
    requires spots { spots.now ≡ edit.now.spots }
    requires none { TellsOld edit.now [] reach.old }
    ensures told { OnOk result (TellsOld edit.now edit.now.spots reach.new) }
    ensures load { IfErr result (λ fault. IsCause fault (CanNot edit.now)) }
{
    for spot in spots {
        tell_one(edit, reach, spot)?;
    }
    Ok(())
}

/// Where a walk begins: at the earliest of the old and the new places of the edited transactions.
fn begun<V: ByNumber, W: ByNumber>(edit: &Edited<V, W>) -> Result<Reach, WalkFault>
    ensures begins { IfOk result (Begins edit.now) }
    ensures load { IfErr result (λ fault. IsCause fault (CanNot edit.now)) }
{
    let mut reach = Reach::new(edit.alloc(), edit.spots())?;
    tell_all(edit, &mut reach, edit.spots())?;
    Ok(reach)
}

/// The day of a written transaction, if there is one under the number.
fn day_at<V: ByNumber, W: ByNumber>(edit: &Edited<V, W>, number: usize) -> Option<Day>
    ensures { result ≡ option_map (λ t. t.day) (slice_get edit.now.written number) }
{
    match edit.written_form(number as u64) {
        Some(written) => Some(written.day),
        None => None,
    }
}

/// The day of the first transaction that is written behind a book, if there is one.
fn next_day<V: ByNumber, W: ByNumber>(book: &Vec<Txn>, edit: &Edited<V, W>) -> Option<Day>
    ensures { result ≡ option_map (λ t. t.day) (slice_get edit.now.written
        (length book.now.items)) }
{
    let count = book.len();
    day_at(edit, count)
}

/// Holds one place more behind a book.
fn hold_place(alloc: Global, book: &mut Vec<Txn>, day: Day) -> Result<(), Memory>
    ensures ok { OnOk result (book.new.items ≡ book.old.items ++ vacant_on day ∷ []) }
    ensures err { OnErr result (book.new.items ≡ book.old.items) }
{
    book.push(vacant(alloc, day))?;
    Ok(())
}

/// Holds the places of all transactions that are written behind a book.
fn make_room<V: ByNumber, W: ByNumber>(
    book: &mut Vec<Txn>,
    edit: &Edited<V, W>,
) -> Result<(), Memory>
    ensures ok { OnOk result (book.new.items ≡ with_room edit.now.written book.old.items) }
    ensures back { take (length book.old.items) book.new.items ≡ book.old.items }
{
    while let Some(day) = next_day(book, edit) {
        hold_place(edit.alloc(), book, day)?;
    }
    Ok(())
}

/// Takes the old form of an edited transaction out of a book and of what is kept. Its place is held.
fn leave_one(
    alloc: Global,
    book: &mut Vec<Txn>,
    kept: &mut Kept,
    spot: &Spot,
    olds: &mut Vec<Replaced>,
) -> Result<(), Memory>
    requires inside { spot.now.number < length book.old.items }
    requires olds { AllByRecursion (IsInside book.old.items) olds.old.items }
    requires sums { AreSums book.old.items kept.old }
    ensures leaves { OnOk result (Leaves spot.now book.old.items book.new.items kept.old kept.new
        olds.old.items olds.new.items) }
    ensures stays { OnErr result ((book.new.items ≡ book.old.items)
        × (olds.new.items ≡ olds.old.items)) }
{
    let number = spot.number as usize;
    let held = vacant(alloc, spot.day);
    leave_kept(alloc, kept, number, &book[number], &held)?;
    olds.push(Replaced {
        spot: *spot,
        txn: held,
    })?;
    swap_last(book, olds);
    Ok(())
}

/// Takes the old forms of all edited transactions out.
fn leave_all<V: ByNumber, W: ByNumber>(
    book: &mut Vec<Txn>,
    kept: &mut Kept,
    edit: &Edited<V, W>,
    spots: &[Spot],
    olds: &mut Vec<Replaced>,
) -> Result<(), Memory>
    requires spots { spots.now ≡ edit.now.spots }
    requires ready { CanLeave edit.now book.old.items kept.old }
    requires none { olds.old.items ≡ [] }
    ensures left { OnOk result (AreLeft edit.now book.old.items book.new.items kept.new edit.now.spots) }
    ensures back { put_back book.new.items olds.new.items ≡ book.old.items }
    ensures inside { AllByRecursion (IsInside book.new.items) olds.new.items }
{
    for spot in spots {
        leave_one(edit.alloc(), book, kept, spot, olds)?;
    }
    Ok(())
}

/// Walks in a book that has room for the edited transactions. Their old forms, which are taken out first, are told in any
/// case.
fn walk_left<V: ByNumber, W: ByNumber, L: Ledger>(
    book: &mut Vec<Txn>,
    kept: Kept,
    edit: &Edited<V, W>,
    reach: Reach,
    olds: &mut Vec<Replaced>,
    steps: &mut Steps<L>,
) -> Result<Walked, WalkFault>
    requires ready { IsReady edit.now book.old.items kept reach }
    requires none { olds.old.items ≡ [] }
    ensures walked { IfOk result (IsWalkedIn edit.now
        (with_vacants edit.now.spots book.old.items)) }
    ensures back { put_back book.new.items olds.new.items ≡ book.old.items }
    ensures inside { AllByRecursion (IsInside book.new.items) olds.new.items }
    ensures counted { IfOk result (λ w. AreChecked (length w.forms.items) steps.old steps.new) }
    ensures few { IfOk result (λ w. steps.new.nodes ≤ steps.old.nodes
        + nodes_on edit.now (spots_of w.forms.items)) }
    ensures read { steps.new.bytes_read ≡ steps.old.bytes_read }
    ensures load { IfErr result (λ fault. IsCause fault (CanNot edit.now)) }
    ensures most { ChecksFew edit.now steps.old steps.new }
{
    let mut left = kept;
    leave_all(book, &mut left, edit, edit.spots(), olds)?;
    let walking = Walking {
        kept: left,
        taken: Vec::new(edit.alloc()),
    };
    walk_all(book, edit, walking, reach, steps)
}

/// Walks in a book that has room for the edited transactions, whose old forms are taken out meanwhile.
fn walk_in_room<V: ByNumber, W: ByNumber, L: Ledger>(
    book: &mut Vec<Txn>,
    kept: &Kept,
    edit: &Edited<V, W>,
    reach: Reach,
    steps: &mut Steps<L>,
) -> Result<Walked, WalkFault>
    requires { IsReady edit.now book.old.items kept.now reach }
    ensures walked { IfOk result (IsWalkedIn edit.now
        (with_vacants edit.now.spots book.old.items)) }
    ensures stays { book.new.items ≡ book.old.items }
    ensures counted { IfOk result (λ w. AreChecked (length w.forms.items) steps.old steps.new) }
    ensures few { IfOk result (λ w. steps.new.nodes ≤ steps.old.nodes
        + nodes_on edit.now (spots_of w.forms.items)) }
    ensures read { steps.new.bytes_read ≡ steps.old.bytes_read }
    ensures load { IfErr result (λ fault. IsCause fault (CanNot edit.now)) }
    ensures most { ChecksFew edit.now steps.old steps.new }
{
    let copy = copied_kept(kept)?;
    let mut olds = Vec::new(edit.alloc());
    let outcome = walk_left(book, copy, edit, reach, &mut olds, steps);
    swap_back(book, &mut olds);
    outcome
}

/// Makes room and walks. What the book was stays in front of it.
fn walk_with_room<V: ByNumber, W: ByNumber, L: Ledger>(
    book: &mut Vec<Txn>,
    kept: &Kept,
    edit: &Edited<V, W>,
    reach: Reach,
    steps: &mut Steps<L>,
) -> Result<Walked, WalkFault>
    requires edited { IsEdited edit.now book.old.items }
    requires kept { IsKept book.old.items kept.now }
    requires symbols { HasSymbols edit.now.symbols book.old.items }
    requires begins { Begins edit.now reach }
    ensures walked { IfOk result (IsWalked edit.now book.old.items) }
    ensures back { take (length book.old.items) book.new.items ≡ book.old.items }
    ensures counted { IfOk result (λ w. AreChecked (length w.forms.items) steps.old steps.new) }
    ensures few { IfOk result (λ w. steps.new.nodes ≤ steps.old.nodes
        + nodes_on edit.now (spots_of w.forms.items)) }
    ensures read { steps.new.bytes_read ≡ steps.old.bytes_read }
    ensures load { IfErr result (λ fault. IsCause fault (CanNot edit.now)) }
    ensures most { ChecksFew edit.now steps.old steps.new }
{
    make_room(book, edit)?;
    walk_in_room(book, kept, edit, reach, steps)
}

/// The forms of all transactions that an edit reaches, in the order of their places: with them the book solves the text
/// after the edit, and so is the one that a load of it gives. All of them are taken out of the index first; then each is
/// solved anew by the sums at its place, from the index and the forms so far, and no other transaction is checked. What is
/// kept of the new book comes with them. The book is as it was afterwards. `Load` says that the whole text has to be loaded,
/// and that load answers. It comes only where the new text has no book, or one whose amounts have more than 36 decimals, or
/// where a reached transaction is mixed in it, or the old form of an edited one is dated, or a reached one stands on a day
/// beyond those that sums tell, or where the book has an amount that isn't zero in a symbol that isn't among the given ones.
/// Several transactions may be added or changed at once: only the text with all of these edits has to have a book.
pub fn walk<V: ByNumber, W: ByNumber, L: Ledger>(
    book: &mut Vec<Txn>,
    kept: &Kept,
    edit: &Edited<V, W>,
    steps: &mut Steps<L>,
) -> Result<Walked, WalkFault>
    requires edited { IsEdited edit.now book.old.items }
    requires kept { IsKept book.old.items kept.now }
    requires symbols { HasSymbols edit.now.symbols book.old.items }
    ensures walked { IfOk result (IsWalked edit.now book.old.items) }
    ensures stays { book.new.items ≡ book.old.items }
    // Each transaction that the edit reaches is checked once, the index is asked for the sums that it wants, and nothing is
    // read.
    ensures counted { IfOk result (λ w. AreChecked (length w.forms.items) steps.old steps.new) }
    ensures few { IfOk result (λ w. steps.new.nodes ≤ steps.old.nodes
        + nodes_on edit.now (spots_of w.forms.items)) }
    ensures read { steps.new.bytes_read ≡ steps.old.bytes_read }
    // Where some set is closed under what its members hand on, and the new text has a book in which none of them is mixed,
    // `Load` comes only where a symbol that this book moves isn't among the given ones: so the reached transactions of a plain
    // edit are solved here.
    ensures load { IfErr result (λ fault. IsCause fault (CanNot edit.now)) }
    // Whatever the answer is, no more transactions are checked than the edit reaches.
    ensures most { ChecksFew edit.now steps.old steps.new }
{
    let reach = begun(edit)?;
    let count = book.len();
    let outcome = walk_with_room(book, kept, edit, reach, steps);
    book.truncate(count);
    outcome
}
