//! One reached transaction, solved at its place.
ghost use Rattle.std.specs.Prelude.{◌≡◌, ◌+◌, ◌^◌, ◌<◌, ◌≤◌, false, true, List, Ok, IfErr, IfOk, OnOk};
ghost use Rattle.book.specs.declared.transaction.Txn.{Txn};
ghost use Rattle.placed_checks.specs.Judging.{IsJudged};
ghost use Rattle.placed_checks.specs.declared.judge.Judged.TheVariants as judgements;
ghost use Rattle.walked_edits.specs.Causes.{Answers};
ghost use Rattle.walked_edits.specs.Counting.{IsCounted, nodes_of};
ghost use Rattle.walked_edits.specs.Keeping.{TellSums};
ghost use Rattle.walked_edits.specs.Solving as spec;
ghost use Rattle.walked_edits.specs.Solving.{ComesTo, IsFormOf, place_at};
ghost use Rattle.walked_edits.specs.Walking.{IsFound};

use crate::fault::WalkFault;
use crate::kept::Kept;
use crate::symbols::are_known;
use balancing::CheckFault;
use book::Txn;
use hl_base::{Steps, Text};
use placed_checks::{Judged, check_placed};
use placed_sums::SumsAt;
use reached_walk::{Spot, is_dated};
use std::alloc::Global;
use std::sync::ledger::Ledger;

/// Whether a form stands at a place with all its postings.
pub(crate) fn is_at(spot: Spot, txn: &Txn) -> bool
    ensures { result ≡ spec.is_at spot txn.now }
{
    txn.day.0 == spot.day.0 && !is_dated(txn)
}

/// Whether a form that was found can be put into a book.
fn is_fit(symbols: &[Text], spot: Spot, txn: &Txn) -> bool
    ensures { result ≡ spec.is_fit symbols.now spot txn.now }
{
    is_at(spot, txn) && are_known(symbols, txn)
}

/// Whether a written transaction stands at a place, on a day that sums reach.
fn is_near(spot: Spot, written: &Txn) -> bool
    ensures { result ≡ spec.is_near spot written.now }
{
    written.day.0 == spot.day.0 && spot.day.0 < 4_194_304
}

/// What a transaction is solved by: a book, what is kept of it, and symbols among which are all of its.
#[derive(Drop)]
pub(crate) struct SolvedBy<'a> {
    pub(crate) alloc: Global,
    pub(crate) book: &'a Vec<Txn>,
    pub(crate) kept: &'a Kept,
    pub(crate) symbols: &'a [Text],
}

/// What the check of a written transaction at a place comes to. Where a book solves it there, that is what it has.
fn judged_at<L: Ledger>(
    by: &SolvedBy,
    written: Txn,
    spot: Spot,
    steps: &mut Steps<L>,
) -> Result<Judged, CheckFault>
    requires tell { TellSums by.now.symbols.now by.now.book.now.items by.now.kept.now spot }
    requires near { spot.day.0 < 2 ^ 22 }
    ensures judged { IfOk result (IsJudged by.now.book.now.items (place_at spot) written) }
    ensures comes { (after : List Txn) (solved : Txn)
        → IsFormOf by.now.book.now.items after spot written solved → ComesTo solved result }
    ensures counted { IsCounted steps.old steps.new }
    ensures few { OnOk result (steps.new.nodes ≤ steps.old.nodes
        + nodes_of by.now.symbols.now written) }
{
    let number = spot.number as usize;
    let earlier = by.kept.days.before(spot.day, number);
    let sums = SumsAt::new(
        &by.kept.index,
        by.book,
        earlier,
        by.symbols,
        spot.day,
        number,
    );
    check_placed(by.alloc, written, &sums, steps)
}

/// The form of a written transaction at a place, by what a book has before it. Where another book solves it there, that is
/// what it has, unless it has other symbols than those that are known.
pub(crate) fn solved_at<L: Ledger>(
    by: &SolvedBy,
    written: Txn,
    spot: Spot,
    steps: &mut Steps<L>,
) -> Result<Txn, WalkFault>
    requires { TellSums by.now.symbols.now by.now.book.now.items by.now.kept.now spot }
    ensures found { IfOk result (IsFound by.now.symbols.now by.now.book.now.items spot written) }
    ensures answers { (after : List Txn) (solved : Txn) → spec.is_near spot written ≡ true
        → IsFormOf by.now.book.now.items after spot written solved
        → Answers solved (spec.is_fit by.now.symbols.now spot solved ≡ false) result }
    ensures counted { OnOk result (IsCounted steps.old steps.new) }
    ensures few { OnOk result (steps.new.nodes ≤ steps.old.nodes
        + nodes_of by.now.symbols.now written) }
    ensures read { steps.new.bytes_read ≡ steps.old.bytes_read }
    ensures most { steps.new.checked ≤ steps.old.checked + 1 }
{
    if !is_near(spot, &written) {
        return Err(WalkFault::Load);
    }
    let judged = judged_at(by, written, spot, steps)?;
    let form = form_of(judged)?;
    if is_fit(by.symbols, spot, &form) {
        Ok(form)
    } else {
        Err(WalkFault::Load)
    }
}

/// The form that was solved.
fn form_of(judged: Judged) -> Result<Txn, WalkFault>
    ensures solved { IfOk result (λ form. judged ≡ judgements.Solved form) }
    ensures answers { (solved : Txn) → judged ≡ judgements.Solved solved → Answers solved ⊥ result }
{
    match judged {
        Judged::Solved(form) => Ok(form),
        Judged::Mixed(_) => Err(WalkFault::Load),
    }
}
