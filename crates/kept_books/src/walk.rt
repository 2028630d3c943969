//! The walk of an edit.
ghost use Rattle.std.specs.Prelude.{◌≡◌, ◌+◌, ◌++◌, ◌<◌, ◌≤◌, IfErr, IfOk, length};
ghost use Rattle.book.specs.Postings.{txns_of};
ghost use Rattle.balancing.specs.Solves.{Solves};
ghost use Rattle.placed_sums.specs.Accounts.{HasSymbols};
ghost use Rattle.walked_edits.specs.Causes.{CanNot, IsCause};
ghost use Rattle.walked_edits.specs.Counting.{nodes_on};
ghost use Rattle.walked_edits.specs.Counting.{ChecksFew as ChecksMost};
ghost use Rattle.walked_edits.specs.Forms.{spots_of};
ghost use Rattle.walked_edits.specs.Keeping.{IsKept};
ghost use Rattle.walked_edits.specs.Scenes.{IsEdited};
ghost use Rattle.walked_edits.specs.Walking.{IsWalked};
ghost use Rattle.kept_books.specs.Beginning.{lent, renewed_in, scene_of};
ghost use Rattle.kept_books.specs.Counting.{AsksWritten, ChecksFew};
ghost use Rattle.kept_books.specs.Keeping.{AreWalks};
ghost use Rattle.kept_books.specs.Reaching.{HasNoPlainReach};
ghost use Rattle.kept_books.specs.Rewriting.{MayRewrite, edit_by, meant};
ghost use Rattle.kept_books.specs.Walking.{IsWalk};
ghost use Rattle.kept_books.specs.Writing.{AreSymbolsOf, symbols_written};

use crate::beginning::{Begun, walk_begun};
use crate::keeping::symbols_kept;
use crate::rewriting::Rewriting;
use crate::walks::Walks;
use book::{Placed, Txn};
use hl_base::{Memory, Steps};
use std::alloc::Global;
use std::sync::ledger::Ledger;
use walked_edits::{Edited, Kept, Replaced, WalkFault, Walked, walk};

/// What a walk of an edit tells: the forms of all transactions that the edit reaches, in the order of their places, and what a walk
/// asks of the book that has them.
#[derive(Drop)]
pub struct Walk {
    pub forms: Vec<Replaced>,
    pub walks: Walks,
}

/// The walk itself.
fn walk_from<L: Ledger>(
    alloc: Global,
    kept: &Kept,
    begun: &Begun,
    book: &mut Vec<Txn>,
    steps: &mut Steps<L>,
) -> Result<Walked, WalkFault>
    requires edited { IsEdited (scene_of begun.now) book.old.items }
    requires kept { IsKept book.old.items kept.now }
    requires symbols { HasSymbols begun.now.symbols book.old.items }
    ensures walked { IfOk result (IsWalked (scene_of begun.now) book.old.items) }
    ensures stays { book.new.items ≡ book.old.items }
    ensures few { IfOk result (λ w. steps.new.nodes ≤ steps.old.nodes
        + nodes_on (scene_of begun.now) (spots_of w.forms.items)) }
    ensures read { steps.new.bytes_read ≡ steps.old.bytes_read }
    ensures load { IfErr result (λ fault. IsCause fault (CanNot (scene_of begun.now))) }
    ensures most { ChecksMost (scene_of begun.now) steps.old steps.new }
{
    let edit = Edited::new(
        alloc,
        begun.spots.as_slice(),
        &begun.renewal.former,
        &begun.renewal,
        &begun.watchers,
        begun.symbols.as_slice(),
    );
    walk(book, kept, &edit, steps)
}

/// What a walk tells that came to its end, with the symbols of the new text.
fn walk_of(alloc: Global, begun: Begun, walked: Walked) -> Result<Walk, Memory>
    requires alone { begun.renewal.first < length begun.renewal.former.txns.items
        → length begun.renewal.forms.txns.items ≡ 1 }
    requires both { begun.symbols
        ≡ symbols_written (lent begun.renewal.former ++ renewed_in begun.renewal) }
    ensures forms { IfOk result (λ w. w.forms ≡ walked.forms) }
    ensures kept { IfOk result (λ w. w.walks.kept ≡ walked.kept) }
    ensures watchers { IfOk result (λ w. w.walks.watchers ≡ begun.entry.watchers) }
    ensures symbols { IfOk result (λ w.
        AreSymbolsOf (renewed_in begun.entry.renewal) w.walks.symbols) }
{
    let Begun {
        renewal,
        spots: _,
        watchers,
        symbols,
    } = begun;
    let Walked { forms, kept } = walked;
    let symbols = symbols_kept(alloc, &renewal, symbols)?;
    Ok(Walk {
        forms,
        walks: Walks {
            kept,
            watchers,
            symbols,
        },
    })
}

/// The forms of all transactions that an edit of the transactions of some items reaches: with them the book, with room for those that
/// are put behind, solves what is written then. What a walk asks of that book comes with them, and the book is as it was afterwards.
/// `Load` says that the whole text has to be loaded, and that load answers. It comes only where no set of transactions is closed
/// under what its members hand on and has none that is mixed in a book of the new text, or where the edit replaces a dated
/// transaction.
pub fn walk_rewritten<L: Ledger>(
    alloc: Global,
    walks: &Walks,
    items: &[Placed],
    rewriting: &Rewriting,
    book: &mut Vec<Txn>,
    steps: &mut Steps<L>,
) -> Result<Walk, WalkFault>
    requires walks { AreWalks (txns_of items.now) book.old.items walks.now }
    requires solves { Solves (txns_of items.now) book.old.items }
    requires may { MayRewrite (txns_of items.now) (meant rewriting.now) }
    ensures walk { IfOk result (IsWalk (txns_of items.now) book.old.items (meant rewriting.now)) }
    ensures stays { book.new.items ≡ book.old.items }
    // Whatever the answer is, no more transactions are checked than the edit reaches.
    ensures few { ChecksFew
        (edit_by (txns_of items.now) (meant rewriting.now)) steps.old steps.new }
    ensures nodes { IfOk result (λ _. AsksWritten
        (edit_by (txns_of items.now) (meant rewriting.now)) steps.old steps.new) }
    ensures read { steps.new.bytes_read ≡ steps.old.bytes_read }
    ensures load { IfErr result (λ fault. IsCause fault
        (HasNoPlainReach (edit_by (txns_of items.now) (meant rewriting.now)))) }
{
    let begun = walk_begun(alloc, walks, items, rewriting)?;
    let walked = walk_from(alloc, &walks.kept, &begun, book, steps)?;
    let told = walk_of(alloc, begun, walked)?;
    Ok(told)
}
