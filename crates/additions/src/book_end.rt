//! What is kept of a book, and what bytes come to behind it and its text.
ghost use Rattle.std.specs.Prelude.{◌≡◌, ◌+◌, ◌≤◌, IfOk, IfSome, List, None, Ok, Some, length, map, true};
ghost use Rattle.hl_base.specs.Gives.{Gives};
ghost use Rattle.book.specs.Postings.{txns_of};
ghost use Rattle.book.specs.declared.transaction.Txn.{Txn as Entry};
ghost use Rattle.entry_balance.specs.Values.{Value};
ghost use Rattle.kept_turnover.specs.Keeping.{IsTurnover, are_told};
ghost use Rattle.text_ends.specs.Growth.{MayStand};
ghost use Rattle.text_ends.specs.Told.{told_behind};
ghost use Rattle.additions.specs.Coming as spec;
ghost use Rattle.additions.specs.Kept.{IsBookEnd};
ghost use Rattle.additions.specs.Meaning.{Means, cause_in};
ghost use Rattle.additions.specs.Words as words;

use crate::asking::{has_assigned, last_asked};
use crate::fault::AddFault;
use crate::firsts::{Parted, take_apart};
use crate::quiet::are_quiet;
use crate::settling::{Judged, have_sums, judge_items};
use crate::turning::turnover_with;
use book::{Fault, Placed, Txn};
use hl_base::{List, Memory, Steps};
use kept_turnover::Turnover;
use std::alloc::Global;
use std::sync::ledger::Ledger;
use text_ends::{Grown, KeptEnd};

/// What is kept of a book, so that entries are put behind it without looking at it: the last day on which it asks for a balance,
/// 0 where it doesn't; whether a posting is an assignment; and all that it moves.
#[derive(Drop)]
pub struct BookEnd {
    pub asked: u32,
    pub assigned: bool,
    pub turnover: Turnover,
}

/// Transactions that leave all others of a book as they are, as they stand behind it; and what is kept of the book with them.
#[derive(Drop)]
pub struct Plain {
    pub txns: List<Txn>,
    pub end: BookEnd,
}

/// What was read behind a text; and what comes behind its book, where all other transactions stay as they are.
#[derive(Drop)]
pub struct Added {
    pub grown: Grown,
    pub plain: Option<Plain>,
}

impl BookEnd {
    /// What is kept of a book whose costs can be told.
    pub fn of(alloc: Global, txns: &[Txn]) -> Result<BookEnd, Memory>
        requires { are_told txns.now ≡ true }
        ensures { IfOk result (IsBookEnd txns.now) }
    {
        let turnover = Turnover::of(alloc, txns)?;
        Ok(BookEnd {
            asked: last_asked(txns),
            assigned: has_assigned(txns),
            turnover,
        })
    }

    /// What bytes come to behind a text of whose end this is kept, and behind its book: what was read of them; and, where none of
    /// their transactions asks for a balance or counts for one that the book asks for, each has sums, and the whole stays in range,
    /// these as they stand in the book. The fault is that of the whole: of the first piece that doesn't read; or, under the same
    /// conditions, of the first group whose transaction doesn't balance, where the book has no assignments. Nothing where a
    /// directive stands in the bytes, before any fault. Only the bytes are read, and they are read once.
    pub fn comes_to<L: Ledger>(
        &self,
        alloc: Global,
        end: &KeptEnd,
        bytes: &[u8],
        steps: &mut Steps<L>,
    ) -> Result<Option<Added>, AddFault>
        requires { MayStand end.now bytes.now }
        ensures value { (moves : List Value) → IsTurnover self.now.turnover moves
            → Gives words.seen cause_in result
            (spec.comes_to end.now self.now.asked self.now.assigned moves bytes.now) }
        // What was read is told as it is.
        ensures told { IfOk result
            (λ o. IfSome o (λ a. told_behind end.now bytes.now ≡ Ok (Some a.grown))) }
        // A load of the whole gives what a load of the text gives, and this; or it has this fault.
        ensures means { Means end.now bytes.now self.now result }
        ensures read { steps.new.bytes_read ≤ steps.old.bytes_read + length bytes.now }
        ensures others { steps.new ≡ record steps.old { bytes_read = steps.new.bytes_read } }
    {
        let told = end.behind(alloc, bytes, steps)?;
        with_book(alloc, self, told)
    }
}

/// What was read, if that is told, with what comes behind a book.
fn with_book(alloc: Global, book: &BookEnd, told: Option<Grown>) -> Result<Option<Added>, AddFault>
    ensures value { (moves : List Value) → IsTurnover book.now.turnover moves
        → Gives words.seen cause_in result
        (spec.with_book book.now.asked book.now.assigned moves told) }
    ensures grown { IfOk result (λ o. IfSome o (λ a. told ≡ Some a.grown)) }
    ensures kept { IfOk result (λ o. IfSome o (λ a. IfSome a.plain (words.GoesOnAs book.now))) }
{
    match told {
        Some(grown) => added_with(alloc, book, grown),
        None => Ok(None),
    }
}

/// What was read, with what comes behind a book.
fn added_with(alloc: Global, book: &BookEnd, grown: Grown) -> Result<Option<Added>, AddFault>
    ensures value { (moves : List Value) → IsTurnover book.now.turnover moves
        → Gives words.seen cause_in result
        (spec.with_book book.now.asked book.now.assigned moves (Some grown)) }
    ensures grown { IfOk result (λ o. IfSome o (λ a. a.grown ≡ grown)) }
    ensures kept { IfOk result (λ o. IfSome o (λ a. IfSome a.plain (words.GoesOnAs book.now))) }
{
    let plain = added_to_book(alloc, book, grown.items.as_slice())?;
    Ok(Some(Added { grown, plain }))
}

/// What the transactions of some items come to behind a book; nothing where others may change with them.
fn added_to_book(alloc: Global, book: &BookEnd, items: &[Placed]) -> Result<Option<Plain>, AddFault>
    ensures value { (moves : List Value) → IsTurnover book.now.turnover moves
        → Gives words.plain_txns cause_in result
        (spec.added_to_book book.now.asked book.now.assigned moves (txns_of items.now)) }
    ensures kept { IfOk result (λ o. IfSome o (words.GoesOnAs book.now)) }
{
    let quiet = are_quiet(book.asked, items);
    if !quiet {
        return Ok(None);
    }
    let all = judge_items(alloc, items)?;
    let summed = have_sums(&all);
    if !summed {
        return Ok(None);
    }
    judged_behind(alloc, book, all)
}

/// What transactions that ask for nothing and have sums come to behind a book.
fn judged_behind(alloc: Global, book: &BookEnd, all: Vec<Judged>) -> Result<Option<Plain>, AddFault>
    requires { words.HaveCosts all.items }
    ensures value { (moves : List Value) (written : List Entry)
        → IsTurnover book.now.turnover moves → words.AreSummed written all.items
        → Gives words.plain_txns cause_in result (spec.put_apart book.now.assigned moves written) }
    ensures kept { IfOk result (λ o. IfSome o (words.GoesOnAs book.now)) }
{
    let turnover = turnover_with(alloc, &book.turnover, &all)?;
    let fits = turnover.fits();
    if !fits {
        return Ok(None);
    }
    put_apart(alloc, book, turnover, all)
}

/// The transactions with this turnover of the book with them, or the first fault among them.
fn put_apart(
    alloc: Global,
    book: &BookEnd,
    turnover: Turnover,
    all: Vec<Judged>,
) -> Result<Option<Plain>, AddFault>
    ensures value { (written : List Entry) → words.AreSummed written all.items
        → Gives words.plain_txns cause_in result
        (spec.unless_unbalanced book.now.assigned written (spec.first_unbalanced written)) }
    ensures end { IfOk result (λ o. IfSome o (words.EndsAs book.now turnover)) }
    ensures txns { IfOk result (λ o. IfSome o (λ p. p.txns ≡ map (λ j. j.txn) all.items)) }
{
    let Parted { txns, first } = take_apart(alloc, all)?;
    match first {
        Some(first) => refused(book.assigned, first.fault),
        None => Ok(Some(Plain {
            txns,
            end: BookEnd {
                asked: book.asked,
                assigned: book.assigned,
                turnover,
            },
        })),
    }
}

/// The fault of a transaction that doesn't balance, where the book has no assignments.
fn refused(assigned: bool, fault: Fault) -> Result<Option<Plain>, AddFault>
    ensures value { Gives words.plain_txns cause_in result (spec.refused assigned fault) }
    ensures none { IfOk result (λ o. o ≡ None) }
{
    if assigned {
        Ok(None)
    } else {
        Err(AddFault::Load(fault))
    }
}
