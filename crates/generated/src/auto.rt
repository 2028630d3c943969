//! The book of a text with the postings that its automated rules add.
ghost use Rattle.std.specs.Prelude.{◌≡◌, map, IfOk};
ghost use Rattle.hl_base.specs.Gives.{Gives};
ghost use Rattle.hl_time.specs.Calendar.{IsDay};
ghost use Rattle.book.specs.Postings.{txns_of};
ghost use Rattle.query.specs.OwnLetters.{own_in};
ghost use Rattle.generated.specs.Added as added;
ghost use Rattle.generated.specs.Asking.{AllAnswer, AreQueries, all_asked};
ghost use Rattle.generated.specs.Auto as spec;
ghost use Rattle.generated.specs.Judged as judging;
ghost use Rattle.generated.specs.Refusals.{cause_of};
ghost use Rattle.generated.specs.Queries as queries;
ghost use Rattle.generated.specs.Remembering.{AreReady};

use crate::adding::{all_with_added, count_added};
use crate::asking::{Asker, askers_of};
use crate::fault::{GenFault, too_many};
use crate::judging::{judged, place_all};
use crate::remembering::{Accounts, Remembered, remember_all};
use crate::rules::{RuleQuery, read_rules};
use book::{Book, Items, Placed, Txn};
use hl_base::Memory;
use hl_time::Day;
use query::{Maker, Types, means_its_terms};
use rule_entries::posting_excess;
use std::alloc::Global;

/// A text's book with the postings that its automated rules add: behind each posting what the rules that mean it make of
/// theirs, in the order of the rules. Postings that rules add are asked by none. Days in the rules' words are counted from
/// the given one, a day of the calendar. The book is judged as that of a text; amounts that were assigned in it stay. The
/// causes come in this order: the first rule that has a word which is no term, or a pattern that the maker refuses, and only
/// where it counts that; `TooMany`, where more than 1,000,000 postings would be added; `Journal`, with the fault of the
/// first group that has one.
pub fn with_auto<M: Maker>(
    alloc: Global,
    items: &Items,
    book: &Book,
    day: Day,
    maker: &mut M,
) -> Result<Book, GenFault>
    requires { IsDay day.0 }
    ensures { spec.Autos day.0 items.now book.now.txns (M.refusals maker.old) (M.refusals maker.new)
        (M.last_refused maker.old) (M.last_refused maker.new) result }
{
    means_its_terms();
    let txns = book.txns.as_slice();
    match read_rules(alloc, items, day, maker) {
        Ok(reads) => {
            let rules = reads.as_slice();
            book_with(alloc, items, txns, rules)
        }
        Err(fault) => Err(fault),
    }
}

/// The book of some transactions with what rules add to them.
fn book_with(
    alloc: Global,
    items: &Items,
    txns: &[Txn],
    reads: &[RuleQuery<'_>],
) -> Result<Book, GenFault>
    requires { AreQueries reads.now }
    ensures { Gives (λ book. book) cause_of result
        (spec.book_with (spec.letters_of items.now) (map queries.asked_by reads.now) txns.now) }
{
    match Types::new(alloc, items) {
        Ok(types) => ask_with(alloc, &types, txns, reads),
        Err(Memory) => Err(GenFault::Memory),
    }
}

/// The same by the letters of accounts.
fn ask_with(
    alloc: Global,
    types: &Types,
    txns: &[Txn],
    reads: &[RuleQuery<'_>],
) -> Result<Book, GenFault>
    requires { AreQueries reads.now }
    ensures { Gives (λ book. book) cause_of result
        (spec.book_with (own_in types.now) (map queries.asked_by reads.now) txns.now) }
{
    match askers_of(alloc, reads) {
        Ok(mut askers) => ask_all(alloc, types, txns, &mut askers),
        Err(Memory) => Err(GenFault::Memory),
    }
}

/// The book of some transactions with what rules that are asked add to them. What asks for accounts alone is asked once an
/// account.
fn ask_all(
    alloc: Global,
    types: &Types,
    txns: &[Txn],
    askers: &mut [Asker<'_>],
) -> Result<Book, GenFault>
    requires { AllAnswer askers.old }
    ensures { Gives (λ book. book) cause_of result
        (spec.book_with (own_in types.now) (all_asked askers.old) txns.now) }
{
    match remember_all(alloc, askers, types, txns) {
        Ok(kept) => ask_kept(alloc, types, &kept, txns, askers),
        Err(Memory) => Err(GenFault::Memory),
    }
}

/// The same with what is remembered of accounts.
fn ask_kept(
    alloc: Global,
    types: &Types,
    kept: &Remembered,
    txns: &[Txn],
    askers: &mut [Asker<'_>],
) -> Result<Book, GenFault>
    requires { AreReady askers.old kept.now }
    ensures { Gives (λ book. book) cause_of result
        (spec.book_with (own_in types.now) (all_asked askers.old) txns.now) }
{
    let accounts = Accounts { types, kept };
    ask_ready(alloc, &accounts, txns, askers)
}

/// The same, unless it is too much.
fn ask_ready(
    alloc: Global,
    accounts: &Accounts<'_>,
    txns: &[Txn],
    askers: &mut [Asker<'_>],
) -> Result<Book, GenFault>
    requires { AreReady askers.old accounts.now.kept.now }
    ensures { Gives (λ book. book) cause_of result
        (spec.book_with (own_in accounts.now.types.now) (all_asked askers.old) txns.now) }
{
    match posting_excess(count_added(askers, accounts, txns)) {
        Some(excess) => Err(too_many(excess)),
        None => add_all(alloc, accounts, txns, askers),
    }
}

/// The same where that isn't too much.
fn add_all(
    alloc: Global,
    accounts: &Accounts<'_>,
    txns: &[Txn],
    askers: &mut [Asker<'_>],
) -> Result<Book, GenFault>
    requires { AreReady askers.old accounts.now.kept.now }
    ensures { Gives (λ book. book) cause_of result
        (judging.told_book (judging.judged
        (map (added.with_added (own_in accounts.now.types.now) (all_asked askers.old)) txns.now))) }
{
    match added_items(alloc, accounts, txns, askers) {
        Ok(placed) => judged(alloc, placed),
        Err(Memory) => Err(GenFault::Memory),
    }
}

/// Some transactions with what rules add to them, as items.
fn added_items(
    alloc: Global,
    accounts: &Accounts<'_>,
    txns: &[Txn],
    askers: &mut [Asker<'_>],
) -> Result<Vec<Placed>, Memory>
    requires { AreReady askers.old accounts.now.kept.now }
    ensures { IfOk result (λ placed. txns_of placed.items
        ≡ map (added.with_added (own_in accounts.now.types.now) (all_asked askers.old)) txns.now) }
{
    let mut placed = Vec::new(alloc);
    let txns = all_with_added(alloc, askers, accounts, txns)?;
    place_all(&mut placed, txns)?;
    Ok(placed)
}
