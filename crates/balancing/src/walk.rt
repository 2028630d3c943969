//! The check of a text's items, which makes its book.
ghost use Rattle.std.specs.List.{list_all, slice_get};
ghost use Rattle.std.specs.Prelude.{◌≡◌, ◌||◌, ◌++◌, ◌∷◌, [], ◌<◌, List, ℕ, length, slice_set, true, false, Some, None, OnOk, IfOk, IfErr, IfSome};
ghost use Rattle.hl_base.specs.Gives.{Gives};
ghost use Rattle.book.specs.Bounds.{TurnoverFits};
ghost use Rattle.book.specs.Postings.{postings_of, txns_of};
ghost use Rattle.book.specs.declared.transaction.Posting.{Posting};
ghost use Rattle.book.specs.declared.transaction.Txn.{Txn};
ghost use Rattle.entry_balance.specs.Entry.{moved, with_postings};
ghost use Rattle.entry_balance.specs.Tally.{turnover_fits, IsRange};
ghost use Rattle.balancing.specs.Assigned.{whole, assigned_by, given_from_by, given_postings_by, is_ready};
ghost use Rattle.balancing.specs.Check.{cause_in};
ghost use Rattle.balancing.specs.Claims.{AreClaimed};
ghost use Rattle.balancing.specs.Faults.{IsFaultIf};
ghost use Rattle.balancing.specs.Back.{IsKept, txns_back, causes_back};
ghost use Rattle.balancing.specs.Entering.{entering};
ghost use Rattle.balancing.specs.Groups.{Group, groups_of};
ghost use Rattle.balancing.specs.Load.{book_of, carries_sum, told_by, told_if, load};
ghost use Rattle.balancing.specs.Solves.{IsSolution, HaveFew, are_unmarked};
ghost use Rattle.entry_balance.specs.Settled.{AreSettled, IsSettled};
ghost use Rattle.assertions.specs.Kept.{IsBalance, are_asked, is_asked};
ghost use Rattle.balancing.specs.Wanting.{any_wanted, has_wanted, wants};
ghost use Rattle.balancing.specs.Walk.{IsRead, IsTold, AreOwn, IsOwn, IsGiven, IsVisited, IsPassed, group_in};
ghost use Rattle.entry_balance.specs.Turnover.{IsTurnover};
ghost use Rattle.entry_balance.specs.Values.{Value};

use crate::assign::assign;
use crate::claims::claim_group;
use crate::fault::CheckFault;
use crate::form::Form;
use crate::groups::{Group, in_order, note_groups};
use crate::judge::judge;
use crate::moves::Moves;
use crate::written::{Written, keep, put_back};
use assertions::{Balances, asked};
use book::{Book, Boxed, Cause, Fault, Item, Items, Placed, Posting, Txn, copied_txn};
use entry_balance::{Settled, TallyFault, is_assignable, settle};
use hl_base::{List, Memory};
use std::alloc::Global;

/// The book of a text's items: its transactions in their order, each balanced. Else the fault of the first group, by
/// day and then by transaction, that has one, a group being the postings of one transaction on one day: two missing
/// amounts, or an assignment that can't be made; a turnover through this group of 2^127 or more in some symbol; sums
/// that aren't zero; or an assertion that fails just after its posting. The line is that of the posting for an
/// assertion, and else that of the transaction's head.
pub fn check(alloc: Global, items: Items) -> Result<Book, CheckFault>
    ensures answer { Gives (λ book. book) cause_in result (load items) }
    ensures fits { IfOk result (λ book. TurnoverFits (postings_of book.txns)) }
    ensures few { IfOk result (λ book. HaveFew book.txns) }
    ensures solves { IfOk result (λ book. IsSolution (txns_of items) book.txns) }
    ensures fault { IfErr result (λ e. are_unmarked (txns_of items) ≡ true
        → IsFaultIf (txns_of items) (cause_in e)) }
{
    let Entries {
        mut txns,
        mut causes,
        groups,
        asks,
    } = match settle_items(alloc, items) {
        Ok(entries) => entries,
        Err(Memory) => return Err(CheckFault::Memory),
    };
    let groups = match in_order(alloc, groups) {
        Ok(groups) => groups,
        Err(Memory) => return Err(CheckFault::Memory),
    };
    let kept = Vec::new(alloc);
    let mut making = Making {
        form: Form::Shortened,
        kept,
    };
    match first_fault(alloc, &mut making, &mut txns, &mut causes, &groups, asks) {
        Ok(None) => Ok(Book {
            txns: List::from_vec(txns),
        }),
        Ok(Some(fault)) => {
            let entries = Entries {
                txns,
                causes,
                groups,
                asks,
            };
            Err(told(alloc, fault, making.kept, entries))
        }
        Err(Memory) => Err(CheckFault::Memory),
    }
}

/// The fault that is told in place of one, by what is kept of the transactions as they are written: itself, or where it
/// carries a sum the one that has all its decimals.
fn told(alloc: Global, fault: Fault, kept: Vec<Written>, entries: Entries) -> CheckFault
    requires { entries.asks ≡ false → any_wanted (txns_back kept.items entries.txns.items) ≡ false }
    ensures { IfSome (cause_in result) (λ told. (written : List Txn)
        → AreSettled written (txns_back kept.items entries.txns.items)
        (causes_back kept.items entries.causes.items)
        → entries.groups.items ≡ groups_of written
        → told ≡ told_by fault (book_of (assigned_by whole written))) }
{
    if carries_sum(&fault) {
        told_whole(alloc, fault, kept, entries)
    } else {
        CheckFault::Journal(fault)
    }
}

/// Whether a fault carries a sum.
fn carries_sum(fault: &Fault) -> bool
    ensures { result ≡ carries_sum fault.now.cause }
{
    matches!(
        &fault.cause,
        Cause::Unbalanced { .. } | Cause::AssertionFailed { .. }
    )
}

/// The fault of the walk in which sums enter assigned amounts whole, in place of one.
fn told_whole(alloc: Global, fault: Fault, kept: Vec<Written>, entries: Entries) -> CheckFault
    requires { entries.asks ≡ false → any_wanted (txns_back kept.items entries.txns.items) ≡ false }
    ensures { IfSome (cause_in result) (λ told. (written : List Txn)
        → AreSettled written (txns_back kept.items entries.txns.items)
        (causes_back kept.items entries.causes.items)
        → entries.groups.items ≡ groups_of written
        → told ≡ told_if true fault (book_of (assigned_by whole written))) }
{
    let Entries {
        mut txns,
        mut causes,
        groups,
        asks,
    } = entries;
    put_back(&mut txns, &mut causes, kept);
    let mut making = Making {
        form: Form::Whole,
        kept: Vec::new(alloc),
    };
    match first_fault(alloc, &mut making, &mut txns, &mut causes, &groups, asks) {
        Ok(Some(told)) => CheckFault::Journal(told),
        Ok(None) => CheckFault::Journal(fault),
        Err(Memory) => CheckFault::Memory,
    }
}

/// The transactions of a text with what balancing finds, what is wrong with each, their groups, and whether some posting has
/// an assertion.
#[derive(Drop)]
struct Entries {
    txns: Vec<Txn>,
    causes: Vec<Option<Boxed<Cause>>>,
    groups: Vec<Group>,
    asks: bool,
}

/// Settles each transaction of a text.
fn settle_items(alloc: Global, items: Items) -> Result<Entries, Memory>
    ensures read { IfOk result (λ entries.
        IsRead (txns_of items) entries.txns.items entries.causes.items entries.groups.items) }
    ensures asks { IfOk result (λ entries. entries.asks ≡ any_wanted entries.txns.items) }
{
    let count = items.len();
    let mut entries = Entries {
        txns: Vec::with_capacity(alloc, count)?,
        causes: Vec::with_capacity(alloc, count)?,
        groups: Vec::with_capacity(alloc, count)?,
        asks: false,
    };
    for placed in items.into_vec() {
        let Placed { piece: _, item } = placed;
        if let Item::Txn(txn) = item {
            settle_txn(alloc, &mut entries, txn)?;
        }
    }
    Ok(entries)
}

/// Settles one more transaction.
fn settle_txn(alloc: Global, entries: &mut Entries, txn: Txn) -> Result<(), Memory>
    ensures read { OnOk result ((written : List Txn)
        → IsRead written entries.old.txns.items entries.old.causes.items entries.old.groups.items
        → IsRead (written ++ txn
        ∷ []) entries.new.txns.items entries.new.causes.items entries.new.groups.items) }
    ensures asks { OnOk result (entries.old.asks ≡ any_wanted entries.old.txns.items
        → entries.new.asks ≡ any_wanted entries.new.txns.items) }
{
    let number = entries.txns.len();
    note_groups(&mut entries.groups, &txn, number)?;
    let settled = settle(alloc, txn)?;
    entries.asks = asks_with(entries.asks, settled.txn.postings.as_slice());
    entries.txns.push(settled.txn)?;
    entries.causes.push(settled.cause)?;
    Ok(())
}

/// Whether a posting has an assertion.
fn wants(posting: &Posting) -> bool
    ensures { result ≡ wants posting.now }
{
    posting.wanted.is_some()
}

/// Whether some posting has an assertion.
fn has_wanted(postings: &[Posting]) -> bool
    ensures { result ≡ has_wanted postings.now }
{
    postings.iter().any(wants)
}

/// Whether some posting has an assertion, one before or one of these.
fn asks_with(before: bool, postings: &[Posting]) -> bool
    ensures { result ≡ (before || has_wanted postings.now) }
{
    before || has_wanted(postings)
}

/// The balances of all that the assertions of some transactions ask for. Where they have none, no posting is looked at.
fn balances_of(alloc: Global, txns: &[Txn], asks: bool) -> Result<Balances, Memory>
    requires { asks ≡ false → any_wanted txns.now ≡ false }
    ensures fresh { IfOk result (λ balances. IsBalance [] balances.own balances.below) }
    ensures asked { IfOk result (λ balances.
        are_asked balances.own balances.below txns.now ≡ true) }
{
    if asks {
        return asked(alloc, txns);
    }
    Ok(Balances::new(alloc))
}

/// How assignments are made, and the transactions that had some, as they were before.
#[derive(Drop)]
struct Making {
    form: Form,
    kept: Vec<Written>,
}

/// The fault of the first group that has one, where the assignments of each group are made after the groups before it.
/// What is kept then leads back to the transactions before.
fn first_fault(
    alloc: Global,
    making: &mut Making,
    txns: &mut Vec<Txn>,
    causes: &mut Vec<Option<Boxed<Cause>>>,
    groups: &[Group],
    asks: bool,
) -> Result<Option<Fault>, Memory>
    requires { asks ≡ false → any_wanted txns.old.items ≡ false }
    ensures told { IfOk result (λ fault. (written : List Txn)
        → AreSettled written txns.old.items causes.old.items → AreOwn written groups.now
        → IsTold (given_from_by (entering making.old.form) written [] groups.now) txns.new.items
        causes.new.items groups.now fault) }
    ensures back { OnOk result (IsKept making.old.kept.items txns.old.items causes.old.items
        making.new.kept.items txns.new.items causes.new.items) }
{
    let mut totals = Moves::new(alloc);
    let mut balances = balances_of(alloc, txns.as_slice(), asks)?;
    for group in groups {
        let given = give(alloc, making, &balances, txns, causes, *group)?;
        if given.is_some() {
            return Ok(given);
        }
        let fault = pass_given(alloc, &mut totals, &mut balances, txns, causes, *group)?;
        if fault.is_some() {
            return Ok(fault);
        }
    }
    Ok(None)
}

/// Makes the assignments of a group's transaction, if it has some that can be made, and keeps it as it was. `range` where
/// they or the sums of the accounts that they ask for are out of range.
fn give(
    alloc: Global,
    making: &mut Making,
    balances: &Balances,
    txns: &mut Vec<Txn>,
    causes: &mut Vec<Option<Boxed<Cause>>>,
    group: Group,
) -> Result<Option<Fault>, Memory>
    ensures given { IfOk result (λ fault. (written : List Txn) (seen : List Posting)
        → AreSettled written txns.old.items causes.old.items
        → IsOwn group.0 (slice_get written group.1)
        → IsBalance seen balances.now.own balances.now.below
        → are_asked balances.now.own balances.now.below txns.old.items ≡ true
        → IsGiven (entering making.old.form) written seen group balances.now.own balances.now.below
        txns.new.items causes.new.items fault) }
    ensures form { OnOk result (making.new.form ≡ making.old.form) }
    ensures back { OnOk result (IsKept making.old.kept.items txns.old.items causes.old.items
        making.new.kept.items txns.new.items causes.new.items) }
{
    let (_day, number) = group;
    if txns.len() <= number || causes.len() <= number {
        return Ok(None);
    }
    let written = &txns[number];
    if !is_assignable(written.postings.as_slice()) {
        return Ok(None);
    }
    let txn = copied_txn(alloc, written)?;
    let line = txn.line;
    keep(alloc, &mut making.kept, txns, causes, number)?;
    match given(alloc, making.form, balances, txn) {
        Ok(settled) => {
            put_settled(txns, causes, number, settled);
            Ok(None)
        }
        Err(TallyFault::Range) => Ok(Some(Fault {
            line,
            cause: Cause::Range,
        })),
        Err(TallyFault::Memory) => Err(Memory),
    }
}

/// Puts a transaction that was settled, and what is wrong with it, into their places.
fn put_settled(
    txns: &mut Vec<Txn>,
    causes: &mut Vec<Option<Boxed<Cause>>>,
    number: usize,
    settled: Settled,
)
    requires txns { number < length txns.old.items }
    requires causes { number < length causes.old.items }
    ensures txns { txns.new.items ≡ slice_set txns.old.items number settled.txn }
    ensures causes { causes.new.items ≡ slice_set causes.old.items number settled.cause }
{
    let Settled { txn, cause } = settled;
    txns[number] = txn;
    causes[number] = cause;
}

/// A transaction with its assignments made, and what balancing finds for it then.
fn given(alloc: Global, form: Form, balances: &Balances, txn: Txn) -> Result<Settled, TallyFault>
    ensures given { IfOk result (λ s. (seen : List Posting)
        → IsBalance seen balances.now.own balances.now.below
        → list_all (is_asked balances.now.own balances.now.below) txn.postings ≡ true
        → IsSettled (with_postings txn (given_postings_by (entering form) seen txn.postings)) s.txn
        s.cause) }
    ensures range { IfErr result (λ e. IsRange e → (seen : List Posting)
        → IsBalance seen balances.now.own balances.now.below
        → list_all (is_asked balances.now.own balances.now.below) txn.postings ≡ true
        → turnover_fits (moved (seen ++ given_postings_by (entering form) seen txn.postings))
        ≡ false) }
{
    let Txn {
        line,
        day,
        mark,
        code,
        description,
        comment,
        tags,
        postings,
    } = txn;
    let postings = match assign(alloc, form, balances, postings) {
        Ok(postings) => postings,
        Err(fault) => return Err(fault),
    };
    let txn = Txn {
        line,
        day,
        mark,
        code,
        description,
        comment,
        tags,
        postings,
    };
    match settle(alloc, txn) {
        Ok(settled) => Ok(settled),
        Err(Memory) => Err(TallyFault::Memory),
    }
}

/// The fault of a group whose assignments are made, or of its first assertion that fails, else adds what it moves.
fn pass_given(
    alloc: Global,
    totals: &mut Moves,
    balances: &mut Balances,
    txns: &[Txn],
    causes: &[Option<Boxed<Cause>>],
    group: Group,
) -> Result<Option<Fault>, Memory>
    ensures passed { IfOk result (λ fault.
        (written : List Txn) (before : List Value) (seen : List Posting)
        → AreSettled written txns.now causes.now → is_ready (slice_get written group.1) ≡ true
        → IsTurnover before totals.old → before ≡ moved seen
        → IsBalance seen balances.old.own balances.old.below
        → are_asked balances.old.own balances.old.below txns.now ≡ true
        → IsPassed written before seen group totals.new balances.new.own balances.new.below fault) }
    ensures own { IfOk result (λ fault. fault ≡ None → balances.new.own.1 ≡ balances.old.own.1) }
    ensures below { IfOk result (λ fault. fault ≡ None
        → balances.new.below.1 ≡ balances.old.below.1) }
{
    match visit(alloc, totals, txns, causes, group) {
        Ok(None) => claim_at(alloc, balances, txns, group),
        Ok(Some(fault)) => Ok(Some(fault)),
        Err(Memory) => Err(Memory),
    }
}

/// The fault of the first assertion in a group that fails, else adds the group's postings to the balances.
fn claim_at(
    alloc: Global,
    balances: &mut Balances,
    txns: &[Txn],
    group: Group,
) -> Result<Option<Fault>, Memory>
    ensures claimed { IfOk result (λ fault. (seen : List Posting)
        → IsBalance seen balances.old.own balances.old.below
        → are_asked balances.old.own balances.old.below txns.now ≡ true
        → turnover_fits (moved (seen ++ group_in group.0 (slice_get txns.now group.1))) ≡ true
        → AreClaimed seen (group_in group.0 (slice_get txns.now group.1)) balances.new.own
        balances.new.below fault) }
    ensures own { IfOk result (λ fault. fault ≡ None → balances.new.own.1 ≡ balances.old.own.1) }
    ensures below { IfOk result (λ fault. fault ≡ None
        → balances.new.below.1 ≡ balances.old.below.1) }
{
    let (day, number) = group;
    if balances.is_empty() || txns.len() <= number {
        return Ok(None);
    }
    let txn = &txns[number];
    match claim_group(alloc, balances, txn, day) {
        Ok(fault) => Ok(fault),
        Err(TallyFault::Range) => Ok(Some(Fault {
            line: txn.line,
            cause: Cause::Range,
        })),
        Err(TallyFault::Memory) => Err(Memory),
    }
}

/// The fault of a group, else adds what it moves.
fn visit(
    alloc: Global,
    totals: &mut Moves,
    txns: &[Txn],
    causes: &[Option<Boxed<Cause>>],
    group: Group,
) -> Result<Option<Fault>, Memory>
    ensures { IfOk result (λ fault. (written : List Txn) (before : List Value)
        → AreSettled written txns.now causes.now
        → is_ready (slice_get written group.1) ≡ true → IsTurnover before totals.old
        → IsVisited written before group totals.new fault) }
{
    let (day, number) = group;
    if txns.len() <= number || causes.len() <= number {
        return Ok(None);
    }
    judge(alloc, totals, &txns[number], day, &causes[number])
}
