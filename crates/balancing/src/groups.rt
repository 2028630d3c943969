//! The order of groups: the postings of one transaction on one day.
ghost use Rattle.std.specs.Prelude.{◌≡◌, ◌++◌, true, ◌<◌, List, [], ◌∷◌, length, slice_index_or, IfOk, OnOk};
ghost use Rattle.std.specs.List.{list_any};
ghost use Rattle.std.specs.Ordering.{is_lt};
ghost use Rattle.book.specs.SumsBefore.{is_assigned};
ghost use Rattle.balancing.specs.Parts.{is_chosen, is_found, is_in};
ghost use Rattle.std.specs.BTreeSet.{insert_key};
ghost use Rattle.book.specs.Order.{each_once};
ghost use Rattle.balancing.specs.Groups.{Group, group_cmp, groups_by, day_of, is_rising, rises_from};

use book::{Posting, Txn};
use hl_base::Memory;
use std::alloc::Global;
use std::collections::BTreeSet;

/// The name of a group: its day, and its transaction's index.
pub(crate) type Group = (u32, usize);

/// Postings of a transaction: all; all but those whose missing amount was found; or those alone.
#[derive(Clone, Copy, Debug, PartialEq, Eq)]
pub enum Part {
    All,
    ButFound,
    Found,
}

/// Whether a posting is of a day and of a part of its transaction.
pub(crate) fn is_chosen(part: Part, txn: &Txn, posting: &Posting, day: u32) -> bool
    ensures { result ≡ is_chosen part day txn.now posting.now }
{
    day_of(txn, posting) == day && is_in(part, posting)
}

/// Whether a posting is of a part.
pub fn is_in(part: Part, posting: &Posting) -> bool
    ensures { result ≡ is_in part posting.now }
{
    match part {
        Part::All => true,
        Part::ButFound => !is_found(posting),
        Part::Found => is_found(posting),
    }
}

/// Whether a posting's missing amount was found.
fn is_found(posting: &Posting) -> bool
    ensures { result ≡ is_found posting.now }
{
    posting.filled && posting.wanted.is_none()
}

/// Whether a posting's amount was assigned.
fn is_assigned(posting: &Posting) -> bool
    ensures { result ≡ is_assigned posting.now }
{
    posting.filled && posting.wanted.is_some()
}

/// Whether the amount of some posting was assigned.
pub fn has_assigned(postings: &[Posting]) -> bool
    ensures { result ≡ list_any is_assigned postings.now }
{
    postings.iter().any(is_assigned)
}

/// Notes the groups of a transaction.
pub(crate) fn note_groups(groups: &mut Vec<Group>, txn: &Txn, number: usize) -> Result<(), Memory>
    ensures { OnOk result ((rest : List Group) → each_once group_cmp (groups.new.items ++ rest)
        ≡ each_once group_cmp (groups.old.items
        ++ (groups_by number txn.now txn.now.postings ++ rest))) }
{
    if txn.postings.is_empty() {
        return note(groups, (txn.day.0, number));
    }
    for posting in txn.postings.as_slice() {
        note(groups, (day_of(txn, posting), number))?;
    }
    Ok(())
}

/// The day of a posting.
pub(crate) fn day_of(txn: &Txn, posting: &Posting) -> u32
    ensures { result ≡ day_of txn.now posting.now }
{
    posting.day_in(txn).0
}

/// Notes a group, unless it was noted last.
fn note(groups: &mut Vec<Group>, group: Group) -> Result<(), Memory>
    ensures { OnOk result ((rest : List Group) → each_once group_cmp (groups.new.items ++ rest)
        ≡ each_once group_cmp (groups.old.items ++ group ∷ rest)) }
{
    if let Some(last) = groups.last() {
        if last.0 == group.0 && last.1 == group.1 {
            return Ok(());
        }
    }
    groups.push(group)?;
    Ok(())
}

/// The groups in their order, each once.
pub(crate) fn in_order(alloc: Global, groups: Vec<Group>) -> Result<Vec<Group>, Memory>
    ensures { IfOk result (λ ordered. ordered.items ≡ each_once group_cmp groups.items) }
{
    if is_rising(&groups) {
        return Ok(groups);
    }
    sorted(alloc, &groups)
}

/// Whether each group stands before the next one.
fn is_rising(groups: &[Group]) -> bool
    ensures { result ≡ is_rising groups.now }
{
    match groups.split_first() {
        Some((first, rest)) => rises_from(*first, rest),
        None => true,
    }
}

/// Whether each group after a first one stands before the next one.
fn rises_from(first: Group, groups: &[Group]) -> bool
    ensures { result ≡ rises_from first groups.now }
{
    let mut last = first;
    for group in groups {
        if !stands_before(last, *group) {
            return false;
        }
        last = *group;
    }
    true
}

/// Whether a group stands before another.
fn stands_before(a: Group, b: Group) -> bool
    ensures { result ≡ is_lt (group_cmp a b) }
{
    a.0 < b.0 || a.0 == b.0 && a.1 < b.1
}

/// Any groups in their order, each once.
fn sorted(alloc: Global, groups: &[Group]) -> Result<Vec<Group>, Memory>
    ensures { IfOk result (λ ordered. ordered.items ≡ each_once group_cmp groups.now) }
{
    let mut set = BTreeSet::new(alloc);
    for back in 0..groups.len() {
        let at = groups.len() - 1 - back;
        insert_at(&mut set, groups, at)?;
    }
    listed(alloc, &set)
}

/// Puts a group into a set.
fn insert_at(set: &mut BTreeSet<Group>, groups: &[Group], at: usize) -> Result<(), Memory>
    requires { at < length groups.now }
    ensures { OnOk result ((d : Group)
        → set.new.keys ≡ insert_key group_cmp set.old.keys (slice_index_or groups.now at d)) }
{
    let group = groups[at];
    set.insert(group)?;
    Ok(())
}

/// The groups of a set.
fn listed(alloc: Global, set: &BTreeSet<Group>) -> Result<Vec<Group>, Memory>
    ensures { IfOk result (λ list. list.items ≡ set.now.keys) }
{
    let mut list = Vec::new(alloc);
    for group in set {
        list.push(*group)?;
    }
    Ok(list)
}
