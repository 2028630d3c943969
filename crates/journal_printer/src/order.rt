//! The order in which transactions are printed: by day, and on one day by number.
ghost use Rattle.std.specs.Prelude.{◌≡◌, ◌<◌, List, length, filter, slice_index_or, IfOk, OnOk};
ghost use Rattle.std.specs.Ordering.{is_lt};
ghost use Rattle.std.specs.BTreeSet.{insert_key};
ghost use Rattle.book.specs.Order.{each_once};
ghost use Rattle.journal_printer.specs.Order as spec;

use book::Txn;
use hl_base::Memory;
use std::alloc::Global;
use std::collections::BTreeSet;

/// The name of a transaction: its day, and its number.
pub type Name = (u32, usize);

/// The names of some transactions, by day and then by number.
pub fn names_in_order(alloc: Global, txns: &[Txn]) -> Result<Vec<Name>, Memory>
    ensures { IfOk result (λ names. names.items ≡ spec.names_in_order txns.now) }
{
    let names = names_of(alloc, txns)?;
    if is_rising(names.as_slice()) {
        return Ok(names);
    }
    sorted(alloc, names.as_slice())
}

/// The names of some transactions, in the order of their numbers.
#[tactic(auto, using(crate::proofs::Named::names_next))]
fn names_of(alloc: Global, txns: &[Txn]) -> Result<Vec<Name>, Memory>
    ensures { IfOk result (λ names. names.items ≡ spec.names_from 0 txns.now) }
{
    let mut names = Vec::new(alloc);
    for (number, txn) in txns.iter().enumerate() {
        names.push((txn.day.0, number))?;
    }
    Ok(names)
}

/// Whether each name stands before the next one.
fn is_rising(names: &[Name]) -> bool
    ensures { result ≡ spec.is_rising names.now }
{
    match names.split_first() {
        Some((first, rest)) => rises_from(*first, rest),
        None => true,
    }
}

/// Whether each name after a first one stands before the next one.
fn rises_from(first: Name, names: &[Name]) -> bool
    ensures { result ≡ spec.rises_from first names.now }
{
    let mut last = first;
    for name in names {
        if !stands_before(last, *name) {
            return false;
        }
        last = *name;
    }
    true
}

/// Whether a name stands before another.
fn stands_before(a: Name, b: Name) -> bool
    ensures { result ≡ is_lt (spec.name_cmp a b) }
{
    a.0 < b.0 || a.0 == b.0 && a.1 < b.1
}

/// Any names in their order, each once.
fn sorted(alloc: Global, names: &[Name]) -> Result<Vec<Name>, Memory>
    ensures { IfOk result (λ ordered. ordered.items ≡ each_once spec.name_cmp names.now) }
{
    let mut set = BTreeSet::new(alloc);
    for back in 0..names.len() {
        let at = names.len() - 1 - back;
        insert_at(&mut set, names, at)?;
    }
    listed(alloc, &set)
}

/// Puts a name into a set.
fn insert_at(set: &mut BTreeSet<Name>, names: &[Name], at: usize) -> Result<(), Memory>
    requires { at < length names.now }
    ensures { OnOk result ((d : spec.Name)
        → set.new.keys ≡ insert_key spec.name_cmp set.old.keys (slice_index_or names.now at d)) }
{
    let name = names[at];
    set.insert(name)?;
    Ok(())
}

/// The names of a set.
fn listed(alloc: Global, set: &BTreeSet<Name>) -> Result<Vec<Name>, Memory>
    ensures { IfOk result (λ list. list.items ≡ set.now.keys) }
{
    let mut list = Vec::new(alloc);
    for name in set {
        list.push(*name)?;
    }
    Ok(list)
}

/// Whether a transaction is chosen, by the item of its number.
fn is_chosen(chosen: &[bool], name: Name) -> bool
    ensures { result ≡ spec.is_chosen chosen.now name }
{
    chosen.get(name.1).copied().unwrap_or(false)
}

/// Keeps the names of the transactions that are chosen.
pub fn keep_chosen(names: &mut Vec<Name>, chosen: &[bool])
    ensures { names.new.items ≡ filter (spec.is_chosen chosen.now) names.old.items }
{
    names.retain(|name| is_chosen(chosen, *name));
}
