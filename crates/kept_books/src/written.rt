//! The transactions of a text as they are written, by their numbers, and others in their place.
ghost use Rattle.std.specs.Prelude.{◌≡◌, ◌∷◌, ◌++◌, [], ◌≤◌, IfOk, OnOk, length, map, min, slice_get};
ghost use Rattle.std.specs.Option.{option_copied};
ghost use Rattle.book.specs.Postings.{txn_in, txns_of};
ghost use Rattle.kept_books.specs.Beginning.{IsRenewal};
ghost use Rattle.kept_books.specs.Renewing.{renewed};
ghost use Rattle.kept_books.specs.Rewriting.{At, Behind, meant};

use crate::rewriting::Rewriting;
use book::{Item, Placed, Txn};
use hl_base::Memory;
use placed_sums::ByNumber;
use std::alloc::Global;

/// Transactions that are lent from where they are written, so that each is found at once by its number.
#[derive(Drop)]
pub(crate) struct Entries<'a> {
    pub(crate) txns: Vec<&'a Txn>,
}

/// The transactions of a text, and others that stand in the place of those from a number on, or behind them all.
#[derive(Drop)]
pub(crate) struct Renewal<'a> {
    pub(crate) former: Entries<'a>,
    pub(crate) first: usize,
    pub(crate) forms: Entries<'a>,
}

impl<'a> ByNumber for Entries<'a> {
    ghost txns = { λ e. map (λ t. t.now) e.txns.items };

    fn txn(&self, number: usize) -> Option<&Txn> {
        lent_at(self.txns.as_slice(), number)
    }
}

impl<'a> ByNumber for Renewal<'a> {
    ghost txns = { λ r. renewed (min r.first (length r.former.txns.items))
        (map (λ t. t.now) r.former.txns.items) (map (λ t. t.now) r.forms.txns.items) };

    fn txn(&self, number: usize) -> Option<&Txn> {
        renewed_at(
            self.former.txns.as_slice(),
            self.first,
            self.forms.txns.as_slice(),
            number,
        )
    }
}

/// The transaction with a number among some that are lent.
pub(crate) fn lent_at<'a>(txns: &[&'a Txn], number: usize) -> Option<&'a Txn>
    ensures { option_copied result ≡ slice_get (map (λ t. t.now) txns.now) number }
{
    let inside = number < txns.len();
    if inside { Some(txns[number]) } else { None }
}

/// The lesser of two numbers.
fn lesser(a: usize, b: usize) -> usize
    ensures { result ≡ min a b }
{
    if a < b { a } else { b }
}

/// The transaction with a number where others stand in the place of those from a number on.
fn renewed_at<'a>(
    former: &[&'a Txn],
    first: usize,
    forms: &[&'a Txn],
    number: usize,
) -> Option<&'a Txn>
    ensures { option_copied result ≡ slice_get (renewed (min first (length former.now))
        (map (λ t. t.now) former.now) (map (λ t. t.now) forms.now)) number }
{
    let start = lesser(first, former.len());
    renewed_from(former, start, forms, number)
}

/// The same from a number on that is inside, or the end.
fn renewed_from<'a>(
    former: &[&'a Txn],
    first: usize,
    forms: &[&'a Txn],
    number: usize,
) -> Option<&'a Txn>
    requires { first ≤ length former.now }
    ensures { option_copied result ≡ slice_get (renewed first
        (map (λ t. t.now) former.now) (map (λ t. t.now) forms.now)) number }
{
    let before = number < first;
    if before {
        return lent_at(former, number);
    }
    let behind = forms.len() <= number - first;
    if behind {
        return lent_at(former, number);
    }
    lent_at(forms, number - first)
}

/// Lends a transaction behind others.
fn push_lent<'a>(txns: &mut Vec<&'a Txn>, txn: &'a Txn) -> Result<(), Memory>
    ensures { OnOk result (map (λ t. t.now) txns.new.items
        ≡ map (λ t. t.now) txns.old.items ++ txn.now ∷ []) }
{
    txns.push(txn)?;
    Ok(())
}

/// Lends the transaction that an item is, if it is one, behind others.
fn push_entry<'a>(txns: &mut Vec<&'a Txn>, item: &'a Item) -> Result<(), Memory>
    ensures { OnOk result (map (λ t. t.now) txns.new.items
        ≡ map (λ t. t.now) txns.old.items ++ txn_in item.now) }
{
    match item.entry() {
        Some(txn) => push_lent(txns, txn),
        None => Ok(()),
    }
}

/// The transactions of some items, lent.
fn lent_entries<'a>(alloc: Global, items: &'a [Placed]) -> Result<Vec<&'a Txn>, Memory>
    ensures { IfOk result (λ lent. map (λ t. t.now) lent.items ≡ txns_of items.now) }
{
    let mut lent = Vec::with_capacity(alloc, items.len())?;
    for placed in items {
        push_entry(&mut lent, &placed.item)?;
    }
    Ok(lent)
}

/// The transactions of some items.
pub(crate) fn entries_of<'a>(alloc: Global, items: &'a [Placed]) -> Result<Entries<'a>, Memory>
    ensures { IfOk result (λ e. map (λ t. t.now) e.txns.items ≡ txns_of items.now) }
{
    let txns = lent_entries(alloc, items)?;
    Ok(Entries { txns })
}

/// One transaction.
fn one_entry<'a>(alloc: Global, txn: &'a Txn) -> Result<Entries<'a>, Memory>
    ensures { IfOk result (λ e. map (λ t. t.now) e.txns.items ≡ txn.now ∷ []) }
{
    let mut txns = Vec::new(alloc);
    push_lent(&mut txns, txn)?;
    Ok(Entries { txns })
}

/// No transactions.
pub(crate) fn no_entries<'a>(alloc: Global) -> Entries<'a>
    ensures { result.txns.items ≡ [] }
{
    Entries {
        txns: Vec::new(alloc),
    }
}

/// Transactions behind those of a text.
fn renewal_behind<'a>(
    alloc: Global,
    former: Entries<'a>,
    more: &'a [Placed],
) -> Result<Renewal<'a>, Memory>
    ensures { IfOk result (IsRenewal (map (λ t. t.now) former.entry.txns.items)
        (Behind (txns_of more.now))) }
{
    let first = former.txns.len();
    let forms = entries_of(alloc, more)?;
    Ok(Renewal {
        former,
        first,
        forms,
    })
}

/// A transaction under a number of a text.
fn renewal_at<'a>(
    alloc: Global,
    former: Entries<'a>,
    number: usize,
    txn: &'a Txn,
) -> Result<Renewal<'a>, Memory>
    ensures { IfOk result (IsRenewal (map (λ t. t.now) former.entry.txns.items)
        (At number txn.now)) }
{
    let forms = one_entry(alloc, txn)?;
    Ok(Renewal {
        former,
        first: number,
        forms,
    })
}

/// What an edit makes of lent transactions.
fn renewal_by<'a>(
    alloc: Global,
    former: Entries<'a>,
    rewriting: &Rewriting<'a>,
) -> Result<Renewal<'a>, Memory>
    ensures { IfOk result (IsRenewal (map (λ t. t.now) former.entry.txns.items)
        (meant rewriting.now)) }
{
    match rewriting {
        Rewriting::Behind(more) => renewal_behind(alloc, former, more),
        Rewriting::At { number, txn } => renewal_at(alloc, former, *number, txn),
    }
}

/// What an edit makes of the transactions of some items.
pub(crate) fn renewal_of<'a>(
    alloc: Global,
    items: &'a [Placed],
    rewriting: &Rewriting<'a>,
) -> Result<Renewal<'a>, Memory>
    ensures { IfOk result (IsRenewal (txns_of items.now) (meant rewriting.now)) }
{
    let former = entries_of(alloc, items)?;
    renewal_by(alloc, former, rewriting)
}
