//! The symbols that transactions write.
ghost use Rattle.std.specs.Prelude.{◌≡◌, ◌++◌, IfOk, IsTrue, OnOk, length, map, slice_get};
ghost use Rattle.std.specs.BTreeSet.{insert_key};
ghost use Rattle.std.specs.Cmp.Lexicographic.{slice_cmp};
ghost use Rattle.std.specs.List.{flat_map};
ghost use Rattle.std.specs.Option.{option_copied, option_to_list};
ghost use Rattle.std.specs.Ordering.{nat_cmp};
ghost use Rattle.std.specs.Str.{bytes_eq};
ghost use Rattle.book.specs.Order.{each_once};
ghost use Rattle.book.specs.Style.{cost_amount};
ghost use Rattle.kept_books.specs.Beginning.{lent, renewed_in};
ghost use Rattle.kept_books.specs.Gathering.{with_all};
ghost use Rattle.kept_books.specs.Writing.{AreSymbolsOf, symbols_at, symbols_in};

use crate::symbol_key::SymbolKey;
use crate::written::{Entries, Renewal};
use book::{Amount, Assertion, Boxed, Cost, Posting, Txn};
use hl_base::{List, Memory, Text};
use placed_sums::ByNumber;
use std::alloc::Global;
use std::collections::BTreeSet;

fn put_symbol<'a>(found: &mut BTreeSet<SymbolKey<'a>>, symbol: &'a Text) -> Result<(), Memory>
    ensures { OnOk result (found.new.keys
        ≡ insert_key (slice_cmp nat_cmp) found.old.keys symbol.now) }
{
    found.insert(SymbolKey::new(symbol))?;
    Ok(())
}

/// Puts the symbol of an amount into a set, if there is one.
fn put_amount<'a>(
    found: &mut BTreeSet<SymbolKey<'a>>,
    amount: &'a Option<Amount>,
) -> Result<(), Memory>
    ensures { OnOk result (found.new.keys
        ≡ with_all found.old.keys (map (λ a. a.symbol) (option_to_list amount.now))) }
{
    match amount {
        Some(amount) => put_symbol(found, &amount.symbol),
        None => Ok(()),
    }
}

/// The symbol of a cost.
fn symbol_of(cost: &Cost) -> &Text
    ensures { result.now ≡ (cost_amount cost.now).symbol }
{
    match cost {
        Cost::Unit(amount) => &amount.symbol,
        Cost::Total(amount) => &amount.symbol,
    }
}

fn put_cost<'a>(
    found: &mut BTreeSet<SymbolKey<'a>>,
    cost: &'a Option<Boxed<Cost>>,
) -> Result<(), Memory>
    ensures { OnOk result (found.new.keys ≡ with_all found.old.keys
        (map (λ a. a.symbol) (map cost_amount (option_to_list cost.now)))) }
{
    match cost {
        Some(cost) => put_symbol(found, symbol_of(cost.get())),
        None => Ok(()),
    }
}

fn put_wanted<'a>(
    found: &mut BTreeSet<SymbolKey<'a>>,
    wanted: &'a Option<Boxed<Assertion>>,
) -> Result<(), Memory>
    ensures { OnOk result (found.new.keys ≡ with_all found.old.keys
        (map (λ a. a.symbol) (map (λ w. w.amount) (option_to_list wanted.now)))) }
{
    match wanted {
        Some(wanted) => put_symbol(found, &wanted.get().amount.symbol),
        None => Ok(()),
    }
}

/// Puts the symbols that a posting writes into a set.
fn put_posting<'a>(found: &mut BTreeSet<SymbolKey<'a>>, posting: &'a Posting) -> Result<(), Memory>
    ensures { OnOk result (found.new.keys ≡ with_all found.old.keys (symbols_in posting.now)) }
{
    put_wanted(found, &posting.wanted)?;
    put_cost(found, &posting.cost)?;
    put_amount(found, &posting.amount)?;
    Ok(())
}

/// Puts the symbols that some postings write into a set.
#[tactic(auto, using(crate::proofs::Sets::posting_back, crate::proofs::Sets::no_postings))]
fn put_postings<'a>(
    found: &mut BTreeSet<SymbolKey<'a>>,
    postings: &'a [Posting],
) -> Result<(), Memory>
    ensures { OnOk result (found.new.keys
        ≡ with_all found.old.keys (flat_map symbols_in postings.now)) }
{
    let mut rest = postings;
    while let Some((last, older)) = rest.split_last() {
        put_posting(found, last)?;
        rest = older;
    }
    Ok(())
}

/// Puts those that a transaction writes into a set.
fn put_txn<'a>(found: &mut BTreeSet<SymbolKey<'a>>, txn: &'a Txn) -> Result<(), Memory>
    ensures { OnOk result (found.new.keys
        ≡ with_all found.old.keys (flat_map symbols_in txn.now.postings)) }
{
    put_postings(found, txn.postings.as_slice())
}

/// Puts those that some transactions write into a set.
fn put_entries<'a>(found: &mut BTreeSet<SymbolKey<'a>>, txns: &[&'a Txn]) -> Result<(), Memory>
    ensures { OnOk result (found.new.keys
        ≡ with_all found.old.keys (symbols_at (map (λ t. t.now) txns.now))) }
{
    let mut at = txns.len();
    while 0 < at {
        at -= 1;
        put_txn(found, txns[at])?;
    }
    Ok(())
}

/// Puts some symbols into a set.
#[tactic(auto, using(crate::proofs::Sets::name_back, crate::proofs::Sets::no_names))]
fn put_names<'a>(found: &mut BTreeSet<SymbolKey<'a>>, names: &'a [Text]) -> Result<(), Memory>
    ensures { OnOk result (found.new.keys ≡ with_all found.old.keys names.now) }
{
    let mut rest = names;
    while let Some((last, older)) = rest.split_last() {
        put_symbol(found, last)?;
        rest = older;
    }
    Ok(())
}

/// Copies of the symbols of a set.
fn copied(alloc: Global, found: &BTreeSet<SymbolKey>) -> Result<List<Text>, Memory>
    ensures { IfOk result (λ symbols. symbols ≡ found.now.keys) }
{
    let mut symbols = Vec::new(alloc);
    for key in found {
        symbols.push(Text::copied(alloc, key.symbol().as_str())?)?;
    }
    Ok(List::from_vec(symbols))
}

/// The symbols that some transactions write, in the order of their bytes and each once. Each is looked up once among those
/// that were found.
pub(crate) fn symbols_of<'a>(alloc: Global, txns: &[&'a Txn]) -> Result<List<Text>, Memory>
    ensures { IfOk result (AreSymbolsOf (map (λ t. t.now) txns.now)) }
{
    let mut found = BTreeSet::new(alloc);
    put_entries(&mut found, txns)?;
    copied(alloc, &found)
}

/// The same among other symbols.
pub(crate) fn symbols_with<'a>(
    alloc: Global,
    symbols: &'a [Text],
    txns: &[&'a Txn],
) -> Result<List<Text>, Memory>
    ensures { IfOk result (λ all. all ≡ each_once (slice_cmp nat_cmp)
        (symbols_at (map (λ t. t.now) txns.now) ++ symbols.now)) }
{
    let mut found = BTreeSet::new(alloc);
    put_names(&mut found, symbols)?;
    put_entries(&mut found, txns)?;
    copied(alloc, &found)
}

/// Puts those that the transaction with a number writes into a set, if there is one.
fn put_number<'a>(
    found: &mut BTreeSet<SymbolKey<'a>>,
    renewal: &'a Renewal<'a>,
    number: usize,
) -> Result<(), Memory>
    ensures { OnOk result (found.new.keys ≡ with_all found.old.keys
        (symbols_at (option_to_list (slice_get (renewed_in renewal.now) number)))) }
{
    match renewal.txn(number) {
        Some(txn) => put_txn(found, txn),
        None => Ok(()),
    }
}

/// Those of a text with other transactions in their place, gathered anew.
pub(crate) fn gathered<'a>(alloc: Global, renewal: &'a Renewal<'a>) -> Result<List<Text>, Memory>
    ensures { IfOk result (AreSymbolsOf (renewed_in renewal.now)) }
{
    let mut found = BTreeSet::new(alloc);
    let mut at = renewal.former.txns.len() + renewal.forms.txns.len();
    while 0 < at {
        at -= 1;
        put_number(&mut found, renewal, at)?;
    }
    copied(alloc, &found)
}

fn is_same(a: &Text, b: &Text) -> bool
    ensures { result ≡ bytes_eq a.now b.now }
{
    a.as_bytes() == b.as_bytes()
}

/// Whether symbols are the same as others.
pub(crate) fn are_same(a: &[Text], b: &[Text]) -> bool
    ensures { IsTrue result → a.now ≡ b.now }
{
    let alike = a.len() == b.len();
    if !alike {
        return false;
    }
    let mut at = 0;
    while at < a.len() {
        let same = is_same(&a[at], &b[at]);
        if !same {
            return false;
        }
        at += 1;
    }
    true
}
