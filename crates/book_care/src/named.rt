//! The accounts of which a query means a posting.
ghost use Rattle.std.specs.Prelude.{◌≡◌, ◌||◌, ℕ, List, IfOk, OnOk};
ghost use Rattle.std.specs.List.{list_any};
ghost use Rattle.book_care.specs.Asked as spec;
ghost use Rattle.book_care.specs.Asked.{asked_of, Serves};
ghost use Rattle.book_care.specs.Names.{has};

use crate::close::Closing;
use crate::names::Names;
use book::{Posting, Txn};
use hl_base::Memory;
use query::Search;
use std::alloc::Global;

/// Whether the query means a posting.
#[tactic(auto, using(crate::proofs::Meant::means_is, crate::proofs::Meant::serves_still))]
fn is_meant(search: &mut Search, closing: &Closing, posting: &Posting, txn: &Txn) -> bool
    requires { Serves search.old closing.now.query.now }
    ensures meant { result ≡ (asked_of closing.now).means (posting.now, txn.now) }
    ensures serves { Serves search.new closing.now.query.now }
{
    search.posting(posting, txn, closing.types)
}

/// Adds the account of a posting that the query means.
#[tactic(auto, using(crate::proofs::Loops::meant_one, crate::proofs::Loops::meant_none))]
fn note(
    names: &mut Names,
    alloc: Global,
    search: &mut Search,
    closing: &Closing,
    posting: &Posting,
    txn: &Txn,
) -> Result<(), Memory>
    requires { Serves search.old closing.now.query.now }
    ensures names { OnOk result ((q : List ℕ) → has names.new q
        ≡ (spec.means_of (asked_of closing.now) q (posting.now, txn.now) || has names.old q)) }
    ensures serves { Serves search.new closing.now.query.now }
{
    if is_meant(search, closing, posting, txn) {
        names.add(alloc, &posting.account)?;
    }
    Ok(())
}

/// Adds the accounts of a transaction's postings that the query means.
#[tactic(auto, using(crate::proofs::Loops::meant_more, crate::proofs::Loops::meant_all))]
fn note_all(
    names: &mut Names,
    alloc: Global,
    search: &mut Search,
    closing: &Closing,
    txn: &Txn,
) -> Result<(), Memory>
    requires { Serves search.old closing.now.query.now }
    ensures names { OnOk result ((q : List ℕ) → has names.new q
        ≡ (list_any (spec.means_of (asked_of closing.now) q) (spec.entries_in txn.now)
        || has names.old q)) }
    ensures serves { Serves search.new closing.now.query.now }
{
    for posting in txn.postings.as_slice() {
        note(names, alloc, search, closing, posting, txn)?;
    }
    Ok(())
}

/// The accounts of which the query means a posting.
#[tactic(auto, using(crate::proofs::Loops::entries_more, crate::proofs::Loops::entries_all))]
pub(crate) fn named_accounts(alloc: Global, closing: &Closing) -> Result<Names, Memory>
    ensures { IfOk result (λ names. (q : List ℕ)
        → has names q ≡ spec.is_meant (asked_of closing.now) q) }
{
    let mut search = closing.query.search(alloc)?;
    let mut names = Names::new(alloc);
    for txn in closing.book.txns.as_slice() {
        note_all(&mut names, alloc, &mut search, closing, txn)?;
    }
    Ok(names)
}
