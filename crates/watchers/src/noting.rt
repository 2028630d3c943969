//! How the assertions of a transaction go into a set of watches, and out of it.
ghost use Rattle.std.specs.Prelude.{◌≡◌, [], IfOk, OnOk};
ghost use Rattle.watchers.specs.Walk.{day_in, gone_all, put_all, watches_from, watches_posting};
ghost use Rattle.watchers.specs.Watches.{numbered_from, watches_of};

use crate::watch::{Place, Watch};
use book::{Posting, Txn};
use hl_base::{Memory, Text};
use shared_set::SharedSet;
use std::alloc::Global;

/// The watch of a posting, where it has an assertion.
fn watch_of(
    alloc: Global,
    txn: &Txn,
    number: u64,
    n: u64,
    posting: &Posting,
    below: bool,
) -> Result<Watch, Memory>
    ensures { IfOk result (λ watch. watch ≡ record {
      account = posting.now.account;
      below = below;
      place = record { day = day_in txn.now posting.now; txn = number; posting = n };
    }) }
{
    Ok(Watch {
        account: Text::copied(alloc, posting.account.as_str())?,
        below,
        place: Place {
            day: posting.day_in(txn),
            txn: number,
            posting: n,
        },
    })
}

/// Puts the watch of a posting in, if it has an assertion.
fn put_posting(
    alloc: Global,
    watches: &mut SharedSet<Watch>,
    txn: &Txn,
    number: u64,
    n: u64,
    posting: &Posting,
) -> Result<(), Memory>
    ensures { OnOk result (watches.new
        ≡ put_all watches.old (watches_posting txn.now number n posting.now)) }
{
    match &posting.wanted {
        Some(wanted) => {
            let watch = watch_of(alloc, txn, number, n, posting, wanted.get().below)?;
            watches.put(alloc, watch)?;
            Ok(())
        }
        None => Ok(()),
    }
}

/// Puts in the watches of a transaction under a number.
pub(crate) fn put_txn(
    alloc: Global,
    watches: &mut SharedSet<Watch>,
    number: u64,
    txn: &Txn,
) -> Result<(), Memory>
    ensures { OnOk result (watches.new
        ≡ put_all watches.old (watches_from txn.now number 0 txn.now.postings)) }
{
    put_postings(alloc, watches, txn, number, txn.postings.as_slice())
}

/// Puts in the watches of some postings of a transaction.
fn put_postings(
    alloc: Global,
    watches: &mut SharedSet<Watch>,
    txn: &Txn,
    number: u64,
    postings: &[Posting],
) -> Result<(), Memory>
    ensures { OnOk result (watches.new
        ≡ put_all watches.old (watches_from txn.now number 0 postings.now)) }
{
    for (n, posting) in postings.iter().enumerate() {
        put_posting(alloc, watches, txn, number, n as u64, posting)?;
    }
    Ok(())
}

/// Takes the watch of a posting out, if it has an assertion.
fn remove_posting(
    alloc: Global,
    watches: &mut SharedSet<Watch>,
    txn: &Txn,
    number: u64,
    n: u64,
    posting: &Posting,
) -> Result<(), Memory>
    ensures { OnOk result (watches.new
        ≡ gone_all watches.old (watches_posting txn.now number n posting.now)) }
{
    match &posting.wanted {
        Some(wanted) => {
            let watch = watch_of(alloc, txn, number, n, posting, wanted.get().below)?;
            watches.remove(alloc, &watch)?;
            Ok(())
        }
        None => Ok(()),
    }
}

/// Takes out the watches of a transaction under a number.
pub(crate) fn remove_txn(
    alloc: Global,
    watches: &mut SharedSet<Watch>,
    number: u64,
    txn: &Txn,
) -> Result<(), Memory>
    ensures { OnOk result (watches.new
        ≡ gone_all watches.old (watches_from txn.now number 0 txn.now.postings)) }
{
    remove_postings(alloc, watches, txn, number, txn.postings.as_slice())
}

/// Takes out the watches of some postings of a transaction.
fn remove_postings(
    alloc: Global,
    watches: &mut SharedSet<Watch>,
    txn: &Txn,
    number: u64,
    postings: &[Posting],
) -> Result<(), Memory>
    ensures { OnOk result (watches.new
        ≡ gone_all watches.old (watches_from txn.now number 0 postings.now)) }
{
    for (n, posting) in postings.iter().enumerate() {
        remove_posting(alloc, watches, txn, number, n as u64, posting)?;
    }
    Ok(())
}

/// The watches of some transactions, each under its place in the list.
pub(crate) fn watches_in_all(alloc: Global, txns: &[Txn]) -> Result<SharedSet<Watch>, Memory>
    ensures { IfOk result (λ watches.
        watches ≡ put_all [] (watches_of (numbered_from 0 txns.now))) }
{
    let mut watches = SharedSet::new();
    for (number, txn) in txns.iter().enumerate() {
        put_txn(alloc, &mut watches, number as u64, txn)?;
    }
    Ok(watches)
}
