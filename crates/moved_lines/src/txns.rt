//! Transactions behind a change of a text.
ghost use Rattle.std.specs.Prelude.{◌≡◌, ◌≤◌, length, map, drop};
ghost use Rattle.std.specs.List.{AllByRecursion};
ghost use Rattle.moved_lines.specs.Moving as spec;

use crate::shift::Shift;
use book::{Posting, Txn};
use hl_base::List;
use std::alloc::Global;
use std::mem::replace;

/// Moves the line of a posting.
pub(crate) fn move_posting(posting: &mut Posting, by: Shift)
    requires { spec.CanMovePosting by posting.old }
    ensures { posting.new ≡ spec.moved_posting by posting.old }
{
    posting.line = by.moved(posting.line);
}

/// Moves the lines of some postings where they stand.
fn move_postings(postings: &mut [Posting], by: Shift)
    requires { AllByRecursion (spec.CanMovePosting by) postings.old }
    ensures { postings.new ≡ map (spec.moved_posting by) postings.old }
{
    for posting in postings.iter_mut() {
        move_posting(posting, by);
    }
}

/// The postings with their lines moved, without a copy.
pub(crate) fn moved_postings(postings: List<Posting>, by: Shift) -> List<Posting>
    requires { AllByRecursion (spec.CanMovePosting by) postings }
    ensures { result ≡ map (spec.moved_posting by) postings }
{
    let mut postings = postings.into_vec();
    move_postings(&mut postings, by);
    List::from_vec(postings)
}

/// Moves the lines of a transaction.
pub(crate) fn move_txn(alloc: Global, txn: &mut Txn, by: Shift)
    requires { spec.CanMoveTxn by txn.old }
    ensures { txn.new ≡ spec.moved_txn by txn.old }
{
    let postings = replace(&mut txn.postings, List::new(alloc));
    txn.line = by.moved(txn.line);
    txn.postings = moved_postings(postings, by);
}

/// Moves the lines of some transactions where they stand.
fn move_all(alloc: Global, txns: &mut [Txn], by: Shift)
    requires { AllByRecursion (spec.CanMoveTxn by) txns.old }
    ensures { txns.new ≡ map (spec.moved_txn by) txns.old }
{
    for txn in txns.iter_mut() {
        move_txn(alloc, txn, by);
    }
}

/// Moves the lines of the transactions from a number on, those of their postings too, where they stand. It takes no
/// memory.
pub fn move_lines(alloc: Global, txns: &mut [Txn], from: usize, by: Shift)
    requires from { from ≤ length txns.old }
    requires lines { AllByRecursion (spec.CanMoveTxn by) (drop from txns.old) }
    ensures { txns.new ≡ spec.moved_from from by txns.old }
{
    let (_, behind) = txns.split_at_mut(from);
    move_all(alloc, behind, by);
}
