//! The least and the greatest day of the postings that a query means, whatever their days.
ghost use Rattle.std.specs.Prelude.{◌≡◌, IfOk, Some};
ghost use Rattle.report_takings.specs.Asking.{Serves, question_of};
ghost use Rattle.report_takings.specs.Ended as spec;

use crate::scope::Scope;
use book::{Posting, Txn};
use hl_base::Memory;
use query::{Search, earlier, later};
use std::alloc::Global;

/// The least and the greatest of some days.
#[derive(Clone, Copy)]
pub(crate) struct Ends {
    pub(crate) first: Option<u32>,
    pub(crate) last: Option<u32>,
}

/// The ends with one day more.
fn with_day(ends: Ends, day: u32) -> Ends
    ensures { result ≡ spec.with_day ends day }
{
    Ends {
        first: earlier(ends.first, Some(day)),
        last: later(ends.last, Some(day)),
    }
}

/// The ends with a posting's day, where the query means it.
#[tactic(auto, using(crate::proofs::Serving::undated_is, crate::proofs::Serving::serves_still))]
fn with_posting(
    search: &mut Search,
    scope: &Scope,
    ends: Ends,
    posting: &Posting,
    txn: &Txn,
) -> Ends
    requires { Serves search.old scope.now.query.now }
    ensures ends { result ≡ spec.with_entry (question_of scope.now) ends (posting.now, txn.now) }
    ensures serves { Serves search.new scope.now.query.now }
{
    if search.undated(posting, txn, scope.types) {
        with_day(ends, posting.day_in(txn).0)
    } else {
        ends
    }
}

/// The ends with the days of a transaction's postings.
#[tactic(auto, using(crate::proofs::Steps::fold_more, crate::proofs::Steps::fold_all))]
fn with_txn(search: &mut Search, scope: &Scope, ends: Ends, txn: &Txn) -> Ends
    requires { Serves search.old scope.now.query.now }
    ensures ends { result ≡ spec.with_txn (question_of scope.now) ends txn.now }
    ensures serves { Serves search.new scope.now.query.now }
{
    let mut so_far = ends;
    for posting in txn.postings.as_slice() {
        so_far = with_posting(search, scope, so_far, posting, txn);
    }
    so_far
}

/// The ends of the days of the postings that the query means, whatever their days.
#[tactic(auto, using(crate::proofs::Steps::fold_more, crate::proofs::Steps::fold_all, crate::proofs::Ending::ends_are))]
pub(crate) fn ends_of(alloc: Global, scope: &Scope) -> Result<Ends, Memory>
    ensures { IfOk result (λ ends. ends ≡ spec.ends_of (question_of scope.now)) }
{
    let mut search = scope.query.search(alloc)?;
    let mut ends = Ends {
        first: None,
        last: None,
    };
    for txn in scope.book.txns.as_slice() {
        ends = with_txn(&mut search, scope, ends, txn);
    }
    Ok(ends)
}
