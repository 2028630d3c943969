//! The sums of what a report takes, in one walk over its book.
ghost use Rattle.std.specs.Prelude.{◌≡◌, false, map, OnOk};
ghost use Rattle.report_cells.specs.Follows.{Follow};
ghost use Rattle.report_cells.specs.Gathered.{Adds, IsBegun};
ghost use Rattle.report_cells.specs.Made.{Makes};
ghost use Rattle.report_takings.specs.Asking.{Serves, question_of};
ghost use Rattle.report_takings.specs.Costs.{is_at_cost};
ghost use Rattle.report_takings.specs.Takings as spec;
ghost use Rattle.report_takings.specs.Walked.{kept_as, taken_by, taken_in, taken_of};
ghost use Rattle.report_takings.specs.declared.entries.Part.TheVariants.{Counted, Named};

use crate::entries::{Entry, Part, is_chosen, kept_entries};
use crate::scope::Scope;
use crate::takings::{counted, named, shown_in};
use book::Txn;
use hl_base::{List, Memory};
use hl_time::Span;
use query::Search;
use report_cells::{Cells, Gatherer, Reach, ReportFault};
use std::alloc::Global;

/// The sums by account and column of what a report takes, as `take` does, where its amounts are taken as they are written:
/// in one walk over the book, without a list of takings. `Range` names the least symbol whose amounts are too large.
pub fn gather<'a>(
    alloc: Global,
    scope: &Scope<'a>,
    columns: List<Span>,
    reach: Reach,
) -> Result<Cells, ReportFault>
    requires follow { Follow columns }
    requires written { is_at_cost scope.now.options.now ≡ false }
    ensures { Makes columns reach (spec.takings_of (question_of scope.now) columns) result }
{
    let shown = shown_in(columns.as_slice());
    let mut gatherer = Gatherer::new(alloc, columns, reach);
    gather_kept(alloc, scope, shown, &mut gatherer)?;
    gatherer.finish(alloc)
}

/// Adds what a report takes of its postings, in their order.
fn gather_kept<'a>(
    alloc: Global,
    scope: &Scope<'a>,
    shown: Span,
    gatherer: &mut Gatherer<'a>,
) -> Result<(), Memory>
    requires written { is_at_cost scope.now.options.now ≡ false }
    requires begun { IsBegun gatherer.old }
    ensures { OnOk result (Adds gatherer.old (taken_by (question_of scope.now) shown)
        gatherer.new) }
{
    gather_written(alloc, scope, shown, gatherer)?;
    let others = kept_entries(alloc, scope, Part::Named, shown)?;
    gather_named(alloc, scope, &others, gatherer)
}

/// Adds what is taken for their amounts, as they are written, of the postings that are kept for these.
fn gather_written<'a>(
    alloc: Global,
    scope: &Scope<'a>,
    shown: Span,
    gatherer: &mut Gatherer<'a>,
) -> Result<(), Memory>
    requires written { is_at_cost scope.now.options.now ≡ false }
    requires begun { IsBegun gatherer.old }
    ensures { OnOk result (Adds gatherer.old (kept_as Counted (question_of scope.now) shown)
        gatherer.new) }
{
    let mut search = scope.query.search(alloc)?;
    for txn in scope.book.txns.as_slice() {
        gather_all(alloc, &mut search, scope, shown, txn, gatherer)?;
    }
    Ok(())
}

/// Adds what is taken of the postings of a transaction that are kept for their amounts, as they are written.
fn gather_all<'a>(
    alloc: Global,
    search: &mut Search,
    scope: &Scope<'a>,
    shown: Span,
    txn: &'a Txn,
    gatherer: &mut Gatherer<'a>,
) -> Result<(), Memory>
    requires serves { Serves search.old scope.now.query.now }
    requires written { is_at_cost scope.now.options.now ≡ false }
    requires begun { IsBegun gatherer.old }
    ensures added { OnOk result (Adds gatherer.old (taken_in (question_of scope.now) shown txn.now)
        gatherer.new) }
    ensures serves { Serves search.new scope.now.query.now }
{
    for posting in txn.postings.as_slice() {
        let entry = Entry::new(posting, txn);
        gather_one(alloc, search, scope, shown, &entry, gatherer)?;
    }
    Ok(())
}

/// Adds what is taken of a posting, as it is written, if it is kept for its amount.
fn gather_one<'a>(
    alloc: Global,
    search: &mut Search,
    scope: &Scope<'a>,
    shown: Span,
    entry: &Entry<'a>,
    gatherer: &mut Gatherer<'a>,
) -> Result<(), Memory>
    requires serves { Serves search.old scope.now.query.now }
    requires written { is_at_cost scope.now.options.now ≡ false }
    requires begun { IsBegun gatherer.old }
    ensures added { OnOk result (Adds gatherer.old
        (taken_of (question_of scope.now) shown entry.now) gatherer.new) }
    ensures serves { Serves search.new scope.now.query.now }
{
    let start = scope.options.start;
    let chosen = is_chosen(search, scope, start, shown, entry.posting(), entry.txn());
    if chosen {
        return gatherer.add(alloc, &counted(scope, entry, false));
    }
    Ok(())
}

/// Adds what is taken of postings for their accounts alone.
fn gather_named<'a>(
    alloc: Global,
    scope: &Scope<'a>,
    entries: &[Entry<'a>],
    gatherer: &mut Gatherer<'a>,
) -> Result<(), Memory>
    requires { IsBegun gatherer.old }
    ensures { OnOk result (Adds gatherer.old
        (map (spec.taken Named (question_of scope.now)) entries.now) gatherer.new) }
{
    for entry in entries {
        gatherer.add(alloc, &named(scope, entry))?;
    }
    Ok(())
}
