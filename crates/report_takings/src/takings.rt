//! What a report takes of the postings of its book.
ghost use Rattle.std.specs.Prelude.{◌≡◌, ◌++◌, true, false, None, map, filter, IfOk, IfErr, OnOk};
ghost use Rattle.std.specs.Option.{option_copied};
ghost use Rattle.entry_balance.specs.Entry.{amount_cost_fits};
ghost use Rattle.report_takings.specs.Asking.{Serves, entries, question_of};
ghost use Rattle.report_takings.specs.Costs.{is_at_cost};
ghost use Rattle.report_takings.specs.Takings as spec;
ghost use Rattle.report_takings.specs.Walked.{taken_in, taken_of};
ghost use Rattle.report_takings.specs.declared.entries.Part.TheVariants.{Counted, Named};

use crate::costs::{first_out, is_at_cost, moved};
use crate::cuts::cut_to;
use crate::entries::{Entry, Part, is_chosen, kept_entries};
use crate::scope::Scope;
use book::Txn;
use hl_base::{Memory, Text};
use hl_time::Span;
use query::Search;
use report_cells::{ReportFault, Taking};
use std::alloc::Global;

/// What a report with these columns takes of its postings, in their order: those on the days of the columns that
/// the query means, for historical sums all before the columns' end that it means whatever bounds it has on days; each with its
/// account cut to the query's depth, its day, and its amount, or with `-B` or `--value=cost` what that costs. With `-E`
/// the accounts of earlier postings follow, with no amounts. `Range` comes exactly where a product is out of range, and
/// tells the least symbol of such an amount.
pub fn take<'a>(
    alloc: Global,
    scope: &Scope<'a>,
    columns: &[Span],
) -> Result<Vec<Taking<'a>>, ReportFault>
    ensures taken { IfOk result (λ takings.
        takings.items ≡ spec.takings_of (question_of scope.now) columns.now) }
    ensures within { OnOk result (spec.out_of (question_of scope.now) columns.now ≡ None) }
    ensures fault { IfErr result (spec.IsOut (question_of scope.now) columns.now) }
{
    let shown = shown_in(columns);
    let mut takings = take_counted(alloc, scope, shown)?;
    let others = kept_entries(alloc, scope, Part::Named, shown)?;
    push_named(scope, &others, &mut takings)?;
    Ok(takings)
}

/// What is taken for their amounts of the postings that are kept for these. As they are written they are taken in one
/// walk over the book, and at cost from a list, since the least symbol whose cost is out of range is sought before.
fn take_counted<'a>(
    alloc: Global,
    scope: &Scope<'a>,
    shown: Span,
) -> Result<Vec<Taking<'a>>, ReportFault>
    ensures taken { IfOk result (λ takings.
        takings.items ≡ map (spec.taken Counted (question_of scope.now))
        (filter (spec.is_kept Counted (question_of scope.now) shown)
        (entries (question_of scope.now)))) }
    ensures within { OnOk result (spec.out_among scope.now.options.now
        (filter (spec.is_kept Counted (question_of scope.now) shown)
        (entries (question_of scope.now))) ≡ None) }
    ensures fault { IfErr result (spec.IsOutAmong scope.now.options.now
        (filter (spec.is_kept Counted (question_of scope.now) shown)
        (entries (question_of scope.now)))) }
{
    if is_at_cost(scope.options) {
        return take_kept(alloc, scope, shown);
    }
    Ok(take_written(alloc, scope, shown)?)
}

/// What is taken for their amounts of the postings that are kept for these, from a list of them.
fn take_kept<'a>(
    alloc: Global,
    scope: &Scope<'a>,
    shown: Span,
) -> Result<Vec<Taking<'a>>, ReportFault>
    ensures taken { IfOk result (λ takings.
        takings.items ≡ map (spec.taken Counted (question_of scope.now))
        (filter (spec.is_kept Counted (question_of scope.now) shown)
        (entries (question_of scope.now)))) }
    ensures within { OnOk result (spec.out_among scope.now.options.now
        (filter (spec.is_kept Counted (question_of scope.now) shown)
        (entries (question_of scope.now))) ≡ None) }
    ensures fault { IfErr result (spec.IsOutAmong scope.now.options.now
        (filter (spec.is_kept Counted (question_of scope.now) shown)
        (entries (question_of scope.now)))) }
{
    let entries = kept_entries(alloc, scope, Part::Counted, shown)?;
    take_entries(alloc, scope, &entries)
}

/// How many postings most transactions have. A list of takings that grows is copied on the way.
const USUAL_POSTINGS: usize = 2;

/// What is taken for their amounts, as they are written, of the postings that are kept for these.
fn take_written<'a>(
    alloc: Global,
    scope: &Scope<'a>,
    shown: Span,
) -> Result<Vec<Taking<'a>>, Memory>
    requires { is_at_cost scope.now.options.now ≡ false }
    ensures { IfOk result (λ takings.
        takings.items ≡ map (spec.taken Counted (question_of scope.now))
        (filter (spec.is_kept Counted (question_of scope.now) shown)
        (entries (question_of scope.now)))) }
{
    let mut search = scope.query.search(alloc)?;
    let count = scope.book.txns.len().saturating_mul(USUAL_POSTINGS);
    let mut takings = Vec::with_capacity(alloc, count)?;
    for txn in scope.book.txns.as_slice() {
        take_all(&mut search, scope, shown, txn, &mut takings)?;
    }
    Ok(takings)
}

/// Puts what is taken of the postings of a transaction that are kept for their amounts, as they are written.
fn take_all<'a>(
    search: &mut Search,
    scope: &Scope<'a>,
    shown: Span,
    txn: &'a Txn,
    takings: &mut Vec<Taking<'a>>,
) -> Result<(), Memory>
    requires serves { Serves search.old scope.now.query.now }
    requires written { is_at_cost scope.now.options.now ≡ false }
    ensures taken { OnOk result (takings.new.items ≡ takings.old.items
        ++ taken_in (question_of scope.now) shown txn.now) }
    ensures serves { Serves search.new scope.now.query.now }
{
    for posting in txn.postings.as_slice() {
        let entry = Entry::new(posting, txn);
        take_one(search, scope, shown, &entry, takings)?;
    }
    Ok(())
}

/// Puts what is taken of a posting, as it is written, if it is kept for its amount.
fn take_one<'a>(
    search: &mut Search,
    scope: &Scope<'a>,
    shown: Span,
    entry: &Entry<'a>,
    takings: &mut Vec<Taking<'a>>,
) -> Result<(), Memory>
    requires serves { Serves search.old scope.now.query.now }
    requires written { is_at_cost scope.now.options.now ≡ false }
    ensures taken { OnOk result (takings.new.items ≡ takings.old.items
        ++ taken_of (question_of scope.now) shown entry.now) }
    ensures serves { Serves search.new scope.now.query.now }
{
    let start = scope.options.start;
    if is_chosen(search, scope, start, shown, entry.posting(), entry.txn()) {
        takings.push(counted(scope, entry, false))?;
    }
    Ok(())
}

/// What is taken of postings of the report's book for their amounts: of each its account cut to the query's depth, its
/// day, and its amount, or with `-B` or `--value=cost` what that costs. `Range` comes exactly where a product is out of
/// range, and tells the least symbol of such an amount.
pub fn take_entries<'a>(
    alloc: Global,
    scope: &Scope<'a>,
    entries: &[Entry<'a>],
) -> Result<Vec<Taking<'a>>, ReportFault>
    ensures taken { IfOk result (λ takings. takings.items
        ≡ map (spec.taken Counted (question_of scope.now)) entries.now) }
    ensures within { OnOk result (spec.out_among scope.now.options.now entries.now ≡ None) }
    ensures fault { IfErr result (spec.IsOutAmong scope.now.options.now entries.now) }
{
    match out_of(scope, entries) {
        Some(symbol) => {
            let symbol = Text::copied(alloc, symbol.as_str())?;
            Err(ReportFault::Range { symbol })
        }
        None => Ok(counted_takings(alloc, scope, entries)?),
    }
}

/// The days that some columns show.
pub fn shown_in(columns: &[Span]) -> Span
    ensures { result ≡ spec.shown_in columns.now }
{
    match columns.last() {
        Some(last) => Span {
            from: columns[0].from,
            end: last.end,
        },
        None => Span { from: 0, end: 0 },
    }
}

/// The least symbol of an amount whose cost is asked for and out of range.
fn out_of<'a>(scope: &Scope<'a>, entries: &[Entry<'a>]) -> Option<&'a Text>
    ensures { option_copied result ≡ spec.out_among scope.now.options.now entries.now }
{
    if is_at_cost(scope.options) {
        first_out(entries)
    } else {
        None
    }
}

/// What is taken of a posting for its amount.
pub(crate) fn counted<'a>(scope: &Scope<'a>, entry: &Entry<'a>, costs: bool) -> Taking<'a>
    requires at_cost { costs ≡ is_at_cost scope.now.options.now }
    requires told { costs ≡ true → amount_cost_fits entry.now.0.amount entry.now.0.cost ≡ true }
    ensures { result ≡ spec.taken Counted (question_of scope.now) entry.now }
{
    let posting = entry.posting();
    Taking {
        account: cut_to(posting.account.as_str(), scope.query.depth()),
        day: entry.day(),
        amount: moved(posting, costs),
    }
}

/// What is taken of a posting for its account alone.
pub(crate) fn named<'a>(scope: &Scope<'a>, entry: &Entry<'a>) -> Taking<'a>
    ensures { result ≡ spec.taken Named (question_of scope.now) entry.now }
{
    Taking {
        account: cut_to(entry.posting().account.as_str(), scope.query.depth()),
        day: entry.day(),
        amount: None,
    }
}

/// What is taken of some postings for their amounts.
#[tactic(auto, using(crate::proofs::Outs::told_at))]
fn counted_takings<'a>(
    alloc: Global,
    scope: &Scope<'a>,
    entries: &[Entry<'a>],
) -> Result<Vec<Taking<'a>>, Memory>
    requires { spec.out_among scope.now.options.now entries.now ≡ None }
    ensures { IfOk result (λ takings. takings.items
        ≡ map (spec.taken Counted (question_of scope.now)) entries.now) }
{
    let costs = is_at_cost(scope.options);
    let mut takings = Vec::with_capacity(alloc, entries.len())?;
    for entry in entries {
        takings.push(counted(scope, entry, costs))?;
    }
    Ok(takings)
}

/// Puts what is taken of postings for their accounts alone.
fn push_named<'a>(
    scope: &Scope<'a>,
    entries: &[Entry<'a>],
    takings: &mut Vec<Taking<'a>>,
) -> Result<(), Memory>
    ensures { OnOk result (takings.new.items
        ≡ takings.old.items ++ map (spec.taken Named (question_of scope.now)) entries.now) }
{
    for entry in entries {
        takings.push(named(scope, entry))?;
    }
    Ok(())
}
