//! The sums of a balance from what is kept.
ghost use Rattle.std.specs.Prelude.{◌≡◌, ◌∷◌, [], None, IfOk, IfSome};
ghost use Rattle.hl_base.specs.Gives.{Gives};
ghost use Rattle.index_cells.specs.Asks.{AsksFor, nodes_shown};
ghost use Rattle.index_cells.specs.Books.{KeepsBook};
ghost use Rattle.index_cells.specs.Shown.{Shows};
ghost use Rattle.report_cells.specs.Follows.{Follow};
ghost use Rattle.report_commands.specs.Answered.{columns_in};
ghost use Rattle.report_options.specs.Options.{IsValid};
ghost use Rattle.report_sums.specs.Celled.{cause, reach_of};
ghost use Rattle.report_sums.specs.Matters.{Matter};
ghost use Rattle.report_takings.specs.Asking.{question_of};
ghost use Rattle.report_takings.specs.Columns.{columns_of};
ghost use Rattle.report_takings.specs.Takings.{takings_of};
ghost use Rattle.kept_reports.specs.Alike.{Shown, wide_column};
ghost use Rattle.kept_reports.specs.Served.{IsServed};

use hl_base::{List, Memory, Steps};
use hl_time::{DAY_END, Period, Span};
use index_cells::{Kept, plain_cells};
use report_cells::{Cells, ReportFault};
use report_sums::reach_of;
use report_takings::{Scope, columns_of};
use std::alloc::Global;
use std::sync::ledger::Ledger;

/// The sums that are shown as those of the report, from what is kept of its book. Without an interval the days of its
/// column aren't shown, so the ends of the book's days aren't looked for.
pub(crate) fn kept_cells<L: Ledger>(
    alloc: Global,
    scope: &Scope,
    kept: &Kept,
    steps: &mut Steps<L>,
) -> Result<Cells, ReportFault>
    requires valid { IsValid scope.now.options.now }
    requires bare { scope.now.query.now.terms.items ≡ [] }
    requires served { IsServed scope.now.options.now }
    requires keeps { KeepsBook scope.now.book.now.txns kept.now }
    ensures shown { (m : Matter) → m.asked ≡ question_of scope.now → Shown m result }
    ensures asked { AsksFor (nodes_shown kept.now (columns_of (question_of scope.now))) steps.old
        steps.new }
{
    match scope.options.bounds.interval {
        Some(_) => table_cells(alloc, scope, kept, steps),
        None => list_cells(alloc, scope, kept, steps),
    }
}

/// The sums by the columns of a table.
fn table_cells<L: Ledger>(
    alloc: Global,
    scope: &Scope,
    kept: &Kept,
    steps: &mut Steps<L>,
) -> Result<Cells, ReportFault>
    requires valid { IsValid scope.now.options.now }
    requires bare { scope.now.query.now.terms.items ≡ [] }
    requires served { IsServed scope.now.options.now }
    requires keeps { KeepsBook scope.now.book.now.txns kept.now }
    ensures shown { (m : Matter) → m.asked ≡ question_of scope.now → Shown m result }
    ensures asked { AsksFor (nodes_shown kept.now (columns_of (question_of scope.now))) steps.old
        steps.new }
{
    let columns = table_columns(alloc, scope)?;
    cells_by(alloc, scope, kept, columns, steps)
}

/// The columns of a table, by the days of its book. `TooWide` comes exactly where there are more than 1,200.
fn table_columns(alloc: Global, scope: &Scope) -> Result<List<Span>, ReportFault>
    requires valid { IsValid scope.now.options.now }
    ensures told { Gives (λ columns. columns) cause result (columns_in (question_of scope.now)) }
    ensures columns { IfOk result (λ columns. columns ≡ columns_of (question_of scope.now)) }
    ensures follow { IfOk result Follow }
{
    columns_of(alloc, scope)
}

/// The sums of a list, over all days between its bounds.
fn list_cells<L: Ledger>(
    alloc: Global,
    scope: &Scope,
    kept: &Kept,
    steps: &mut Steps<L>,
) -> Result<Cells, ReportFault>
    requires bare { scope.now.query.now.terms.items ≡ [] }
    requires served { IsServed scope.now.options.now }
    requires keeps { KeepsBook scope.now.book.now.txns kept.now }
    requires whole { scope.now.options.now.bounds.interval ≡ None }
    ensures shown { (m : Matter) → m.asked ≡ question_of scope.now → Shown m result }
    ensures asked { AsksFor (nodes_shown kept.now (columns_of (question_of scope.now))) steps.old
        steps.new }
{
    let columns = wide_columns(alloc, &scope.options.bounds)?;
    cells_by(alloc, scope, kept, columns, steps)
}

/// One column of all days between some bounds.
fn wide_columns(alloc: Global, bounds: &Period) -> Result<List<Span>, Memory>
    ensures { IfOk result (λ columns. columns ≡ wide_column bounds.now ∷ []) }
{
    let mut columns = Vec::new(alloc);
    columns.push(wide_column(bounds))?;
    Ok(List::from_vec(columns))
}

/// All days between some bounds.
fn wide_column(bounds: &Period) -> Span
    ensures { result ≡ wide_column bounds.now }
{
    Span {
        from: bounds.from.unwrap_or(0),
        end: bounds.end.unwrap_or(DAY_END),
    }
}

/// The sums of what the report takes by some columns.
fn cells_by<L: Ledger>(
    alloc: Global,
    scope: &Scope,
    kept: &Kept,
    columns: List<Span>,
    steps: &mut Steps<L>,
) -> Result<Cells, ReportFault>
    requires bare { scope.now.query.now.terms.items ≡ [] }
    requires served { IsServed scope.now.options.now }
    requires keeps { KeepsBook scope.now.book.now.txns kept.now }
    ensures made { Shows columns (reach_of scope.now.options.now.start)
        (takings_of (question_of scope.now) columns) result }
    ensures asked { AsksFor (nodes_shown kept.now columns) steps.old steps.new }
{
    let reach = reach_of(scope.options.start);
    plain_cells(alloc, scope, kept, columns, reach, steps)
}
