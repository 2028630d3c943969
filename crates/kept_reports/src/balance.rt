//! The text of a balance from what is kept.
ghost use Rattle.std.specs.Prelude.{◌≡◌, []};
ghost use Rattle.book.specs.Styles.{style_in};
ghost use Rattle.hl_base.specs.Gives.{Gives};
ghost use Rattle.index_cells.specs.Asks.{AsksFor, nodes_shown};
ghost use Rattle.index_cells.specs.Books.{KeepsBook};
ghost use Rattle.report_commands.specs.Answered.{balance_of};
ghost use Rattle.report_options.specs.Options.{IsValid};
ghost use Rattle.report_sums.specs.Celled.{cause};
ghost use Rattle.report_sums.specs.Matters.{Matter};
ghost use Rattle.report_takings.specs.Asking.{question_of};
ghost use Rattle.report_takings.specs.Columns.{columns_of};
ghost use Rattle.kept_reports.specs.Served.{IsServed};

use crate::cells::kept_cells;
use balance_layouts::balance_text;
use book::Styles;
use hl_base::{Bytes, Steps};
use index_cells::Kept;
use report_cells::ReportFault;
use report_commands::layout_of;
use report_takings::Scope;
use std::alloc::Global;
use std::sync::ledger::Ledger;

/// The balance report of a book, from what is kept of it.
pub(crate) fn kept_balance<L: Ledger>(
    alloc: Global,
    scope: &Scope,
    kept: &Kept,
    styles: &Styles,
    steps: &mut Steps<L>,
) -> Result<Bytes, ReportFault>
    requires valid { IsValid scope.now.options.now }
    requires bare { scope.now.query.now.terms.items ≡ [] }
    requires served { IsServed scope.now.options.now }
    requires keeps { KeepsBook scope.now.book.now.txns kept.now }
    ensures told { (m : Matter) → m.asked ≡ question_of scope.now → m.style ≡ style_in styles.now
        → Gives (λ text. text) cause result (balance_of m) }
    ensures asked { AsksFor (nodes_shown kept.now (columns_of (question_of scope.now))) steps.old
        steps.new }
{
    let cells = kept_cells(alloc, scope, kept, steps)?;
    let layout = layout_of(scope.options);
    balance_text(alloc, cells, &layout, styles)
}
