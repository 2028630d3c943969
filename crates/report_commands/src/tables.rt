//! The reports with columns: the balance report and the statements.
ghost use Rattle.std.specs.Prelude.{◌≡◌, ◌<◌, ◌^◌, IfOk, length};
ghost use Rattle.hl_base.specs.Gives.{Gives};
ghost use Rattle.query.specs.OwnLetters.{own_in};
ghost use Rattle.report_cells.specs.Follows.{Follow};
ghost use Rattle.report_options.specs.Options.{IsValid};
ghost use Rattle.report_sums.specs.Celled.{cause, celled_of};
ghost use Rattle.report_sums.specs.Matters.{matter_of};
ghost use Rattle.report_sums.specs.Summed.{Summed};
ghost use Rattle.report_takings.specs.Asking.{question_of};
ghost use Rattle.statements.specs.declared.statement.Statement.TheVariants.{Income, Sheet};
ghost use Rattle.report_commands.specs.Answered as spec;

use crate::layouts::layout_of;
use balance_layouts::balance_text;
use hl_base::{Bytes, List};
use hl_time::Span;
use report_cells::{Cells, ReportFault};
use report_sums::{Job, sums};
use report_takings::{Scope, columns_of};
use statements::{income_text, sheet_text};
use std::alloc::Global;

/// The columns of a report. `TooWide` comes exactly where there are more than 1,200.
pub(crate) fn columns_in(alloc: Global, scope: &Scope) -> Result<List<Span>, ReportFault>
    requires { IsValid scope.now.options.now }
    ensures told { Gives (λ columns.
        columns) cause result (spec.columns_in (question_of scope.now)) }
    ensures follow { IfOk result Follow }
    ensures few { IfOk result (λ columns. length columns < 2 ^ 32) }
{
    columns_of(alloc, scope)
}

/// The sums of a report by its columns. `TooWide` comes before `Range`.
fn sums_in(alloc: Global, job: &Job) -> Result<Cells, ReportFault>
    requires { IsValid job.now.scope.options.now }
    ensures told { Gives (λ cells. (cells.columns, celled_of cells)) cause result
        (spec.sums_in (matter_of job.now)) }
    ensures some { IfOk result (λ cells. 0 < length cells.columns) }
    ensures fits { IfOk result (λ cells.
        Summed job.now.scope.options.now.start (length cells.columns) (celled_of cells)) }
{
    let columns = columns_in(alloc, &job.scope)?;
    sums(alloc, job, columns)
}

/// A balance report.
pub(crate) fn balance(alloc: Global, job: &Job) -> Result<Bytes, ReportFault>
    requires { IsValid job.now.scope.options.now }
    ensures { Gives (λ text. text) cause result (spec.balance_of (matter_of job.now)) }
{
    let cells = sums_in(alloc, job)?;
    let layout = layout_of(job.scope.options);
    balance_text(alloc, cells, &layout, job.styles)
}

/// An income statement.
pub(crate) fn income(alloc: Global, job: &Job) -> Result<Bytes, ReportFault>
    requires { IsValid job.now.scope.options.now }
    ensures { Gives (λ text. text) cause result
        (spec.statement_of Income (own_in job.now.scope.types.now) (matter_of job.now)) }
{
    let cells = sums_in(alloc, job)?;
    let layout = layout_of(job.scope.options);
    income_text(alloc, cells, &layout, job.scope.types, job.styles)
}

/// A balance sheet.
pub(crate) fn sheet(alloc: Global, job: &Job) -> Result<Bytes, ReportFault>
    requires { IsValid job.now.scope.options.now }
    ensures { Gives (λ text. text) cause result
        (spec.statement_of Sheet (own_in job.now.scope.types.now) (matter_of job.now)) }
{
    let cells = sums_in(alloc, job)?;
    let layout = layout_of(job.scope.options);
    sheet_text(alloc, cells, &layout, job.scope.types, job.styles)
}
