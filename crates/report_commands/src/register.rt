//! The register.
ghost use Rattle.std.specs.Prelude.{◌≡◌};
ghost use Rattle.hl_base.specs.Gives.{Gives};
ghost use Rattle.book.specs.Styles.{style_in};
ghost use Rattle.report_options.specs.Options.{IsValid};
ghost use Rattle.report_sums.specs.Celled.{cause};
ghost use Rattle.report_sums.specs.Matters.{matter_of};
ghost use Rattle.report_commands.specs.Answered as spec;

use crate::tables::columns_in;
use book::Styles;
use hl_base::Bytes;
use hl_time::Span;
use register_report::{Head, Register, register_takings, register_text};
use report_cells::{ReportFault, Taking};
use report_sums::{Job, valued_takings};
use report_takings::shown_in;
use std::alloc::Global;

/// The register of a report's days.
pub(crate) fn register(alloc: Global, job: &Job) -> Result<Bytes, ReportFault>
    requires { IsValid job.now.scope.options.now }
    ensures { Gives (λ text. text) cause result (spec.register_of (matter_of job.now)) }
{
    let columns = columns_in(alloc, &job.scope)?;
    let span = shown_in(columns.as_slice());
    register_over(alloc, job, span)
}

/// The register of some days.
fn register_over(alloc: Global, job: &Job, span: Span) -> Result<Bytes, ReportFault>
    ensures { Gives (λ text. text) cause result (spec.register_over (matter_of job.now) span) }
{
    let taken = register_takings(alloc, &job.scope, span)?;
    let Register { takings, heads } = taken;
    valued_lines(alloc, job, span, takings, &heads)
}

/// The lines of what a register takes, once it is valued.
fn valued_lines<'a>(
    alloc: Global,
    job: &Job<'a>,
    span: Span,
    takings: Vec<Taking<'a>>,
    heads: &[Head],
) -> Result<Bytes, ReportFault>
    requires { heads.now ≡ spec.register_heads (matter_of job.now).asked span }
    ensures { Gives (λ text. text) cause result
        (spec.valued_lines (matter_of job.now) span takings.entry.items) }
{
    let values = valued_takings(alloc, job, takings, span)?;
    register_lines(alloc, &values, heads, job.styles)
}

/// The lines of a register's takings.
fn register_lines(
    alloc: Global,
    takings: &[Taking],
    heads: &[Head],
    styles: &Styles,
) -> Result<Bytes, ReportFault>
    ensures { Gives (λ text. text) cause result
        (spec.register_lines (style_in styles.now) heads.now takings.now) }
{
    register_text(alloc, takings, heads, styles)
}
