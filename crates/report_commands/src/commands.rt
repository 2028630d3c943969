//! What each report command answers.
ghost use Rattle.std.specs.Prelude.{◌≡◌};
ghost use Rattle.hl_base.specs.Gives.{Gives};
ghost use Rattle.query.specs.OwnLetters.{own_in};
ghost use Rattle.report_options.specs.Options.{IsValid};
ghost use Rattle.report_sums.specs.Celled.{cause};
ghost use Rattle.report_sums.specs.Matters.{matter_of};
ghost use Rattle.report_commands.specs.Answered as spec;

use crate::register::register;
use crate::tables::{balance, income, sheet};
use hl_base::Bytes;
use journal_listings::{accounts_report, print_report};
use report_cells::ReportFault;
use report_options::Command;
use report_sums::Job;
use std::alloc::Global;

/// What the command of a report's options answers.
pub(crate) fn text_by(alloc: Global, job: &Job) -> Result<Bytes, ReportFault>
    requires { IsValid job.now.scope.options.now }
    ensures { Gives (λ text. text) cause result (spec.text_by job.now.scope.options.now.command
        (own_in job.now.scope.types.now) (matter_of job.now)) }
{
    match job.scope.options.command {
        Command::Balance => balance(alloc, job),
        Command::IncomeStatement => income(alloc, job),
        Command::BalanceSheet => sheet(alloc, job),
        Command::Register => register(alloc, job),
        Command::Print => journal(alloc, job),
        Command::Accounts => accounts(alloc, job),
        Command::Check => Ok(Bytes::new(alloc)),
    }
}

/// The transactions that are printed.
fn journal(alloc: Global, job: &Job) -> Result<Bytes, ReportFault>
    ensures { Gives (λ text. text) cause result (spec.text_by Command.Print
        (own_in job.now.scope.types.now) (matter_of job.now)) }
{
    Ok(print_report(alloc, &job.scope, job.styles)?)
}

/// The accounts that are listed.
fn accounts(alloc: Global, job: &Job) -> Result<Bytes, ReportFault>
    ensures { Gives (λ text. text) cause result (spec.text_by Command.Accounts
        (own_in job.now.scope.types.now) (matter_of job.now)) }
{
    Ok(accounts_report(alloc, &job.scope)?)
}
