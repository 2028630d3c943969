//! The report commands.
ghost use Rattle.std.specs.Prelude.{◌≡◌, codes};
ghost use Rattle.report_options.specs.Commands as commands;
ghost use Rattle.report_options.specs.Names as spec;

use crate::texts::{is_either, is_same};

/// A report over a journal.
#[derive(Clone, Copy, Debug, PartialEq, Eq)]
pub enum Command {
    /// The sums of each account.
    Balance,
    /// The transactions by day.
    Print,
    /// The postings by day, with running totals.
    Register,
    /// Revenues and expenses.
    IncomeStatement,
    /// Assets, liabilities and equity, at the end of each column.
    BalanceSheet,
    /// The names of the accounts.
    Accounts,
    /// Nothing, of a journal without a fault.
    Check,
}

/// The command that a word names: one of the seven, or `bal`, `reg`, `is` or `bs`.
#[tactic(auto, unfolding(crate::specs::Commands::command_named))]
pub fn command_named(word: &str) -> Option<Command>
    ensures { result ≡ commands.command_named word.now }
{
    let word = word.as_bytes();
    if is_either(word, b"bal", b"balance") {
        Some(Command::Balance)
    } else if is_same(word, b"print") {
        Some(Command::Print)
    } else if is_either(word, b"reg", b"register") {
        Some(Command::Register)
    } else if is_either(word, b"is", b"incomestatement") {
        Some(Command::IncomeStatement)
    } else if is_either(word, b"bs", b"balancesheet") {
        Some(Command::BalanceSheet)
    } else if is_same(word, b"accounts") {
        Some(Command::Accounts)
    } else if is_same(word, b"check") {
        Some(Command::Check)
    } else {
        None
    }
}

/// Whether a report has columns: balance and the two statements.
pub(crate) fn has_columns(command: Command) -> bool
    ensures { result ≡ spec.has_columns command }
{
    match command {
        Command::Balance | Command::IncomeStatement | Command::BalanceSheet => true,
        _ => false,
    }
}

pub(crate) fn is_sheet(command: Command) -> bool
    ensures { result ≡ spec.is_sheet command }
{
    match command {
        Command::BalanceSheet => true,
        _ => false,
    }
}
