//! The lines that say why a log isn't read, what a check found, and why accounts aren't closed.
ghost use Rattle.std.specs.Prelude.{◌≡◌, ◌++◌, Err, IfOk, codes};
ghost use Rattle.journal_printer.specs.Texts.{calendar_text};
ghost use Rattle.time_logs.specs.declared.faults.LogFault.TheVariants as log_fault;
ghost use Rattle.book_care.specs.declared.faults.CloseFault.TheVariants as close_fault;
ghost use Rattle.book_care.specs.declared.faults.StrictFault.TheVariants as strict_fault;
ghost use Rattle.refusals.specs.Refusing.{IsJudgedStatus, IsOfText, Refuses};
ghost use Rattle.book_commands.specs.FaultLines as spec;

use book_care::{CloseFault, StrictFault};
use error_lines::{in_log, memory, past_limit, with_text};
use hl_base::bytes::joined;
use hl_base::{Bytes, Memory};
use hl_time::{DAY_END, Day, print_day};
use refusals::Refusal;
use std::alloc::Global;
use std::string::ToString;
use time_logs::LogFault;

/// Why a log isn't read.
fn log_line(alloc: Global, fault: LogFault) -> Result<Bytes, Memory>
    ensures { IfOk result (λ line. line ≡ spec.log_line fault) }
{
    match fault {
        LogFault::BadLine { line } => in_log(alloc, line, ": bad line"),
        LogFault::Order { line } => in_log(alloc, line, ": order"),
        LogFault::Backwards { line } => in_log(alloc, line, ": backwards"),
        LogFault::Open { line } => in_log(alloc, line, ": open"),
        LogFault::TooMany { count, limit } => past_limit(alloc, count, limit),
        LogFault::Memory => memory(alloc),
    }
}

/// The exit status of a log that isn't read: 7 where it makes too many transactions, else 1.
fn log_status(fault: LogFault) -> u8
    ensures status { result ≡ spec.log_status fault }
    ensures kind { IsJudgedStatus result }
{
    match fault {
        LogFault::TooMany { .. } => 7,
        _ => 1,
    }
}

/// The refusal of a log that isn't read.
pub(crate) fn refuse_log(alloc: Global, fault: LogFault) -> Refusal
    ensures line { Refuses result (spec.log_status fault) (spec.log_line fault) }
    ensures memory { fault ≡ log_fault.Memory → result ≡ Refusal.Memory }
    ensures kind { IsOfText result }
{
    if matches!(fault, LogFault::Memory) {
        return Refusal::Memory;
    }
    let status = log_status(fault);
    match log_line(alloc, fault) {
        Ok(line) => Refusal::Line { status, line },
        Err(Memory) => Refusal::Memory,
    }
}

/// What is said of a line of a journal.
fn in_line(alloc: Global, line: u64, said: &[u8]) -> Result<Bytes, Memory>
    ensures { IfOk result (λ text. text ≡ spec.in_line line said.now) }
{
    let mut text = String::from_str(alloc, "error: line ")?;
    text.push_str(line.to_string(alloc)?.as_str())?;
    text.push_str(": ")?;
    let mut bytes = text.into_bytes();
    bytes.extend_from_slice(said)?;
    bytes.push(b'\n')?;
    Ok(Bytes::from_vec(bytes))
}

/// What isn't declared in a line.
fn said_of(alloc: Global, line: u64, what: &[u8], name: &[u8]) -> Result<Bytes, Memory>
    ensures { IfOk result (λ text. text ≡ spec.in_line line (what.now ++ name.now)) }
{
    let said = joined(alloc, what, name)?;
    in_line(alloc, line, said.as_slice())
}

/// A day of the calendar; a number before or past the calendar shows its first or its last day.
pub(crate) fn day_text(day: Day) -> [u8; 10]
    ensures { result ≡ calendar_text day.0 }
{
    print_day(Day(day.0.min(DAY_END - 1).max(1)))
}

/// A day before the one above it.
fn dates_line(alloc: Global, line: u64, before: Day, day: Day) -> Result<Bytes, Memory>
    ensures { IfOk result (λ text. text ≡ spec.strict_line (strict_fault.Dates line before day)) }
{
    let day = day_text(day);
    let before = day_text(before);
    let front = joined(alloc, &day, b" before ")?;
    said_of(alloc, line, front.as_slice(), &before)
}

/// What a check found.
fn strict_line(alloc: Global, fault: &StrictFault) -> Result<Bytes, Memory>
    ensures { IfOk result (λ line. line ≡ spec.strict_line fault.now) }
{
    match fault {
        StrictFault::Account { line, name } => {
            said_of(alloc, *line, b"undeclared account ", name.as_bytes())
        }
        StrictFault::Commodity { line, symbol } => {
            said_of(alloc, *line, b"undeclared commodity ", symbol.as_bytes())
        }
        StrictFault::Payee { line, payee } => {
            said_of(alloc, *line, b"undeclared payee ", payee.as_bytes())
        }
        StrictFault::Tag { line, name } => {
            said_of(alloc, *line, b"undeclared tag ", name.as_bytes())
        }
        StrictFault::Dates { line, before, day } => dates_line(alloc, *line, *before, *day),
        StrictFault::Memory => memory(alloc),
    }
}

/// The refusal of a journal that a check fails.
pub(crate) fn refuse_strict(alloc: Global, fault: &StrictFault) -> Refusal
    ensures line { Refuses result 1 (spec.strict_line fault.now) }
    ensures memory { fault.now ≡ strict_fault.Memory → result ≡ Refusal.Memory }
    ensures kind { IsOfText result }
{
    if matches!(fault, StrictFault::Memory) {
        return Refusal::Memory;
    }
    match strict_line(alloc, fault) {
        Ok(line) => Refusal::Line { status: 1, line },
        Err(Memory) => Refusal::Memory,
    }
}

/// A posting after the day of the closing entry.
fn later_line(alloc: Global, line: u64, day: Day) -> Result<Bytes, Memory>
    ensures { IfOk result (λ text. text ≡ spec.close_line (close_fault.Later line day)) }
{
    let day = day_text(day);
    said_of(alloc, line, b"later ", &day)
}

/// Why accounts aren't closed.
fn close_line(alloc: Global, fault: &CloseFault) -> Result<Bytes, Memory>
    ensures { IfOk result (λ line. line ≡ spec.close_line fault.now) }
{
    match fault {
        CloseFault::Later { line, day } => later_line(alloc, *line, *day),
        CloseFault::Renamed { account } => with_text(alloc, "error: account: ", account.as_str()),
        CloseFault::Bare { account } => with_text(alloc, "error: no symbol: ", account.as_str()),
        CloseFault::Fine { account: _, symbol } => with_text(
            alloc,
            "error: decimals: ",
            symbol.as_str(),
        ),
        CloseFault::Memory => memory(alloc),
    }
}

/// The refusal of accounts that aren't closed.
pub(crate) fn refuse_close(alloc: Global, fault: &CloseFault) -> Refusal
    ensures line { Refuses result 1 (spec.close_line fault.now) }
    ensures memory { fault.now ≡ close_fault.Memory → result ≡ Refusal.Memory }
    ensures kind { IsOfText result }
{
    if matches!(fault, CloseFault::Memory) {
        return Refusal::Memory;
    }
    match close_line(alloc, fault) {
        Ok(line) => Refusal::Line { status: 1, line },
        Err(Memory) => Refusal::Memory,
    }
}
