//! Refusals, with their exit statuses and lines.
ghost use Rattle.std.specs.Prelude.{◌≡◌, Err};
ghost use Rattle.book.specs.FaultLine.{fault_line};
ghost use Rattle.refusals.specs.Errors as spec;
ghost use Rattle.refusals.specs.Refusing.{IsJudgedStatus, IsOfReport, IsOfText, Refuses, RefusesPattern, RefusesPlan, RefusesReport, RefusesRules};

use crate::lines::{pattern_line, rules_line, words_line};
use crate::refusal::{PatternOf, Refusal};
use book::{Cause, Fault, print_fault};
use generated::GenFault;
use hl_base::Memory;
use plan_commands::PlanFault;
use report_cells::ReportFault;
use report_commands::WordsFault;
use std::alloc::Global;

/// The exit status of a text with a fault: 7 where an entry is too long, else 1.
pub fn status_for(cause: &Cause) -> u8
    ensures status { result ≡ spec.fault_status cause.now }
    ensures kind { IsJudgedStatus result }
{
    match cause {
        Cause::TooLong => 7,
        _ => 1,
    }
}

/// The refusal of a text with a fault.
pub fn refuse_fault(alloc: Global, fault: &Fault) -> Refusal
    ensures line { Refuses result (spec.fault_status fault.now.cause) (fault_line fault.now) }
    ensures kind { IsOfText result }
{
    let status = status_for(&fault.cause);
    match print_fault(alloc, fault) {
        Ok(line) => Refusal::Line { status, line },
        Err(_) => Refusal::Memory,
    }
}

/// The exit status of a report that can't be made: 7 where it has too many columns, else 1.
fn report_status(fault: &ReportFault) -> u8
    ensures status { result ≡ spec.report_status fault.now }
    ensures kind { IsJudgedStatus result }
{
    match fault {
        ReportFault::TooWide { .. } => 7,
        _ => 1,
    }
}

/// The exit status of a report that isn't made.
fn words_status(fault: &WordsFault) -> u8
    ensures status { result ≡ spec.words_status fault.now }
    ensures kind { IsJudgedStatus result }
{
    match fault {
        WordsFault::Report(fault) => report_status(fault),
        _ => 1,
    }
}

/// The refusal of a report that isn't made.
fn refuse_words(alloc: Global, fault: &WordsFault) -> Refusal
    ensures line { Refuses result (spec.words_status fault.now) (spec.words_line fault.now) }
    ensures kind { IsOfText result }
{
    let status = words_status(fault);
    match words_line(alloc, fault) {
        Ok(line) => Refusal::Line { status, line },
        Err(Memory) => Refusal::Memory,
    }
}

/// The refusal of what has a pattern that isn't built.
fn refuse_pattern(alloc: Global, what: PatternOf) -> Refusal
    ensures line { RefusesPattern result what }
    ensures kind { IsOfReport (Err result) }
{
    match pattern_line(alloc, &what) {
        Ok(line) => Refusal::Pattern { what, line },
        Err(Memory) => Refusal::Memory,
    }
}

/// The refusal of a report that isn't made, or of which a pattern isn't built.
pub fn refuse_report(alloc: Global, fault: WordsFault) -> Refusal
    ensures cause { RefusesReport result fault }
    ensures kind { IsOfReport (Err result) }
{
    match fault {
        WordsFault::Memory => Refusal::Memory,
        WordsFault::PatternRefused { word } => refuse_pattern(alloc, PatternOf::Word(word)),
        fault => refuse_words(alloc, &fault),
    }
}

/// The exit status of rules that make no book: 7 where an entry is too long or they make too much, else 1.
fn rules_status(fault: &GenFault) -> u8
    ensures status { result ≡ spec.rules_status fault.now }
    ensures kind { IsJudgedStatus result }
{
    match fault {
        GenFault::Journal(fault) => status_for(&fault.cause),
        GenFault::TooMany { .. } => 7,
        _ => 1,
    }
}

/// The refusal of rules that make no book.
fn refuse_made(alloc: Global, fault: &GenFault) -> Refusal
    ensures line { Refuses result (spec.rules_status fault.now) (spec.rules_line fault.now) }
    ensures kind { IsOfText result }
{
    let status = rules_status(fault);
    match rules_line(alloc, fault) {
        Ok(line) => Refusal::Line { status, line },
        Err(Memory) => Refusal::Memory,
    }
}

/// The refusal of rules that make no book, or of which a pattern isn't built.
fn refuse_rules(alloc: Global, fault: GenFault) -> Refusal
    ensures cause { RefusesRules result fault }
    ensures kind { IsOfReport (Err result) }
{
    match fault {
        GenFault::Memory => Refusal::Memory,
        GenFault::PatternRefused { line } => refuse_pattern(alloc, PatternOf::Rule(line)),
        fault => refuse_made(alloc, &fault),
    }
}

/// The refusal of a report that isn't made with what rules make, or of which a pattern isn't built.
pub fn refuse_plan(alloc: Global, fault: PlanFault) -> Refusal
    ensures cause { RefusesPlan result fault }
    ensures kind { IsOfReport (Err result) }
{
    match fault {
        PlanFault::Words(fault) => refuse_report(alloc, fault),
        PlanFault::Generated(fault) => refuse_rules(alloc, fault),
        PlanFault::Memory => Refusal::Memory,
    }
}
