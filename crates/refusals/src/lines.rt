//! The lines that say why a report isn't made.
ghost use Rattle.std.specs.Prelude.{◌≡◌, IfOk};
ghost use Rattle.refusals.specs.Errors as spec;

use crate::refusal::PatternOf;
use book::print_fault;
use error_lines::{
    bad_rule, bad_term, conflict, memory, out_of_range, past_limit, refused_pattern,
    refused_rule_pattern, with_text,
};
use generated::GenFault;
use hl_base::{Bytes, Memory};
use report_cells::ReportFault;
use report_commands::WordsFault;
use std::alloc::Global;

/// A pattern that isn't built.
pub(crate) fn pattern_line(alloc: Global, what: &PatternOf) -> Result<Bytes, Memory>
    ensures { IfOk result (λ line. line ≡ spec.pattern_line what.now) }
{
    match what {
        PatternOf::Word(word) => refused_pattern(alloc, word.as_str()),
        PatternOf::Rule(line) => refused_rule_pattern(alloc, *line),
    }
}

/// Why a report can't be made.
fn report_line(alloc: Global, fault: &ReportFault) -> Result<Bytes, Memory>
    ensures { IfOk result (λ line. line ≡ spec.report_line fault.now) }
{
    match fault {
        ReportFault::Range { symbol } => out_of_range(alloc, symbol.as_str()),
        ReportFault::TooWide { columns, limit } => past_limit(alloc, *columns, *limit),
        ReportFault::Memory => memory(alloc),
    }
}

/// What is wrong with words, or why a report over them isn't made.
pub fn words_line(alloc: Global, fault: &WordsFault) -> Result<Bytes, Memory>
    ensures { IfOk result (λ line. line ≡ spec.words_line fault.now) }
{
    match fault {
        WordsFault::NoCommand { word } => with_text(alloc, "error: usage: ", word.as_str()),
        WordsFault::BadOption { word } => with_text(alloc, "error: usage: ", word.as_str()),
        WordsFault::Conflict { a, b } => conflict(alloc, a.as_str(), b.as_str()),
        WordsFault::BadTerm { word } => bad_term(alloc, word.as_str()),
        WordsFault::PatternRefused { word } => refused_pattern(alloc, word.as_str()),
        WordsFault::Report(fault) => report_line(alloc, fault),
        WordsFault::Memory => memory(alloc),
    }
}

/// Why rules make no book.
pub fn rules_line(alloc: Global, fault: &GenFault) -> Result<Bytes, Memory>
    ensures { IfOk result (λ line. line ≡ spec.rules_line fault.now) }
{
    match fault {
        GenFault::Journal(fault) => print_fault(alloc, fault),
        GenFault::BadTerm { line } => bad_rule(alloc, *line),
        GenFault::PatternRefused { line } => refused_rule_pattern(alloc, *line),
        GenFault::TooMany { count, limit } => past_limit(alloc, *count, *limit),
        GenFault::Memory => memory(alloc),
    }
}
