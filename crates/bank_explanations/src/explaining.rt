//! The lines that explain why a bank's file or its rules are refused.
ghost use Rattle.std.specs.Prelude.{◌≡◌, ◌++◌, IfOk};
ghost use Rattle.bank_explanations.specs.Explained as spec;

use crate::parts::{Part, part_for};
use crate::places::{number_before, record_text};
use crate::sentences::{rules_sentence, sentence_of};
use csv_entries::ConvertFault;
use csv_rules::{DatePart, EntryField, Rules, RulesFault};
use explanations::lines::{first_content, line_numbered};
use hl_base::{Bytes, List, Memory};
use std::alloc::Global;
use std::string::ToString;

/// The name of a field in rules.
fn name_of(field: EntryField) -> &'static str
    ensures { result.now ≡ spec.name_of field }
{
    match field {
        EntryField::Date => "date",
        EntryField::Status => "status",
        EntryField::Code => "code",
        EntryField::Description => "description",
        EntryField::Comment => "comment",
        EntryField::Account1 => "account1",
        EntryField::Account2 => "account2",
        EntryField::Amount => "amount",
        EntryField::AmountIn => "amount-in",
        EntryField::AmountOut => "amount-out",
        EntryField::Amount2 => "amount2",
        EntryField::Currency => "currency",
    }
}

/// The number of a record, and that of its line.
fn record_line(alloc: Global, n: u64, line: u64) -> Result<Vec<u8>, Memory>
    ensures { IfOk result (λ text. text.items ≡ spec.record_line n line) }
{
    let mut text = String::from_str(alloc, "record ")?;
    text.push_str(n.to_string(alloc)?.as_str())?;
    text.push_str(", line ")?;
    text.push_str(line.to_string(alloc)?.as_str())?;
    text.push_str("\n")?;
    Ok(text.into_bytes())
}

/// The number of a line of rules.
fn rule_line(alloc: Global, line: u64) -> Result<Vec<u8>, Memory>
    ensures { IfOk result (λ text. text.items ≡ spec.rule_line line) }
{
    let mut text = String::from_str(alloc, "line ")?;
    text.push_str(line.to_string(alloc)?.as_str())?;
    text.push_str("\n")?;
    Ok(text.into_bytes())
}

/// A field and what it is given, as a line; nothing without a field.
fn part_line(alloc: Global, part: &Option<Part>) -> Result<Vec<u8>, Memory>
    ensures { IfOk result (λ text. text.items ≡ spec.part_line part.now) }
{
    match part {
        Some(part) => {
            let mut text = String::from_str(alloc, name_of(part.field))?;
            text.push_str(": ")?;
            text.push_str(part.text.as_str())?;
            text.push_str("\n")?;
            Ok(text.into_bytes())
        }
        None => Ok(Vec::new(alloc)),
    }
}

/// A text with a line behind it.
fn with_line(text: Vec<u8>, line: &[u8]) -> Result<Vec<u8>, Memory>
    ensures { IfOk result (λ longer. longer.items ≡ text.items ++ spec.ended line.now) }
{
    let mut text = text;
    text.extend_from_slice(line)?;
    text.push(b'\n')?;
    Ok(text)
}

/// A text with another one behind it.
fn joined(text: Vec<u8>, more: &[u8]) -> Result<Vec<u8>, Memory>
    ensures { IfOk result (λ longer. longer.items ≡ text.items ++ more.now) }
{
    let mut text = text;
    text.extend_from_slice(more)?;
    Ok(text)
}

/// The number of the record that is refused.
fn number_of(fault: ConvertFault) -> u64
    ensures { result ≡ spec.number_of fault }
{
    match fault {
        ConvertFault::BadRecord { n }
        | ConvertFault::NoDate { n }
        | ConvertFault::NoAmount { n }
        | ConvertFault::TwoAmounts { n }
        | ConvertFault::CsvRefused { n } => n,
        ConvertFault::Memory => 0,
    }
}

/// The record that is refused, with the line on which it begins, that of the text that begins there.
fn record_lines(alloc: Global, n: u64, text: &[u8], rest: &[u8]) -> Result<Vec<u8>, Memory>
    ensures { IfOk result (λ lines. lines.items ≡ spec.record_lines n text.now rest.now) }
{
    let head = record_line(alloc, n, number_before(text, rest))?;
    with_line(head, first_content(rest))
}

/// The lines on a record.
fn explain_part(
    alloc: Global,
    lines: Vec<u8>,
    format: &Option<List<DatePart>>,
    fault: ConvertFault,
    part: &Option<Part>,
) -> Result<Vec<u8>, Memory>
    ensures { IfOk result (λ text.
        text.items ≡ spec.with_part lines.items format.now fault part.now) }
{
    let shown = part_line(alloc, part)?;
    let text = joined(lines, shown.as_slice())?;
    with_line(text, sentence_of(format, fault, part).as_bytes())
}

/// The lines on a record, of a field that is dropped with them.
fn explain_with(
    alloc: Global,
    lines: Vec<u8>,
    format: &Option<List<DatePart>>,
    fault: ConvertFault,
    part: Option<Part>,
) -> Result<Vec<u8>, Memory>
    ensures { IfOk result (λ text. text.items ≡ spec.with_part lines.items format.now fault part) }
{
    explain_part(alloc, lines, format, fault, &part)
}

/// Explains why a record of a bank's file is refused: its number and the number of the line on which it begins, that line,
/// the field and what it is given where the cause is about one, and one sentence on what is wrong and how it is mended.
/// `Memory` is no fault of a record, and has the number 0.
#[tactic(auto, unfolding(crate::specs::Explained::explained))]
pub fn explain(
    alloc: Global,
    rules: &Rules,
    text: &[u8],
    fault: ConvertFault,
) -> Result<Bytes, Memory>
    ensures { IfOk result (λ lines. lines ≡ spec.explained rules.now text.now fault) }
{
    let n = number_of(fault);
    let lines = record_lines(alloc, n, text, record_text(rules.sheet.settings, n, text))?;
    let part = part_for(alloc, rules, text, fault)?;
    let format = &rules.sheet.format;
    Ok(Bytes::from_vec(explain_with(alloc, lines, format, fault, part)?))
}

/// The number of the line that is refused.
fn line_of(fault: RulesFault) -> u64
    ensures { result ≡ spec.line_of fault }
{
    match fault {
        RulesFault::BadRule { line } | RulesFault::PatternRefused { line } => line,
        RulesFault::Memory => 0,
    }
}

/// A line of rules with its number, and a sentence on it.
fn explain_line(alloc: Global, fault: RulesFault, line: &[u8]) -> Result<Vec<u8>, Memory>
    ensures { IfOk result (λ text. text.items ≡ spec.line_explained fault line.now) }
{
    let head = rule_line(alloc, line_of(fault))?;
    let text = with_line(head, line)?;
    with_line(text, rules_sentence(fault, line).as_bytes())
}

/// Explains why rules are refused: the number of the line, the line, and one sentence on what is wrong and how it is mended.
#[tactic(auto, unfolding(crate::specs::Explained::rules_explained))]
pub fn explain_rules(alloc: Global, text: &[u8], fault: RulesFault) -> Result<Bytes, Memory>
    ensures { IfOk result (λ lines. lines ≡ spec.rules_explained text.now fault) }
{
    let line = line_numbered(text, line_of(fault));
    Ok(Bytes::from_vec(explain_line(alloc, fault, line)?))
}
