//! Why a bank's file becomes no entries by a text of rules.
ghost use Rattle.std.specs.Prelude.{◌≡◌, IfOk};
ghost use Rattle.bank_explanations.specs.FileFaults as spec;

use crate::explaining::{explain, explain_rules};
use csv_entries::{ConvertFault, convert};
use csv_rules::{Rules, RulesFault};
use hl_base::{Bytes, Memory};
use query_terms::Maker;
use std::alloc::Global;

/// What is wrong with a bank's file or its rules, and the lines that explain it.
#[derive(Drop)]
pub enum Explanation {
    /// A line of the rules is refused.
    Rules { fault: RulesFault, lines: Bytes },
    /// A record of the file is refused.
    Record { fault: ConvertFault, lines: Bytes },
}

/// Whether memory ran out while rules were read.
fn is_rules_memory(fault: RulesFault) -> bool
    ensures { result ≡ spec.is_rules_memory fault }
{
    match fault {
        RulesFault::Memory => true,
        RulesFault::BadRule { .. } | RulesFault::PatternRefused { .. } => false,
    }
}

/// Whether memory ran out while a file was converted.
fn is_memory(fault: ConvertFault) -> bool
    ensures { result ≡ spec.is_memory fault }
{
    match fault {
        ConvertFault::Memory => true,
        ConvertFault::BadRecord { .. }
        | ConvertFault::NoDate { .. }
        | ConvertFault::NoAmount { .. }
        | ConvertFault::TwoAmounts { .. }
        | ConvertFault::CsvRefused { .. } => false,
    }
}

/// The explanation of rules that are refused.
#[tactic(auto, using(crate::proofs::FileEnds::rules_said))]
fn refused_rules(
    alloc: Global,
    rules: &[u8],
    fault: RulesFault,
) -> Result<Option<Explanation>, Memory>
    ensures { IfOk result (spec.ExplainsRules rules.now fault) }
{
    if is_rules_memory(fault) {
        return Err(Memory);
    }
    let lines = explain_rules(alloc, rules, fault)?;
    Ok(Some(Explanation::Rules { fault, lines }))
}

/// The explanation of a record that is refused.
#[tactic(auto, using(crate::proofs::FileEnds::record_said))]
fn refused_record(
    alloc: Global,
    rules: &Rules,
    csv: &[u8],
    fault: ConvertFault,
) -> Result<Option<Explanation>, Memory>
    ensures { IfOk result (spec.ExplainsRecord rules.now csv.now fault) }
{
    if is_memory(fault) {
        return Err(Memory);
    }
    let lines = explain(alloc, rules, csv, fault)?;
    Ok(Some(Explanation::Record { fault, lines }))
}

/// The explanation of the first record that rules refuse; nothing where they refuse none.
fn first_refused(alloc: Global, rules: &Rules, csv: &[u8]) -> Result<Option<Explanation>, Memory>
    ensures { IfOk result (spec.FindsRecord rules.now csv.now) }
{
    match convert(alloc, rules, csv) {
        Ok(txns) => {
            // The program ends after its answer, so the entries aren't taken apart first.
            std::mem::forget(txns);
            Ok(None)
        }
        Err(fault) => refused_record(alloc, rules, csv, fault),
    }
}

/// The explanation of the first record that rules refuse, which are dropped with it.
fn first_refused_by(alloc: Global, rules: Rules, csv: &[u8]) -> Result<Option<Explanation>, Memory>
    ensures { IfOk result (spec.FindsRecord rules csv.now) }
{
    first_refused(alloc, &rules, csv)
}

/// Explains why a bank's file becomes no entries by a text of rules: the first line of the rules that is refused, or else the
/// first record. Nothing where the file becomes entries. The maker builds the patterns of the rules.
pub fn explain_file<M: Maker>(
    alloc: Global,
    rules: &[u8],
    csv: &[u8],
    maker: &mut M,
) -> Result<Option<Explanation>, Memory>
    ensures { spec.ExplainsFile rules.now csv.now (M.refusals maker.old) (M.refusals maker.new)
        (M.last_refused maker.old) (M.last_refused maker.new) result }
{
    match Rules::read(alloc, rules, maker) {
        Ok(parsed) => first_refused_by(alloc, parsed, csv),
        Err(fault) => refused_rules(alloc, rules, fault),
    }
}
