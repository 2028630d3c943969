//! The entries that a file becomes by rules.
ghost use Rattle.std.specs.Prelude.{◌≡◌, ◌≤◌, ◌+◌, ◌++◌, [], true, length, drop, map, IfOk, IfErr, OnOk};
ghost use Rattle.hl_base.specs.Gives.{Gives};
ghost use Rattle.csv.specs.Records.{fields_of};
ghost use Rattle.query_terms.specs.Finders.{known_in};
ghost use Rattle.csv_rules.specs.Importing.{is_ordered};
ghost use Rattle.csv_entries.specs.Conversion.{cause_in, conversion_by};
ghost use Rattle.csv_entries.specs.Judging.{outcome};
ghost use Rattle.csv_entries.specs.Numbered.{ends, entries_from, none_from, txns_of};

use crate::faults::ConvertFault;
use crate::judging::{Outcome, judge_columns};
use crate::ordering::put_in_order;
use crate::records::{is_text, read_columns, read_rows};
use crate::skipping::text_after;
use book::Txn;
use csv::ByteRecord;
use csv_rules::{Rules, Sheet};
use hl_base::List;
use query_terms::Finder;
use std::alloc::Global;

/// What becomes of a record.
fn judge_row(
    alloc: Global,
    n: u64,
    sheet: &Sheet,
    row: &ByteRecord,
    finder: &mut Finder,
) -> Result<Outcome, ConvertFault>
    ensures outcome { Gives (λ outcome. outcome) cause_in result
        (outcome (known_in finder.old) sheet.now n (fields_of row.now)) }
    ensures same { known_in finder.new ≡ known_in finder.old }
{
    match read_columns(alloc, row)? {
        Some(columns) => judge_columns(alloc, n, sheet, columns.as_slice(), finder),
        None => Err(ConvertFault::CsvRefused { n }),
    }
}

/// Looks at the records from a place on, behind one at which a block ends the entries.
#[tactic(auto, using(crate::proofs::Numbers::next_text, crate::proofs::Numbers::next_no_text, crate::proofs::Numbers::no_more_text))]
fn check_from(start: usize, rows: &[ByteRecord]) -> Result<(), ConvertFault>
    requires { start ≤ length rows.now }
    ensures { Gives (λ _. []) cause_in result
        (none_from (start + 1) (drop start (map fields_of rows.now))) }
{
    for i in start..rows.len() {
        if !is_text(&rows[i]) {
            return Err(ConvertFault::CsvRefused { n: i as u64 + 1 });
        }
    }
    Ok(())
}

/// Whether a block ends the entries at a record.
fn is_end(outcome: &Outcome) -> bool
    ensures { result ≡ ends outcome.now }
{
    match outcome {
        Outcome::Ends => true,
        Outcome::LeftOut | Outcome::Entry(_) => false,
    }
}

/// Puts the entry of a record, if it has one, behind others.
fn push_entry(txns: &mut Vec<Txn>, outcome: Outcome) -> Result<(), ConvertFault>
    ensures pushed { OnOk result (txns.new.items ≡ txns.old.items ++ txns_of outcome) }
    ensures memory { IfErr result (λ e. e ≡ ConvertFault.Memory) }
{
    match outcome {
        Outcome::Entry(txn) => match txns.push(txn) {
            Ok(()) => Ok(()),
            Err(_) => Err(ConvertFault::Memory),
        },
        Outcome::LeftOut | Outcome::Ends => Ok(()),
    }
}

/// The entries of the records of a file, in their order. Behind a record at which a block ends the
/// entries the records are only looked at.
#[tactic(auto, using(crate::proofs::Numbers::next_outcome, crate::proofs::Numbers::next_fault, crate::proofs::Numbers::end_taken, crate::proofs::Numbers::end_fault, crate::proofs::Numbers::all_taken))]
fn convert_rows(
    alloc: Global,
    sheet: &Sheet,
    rows: &[ByteRecord],
    finder: &mut Finder,
) -> Result<Vec<Txn>, ConvertFault>
    ensures { Gives (λ txns. txns.items) cause_in result
        (entries_from (known_in finder.old) sheet.now 1 (map fields_of rows.now)) }
{
    let mut txns = Vec::new(alloc);
    for i in 0..rows.len() {
        let outcome = judge_row(alloc, i as u64 + 1, sheet, &rows[i], finder)?;
        if is_end(&outcome) {
            check_from(i + 1, rows)?;
            return Ok(txns);
        }
        push_entry(&mut txns, outcome)?;
    }
    Ok(txns)
}

/// The entries that a file becomes by rules, by day and in order. Records are counted from 1 behind the
/// lines that are cut off, and the first one that is refused decides.
#[tactic(auto, using(crate::proofs::Composed::converted, crate::proofs::Composed::refused))]
pub fn convert(alloc: Global, rules: &Rules, text: &[u8]) -> Result<List<Txn>, ConvertFault>
    ensures gives { Gives (λ txns. txns) cause_in result (conversion_by rules.now text.now) }
    ensures ordered { IfOk result (λ txns. is_ordered txns ≡ true) }
    ensures few { IfOk result (λ txns. length txns ≤ length text.now) }
{
    let settings = rules.sheet.settings;
    let rest = text_after(text, settings.skipped);
    let rows = read_rows(alloc, settings.separator, rest)?;
    let mut finder = Finder::new(alloc, rules.regexes.as_slice())?;
    let mut txns = convert_rows(alloc, &rules.sheet, rows.as_slice(), &mut finder)?;
    put_in_order(settings, &mut txns)?;
    Ok(List::from_vec(txns))
}
