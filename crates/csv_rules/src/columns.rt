//! The names of columns, and the fields that they assign.
ghost use Rattle.std.specs.Prelude.{◌≡◌, ◌+◌, ◌<◌, ◌^◌, ◌++◌, ◌∷◌, [], true, length, IfOk, OnOk};
ghost use Rattle.std.specs.Str.{is_utf8};
ghost use Rattle.csv_rules.specs.Columns as spec;

use crate::kinds::{Assignment, Value};
use crate::words::field_named;
use entry_reader::scan::{after, before, has, text_of, trimmed};
use hl_base::{List, Memory, Text};
use std::alloc::Global;

/// The names between commas, without the white space around them.
#[tactic(auto, using(crate::proofs::ColumnLaws::one_more, crate::proofs::ColumnLaws::last_one, crate::proofs::ColumnLaws::shorter))]
pub(crate) fn read_names(alloc: Global, text: &[u8]) -> Result<List<Text>, Memory>
    requires { is_utf8 text.now ≡ true }
    ensures { IfOk result (λ names. names ≡ spec.names_of text.now) }
{
    let mut names = Vec::new(alloc);
    let mut rest = text;
    while has(rest, b',') {
        names.push(text_of(alloc, trimmed(before(rest, b',')))?)?;
        rest = after(rest, b',');
    }
    names.push(text_of(alloc, trimmed(rest))?)?;
    Ok(List::from_vec(names))
}

/// Assigns a column to the field that its name is, if it is one.
fn push_column(assignments: &mut Vec<Assignment>, number: u64, name: &Text) -> Result<(), Memory>
    ensures { OnOk result (assignments.new.items ≡ assignments.old.items
        ++ spec.column number name.now) }
{
    match field_named(true, name.as_bytes()) {
        Some(field) => {
            assignments.push(Assignment {
                field,
                value: Value::Column(number),
            })?;
            Ok(())
        }
        None => Ok(()),
    }
}

/// Assigns each column to the field that its name is, where it is one.
#[tactic(auto, using(crate::proofs::ColumnLaws::columns_more, crate::proofs::ColumnLaws::columns_done))]
pub(crate) fn push_columns(assignments: &mut Vec<Assignment>, names: &[Text]) -> Result<(), Memory>
    ensures { OnOk result (assignments.new.items ≡ assignments.old.items
        ++ spec.columns_from 1 names.now) }
{
    let mut number = 1;
    for name in names {
        push_column(assignments, number, name)?;
        number += 1;
    }
    Ok(())
}
