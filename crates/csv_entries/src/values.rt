//! What a field is given for a record.
ghost use Rattle.std.specs.Prelude.{◌≡◌, ◌++◌, true, map, option_map, IfOk, OnOk};
ghost use Rattle.std.specs.List.{position};
ghost use Rattle.std.specs.Str.{is_utf8};
ghost use Rattle.std.specs.String.{string_bytes};
ghost use Rattle.csv_entries.specs.Values as spec;
ghost use Rattle.csv_rules.specs.Words.{is_same_name};

use crate::spaces::stripped;
use csv_rules::Value;
use csv_rules::words::{are_digits, cut_column, is_same_name, value_of};
use entry_reader::comment::append;
use entry_reader::scan::{after, before, has};
use hl_base::{Memory, Text};
use query_terms::cutting::{bytes_of, str_of, text_of};
use std::alloc::Global;

/// A column by its place; empty past the record.
fn column_at(place: usize, columns: &[Text]) -> &str
    ensures { result.now ≡ spec.column_at place columns.now }
{
    match columns.get(place) {
        Some(text) => text.as_str(),
        None => "",
    }
}

/// A column by its number, counted from 1; empty past the record.
fn column(number: u64, columns: &[Text]) -> &str
    ensures { result.now ≡ spec.column number columns.now }
{
    column_at(number.saturating_sub(1) as usize, columns)
}

/// The column of a number from 1.
fn column_numbered(number: u64, columns: &[Text]) -> Option<&str>
    ensures { option_map (λ x. x.now) result ≡ spec.column_numbered number columns.now }
{
    if number == 0 {
        None
    } else {
        Some(column(number, columns))
    }
}

/// Whether a column has a name, with case ignored.
fn is_named(other: &Text, name: &str) -> bool
    ensures { result ≡ is_same_name other.now name.now }
{
    is_same_name(other.as_str(), name)
}

/// The place of the first name that is this one, with case ignored.
fn place_of(name: &str, names: &[Text]) -> Option<usize>
    ensures { result ≡ position (λ other. is_same_name other name.now) names.now }
{
    names.iter().position(|other| is_named(other, name))
}

/// The column of a name.
fn column_named<'a>(name: &str, names: &[Text], columns: &'a [Text]) -> Option<&'a str>
    ensures { option_map (λ x. x.now) result ≡ spec.column_named name.now names.now columns.now }
{
    match place_of(name, names) {
        Some(place) => Some(column_at(place, columns)),
        None => None,
    }
}

/// The column that a reference means.
pub(crate) fn referred<'a>(run: &[u8], names: &[Text], columns: &'a [Text]) -> Option<&'a str>
    requires { is_utf8 run.now ≡ true }
    ensures { option_map (λ x. x.now) result ≡ spec.referred run.now names.now columns.now }
{
    if run.is_empty() {
        None
    } else if are_digits(run) {
        column_numbered(value_of(run), columns)
    } else {
        column_named(str_of(run), names, columns)
    }
}

/// Writes what stands for a `%` and the text up to the next one.
fn push_piece(
    text: &mut String,
    piece: &[u8],
    names: &[Text],
    columns: &[Text],
) -> Result<(), Memory>
    requires { is_utf8 piece.now ≡ true }
    ensures { OnOk result (string_bytes text.new ≡ string_bytes text.old
        ++ spec.piece_text names.now columns.now piece.now) }
{
    let (run, rest) = cut_column(piece);
    match referred(run, names, columns) {
        Some(found) => {
            text.push_str(found)?;
            append(text, rest)
        }
        None => {
            text.push_str("%")?;
            append(text, piece)
        }
    }
}

/// A written value with its columns put in.
#[tactic(auto, using(crate::proofs::Pieces::first_piece, crate::proofs::Pieces::one_more, crate::proofs::Pieces::all_done, csv_rules::proofs::ColumnLaws::shorter))]
fn expanded(
    alloc: Global,
    written: &[u8],
    names: &[Text],
    columns: &[Text],
) -> Result<String, Memory>
    requires { is_utf8 written.now ≡ true }
    ensures { IfOk result (λ text. string_bytes text
        ≡ spec.expanded names.now columns.now written.now) }
{
    let mut text = String::new(alloc);
    append(&mut text, before(written, b'%'))?;
    let mut rest = written;
    while has(rest, b'%') {
        rest = after(rest, b'%');
        push_piece(&mut text, before(rest, b'%'), names, columns)?;
    }
    Ok(text)
}

/// The text of a value, without white space and line ends at its ends.
pub(crate) fn value_text(
    alloc: Global,
    value: &Value,
    names: &[Text],
    columns: &[Text],
) -> Result<Text, Memory>
    ensures { IfOk result (λ text. text ≡ spec.text_of names.now columns.now value.now) }
{
    match value {
        Value::Column(number) => text_of(alloc, stripped(bytes_of(column(*number, columns)))),
        Value::Written(written) => {
            let text = expanded(alloc, bytes_of(written.as_str()), names, columns)?;
            text_of(alloc, stripped(bytes_of(text.as_str())))
        }
    }
}
