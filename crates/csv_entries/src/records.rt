//! The records of a file.
ghost use Rattle.std.specs.Prelude.{◌≡◌, true, map, option_map, IfOk, OnOk};
ghost use Rattle.std.specs.List.{list_all};
ghost use Rattle.std.specs.Str.{is_utf8};
ghost use Rattle.csv.specs.Records.{fields_of};
ghost use Rattle.csv_entries.specs.Judging.{columns_of};
ghost use Rattle.csv_entries.specs.Records as spec;

use crate::spaces::stripped;
use csv::{ByteRecord, ReaderBuilder};
use entry_reader::scan::{is_utf8, text_of};
use hl_base::{Memory, Text};
use std::alloc::Global;

/// The records of a text. A read of a text that is at hand fails for want of memory alone.
pub fn read_rows(alloc: Global, separator: u8, text: &[u8]) -> Result<Vec<ByteRecord>, Memory>
    ensures { IfOk result (λ rows. map fields_of rows.items ≡ spec.rows_of separator text.now) }
{
    let reader = ReaderBuilder::new()
        .has_headers(false)
        .flexible(true)
        .delimiter(separator)
        .from_reader(alloc, text);
    let mut rows = Vec::new(alloc);
    for row in reader.into_byte_records() {
        match row {
            Ok(row) => rows.push(row)?,
            Err(_) => return Err(Memory),
        }
    }
    Ok(rows)
}

/// Whether all columns of a record are UTF-8.
#[tactic(auto, using(crate::proofs::RowTexts::next_text, crate::proofs::RowTexts::no_text, crate::proofs::RowTexts::all_text, crate::proofs::RowTexts::there))]
pub(crate) fn is_text(row: &ByteRecord) -> bool
    ensures { result ≡ list_all is_utf8 (fields_of row.now) }
{
    for i in 0..row.len() {
        match row.get(i) {
            Some(column) => {
                if !is_utf8(column) {
                    return false;
                }
            }
            None => return false,
        }
    }
    true
}

/// The columns of a record without white space and line ends at their ends, where all of them are UTF-8.
#[tactic(auto, using(crate::proofs::RowTexts::next_column, crate::proofs::RowTexts::no_column, crate::proofs::RowTexts::one_text, crate::proofs::RowTexts::there))]
pub fn read_columns(alloc: Global, row: &ByteRecord) -> Result<Option<Vec<Text>>, Memory>
    ensures { IfOk result (λ columns. option_map (λ v. v.items) columns
        ≡ columns_of (fields_of row.now)) }
{
    if !is_text(row) {
        return Ok(None);
    }
    let mut columns = Vec::new(alloc);
    for i in 0..row.len() {
        match row.get(i) {
            Some(column) => columns.push(text_of(alloc, stripped(column))?)?,
            None => return Ok(None),
        }
    }
    Ok(Some(columns))
}
