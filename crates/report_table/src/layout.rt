//! The text of a table.
ghost use Rattle.std.specs.Prelude.{◌≡◌, ◌++◌, ◌∷◌, [], IfOk, OnOk, codes, replicate};
ghost use Rattle.std.specs.List.{flat_map};
ghost use Rattle.hl_base.specs.Ascii.{line_feed, space};
ghost use Rattle.book.specs.Styles.{style_in};
ghost use Rattle.report_table.specs.Tables.{aligned, framed, left_aligned, line_text, lines_text, ruled, table_text};

use crate::lines::{TableLine, table_lines};
use crate::table::Table2;
use crate::texts::Printed;
use crate::widths::{column_widths, name_width};
use book::Styles;
use hl_base::{Bytes, Memory, Text};
use std::alloc::Global;

/// A table as text: its title, an empty line, and its lines, each ended by LF. A name stands left aligned behind a space,
/// then ` ||`, then each cell right aligned in its column with a space on either side; a rule runs below both, with `++`
/// between them, above each section and above the last line. Widths are those of characters on a terminal, and amounts
/// stand in their symbols' styles. Lines are of one width where each row has as many cells as there are heads; one that
/// has more shows no further ones. Fails only for want of memory.
pub fn table_text(alloc: Global, table: &Table2, styles: &Styles) -> Result<Bytes, Memory>
    ensures { IfOk result (λ text. text ≡ table_text (style_in styles.now) table.now) }
{
    let lines = table_lines(alloc, table, styles)?;
    let text = titled_lines(alloc, &table.title, table.heads.len(), lines.as_slice())?;
    Ok(text)
}

/// A title, an empty line, and the lines of a table with a number of columns, each ended by LF. Names and cells stand in
/// the widths of the widest. Fails only for want of memory.
pub fn titled_lines(
    alloc: Global,
    title: &Text,
    columns: usize,
    lines: &[TableLine],
) -> Result<Bytes, Memory>
    ensures { IfOk result (λ text. text
        ≡ title.now ++ (line_feed ∷ line_feed ∷ []) ++ lines_text columns lines.now) }
{
    let width = name_width(lines);
    let widths = column_widths(alloc, columns, lines)?;
    let mut out = Vec::new(alloc);
    out.extend_from_slice(title.as_bytes())?;
    out.extend_from_slice(b"\n\n")?;
    push_lines(&mut out, width, widths.as_slice(), lines)?;
    Ok(Bytes::from_vec(out))
}

/// Appends the text of each line.
fn push_lines(
    out: &mut Vec<u8>,
    width: usize,
    widths: &[usize],
    lines: &[TableLine],
) -> Result<(), Memory>
    ensures { OnOk result (out.new.items
        ≡ out.old.items ++ flat_map (line_text width widths.now) lines.now) }
{
    for line in lines {
        push_line(out, width, widths, line)?;
    }
    Ok(())
}

/// Appends the text of a line.
fn push_line(
    out: &mut Vec<u8>,
    width: usize,
    widths: &[usize],
    line: &TableLine,
) -> Result<(), Memory>
    ensures { OnOk result (out.new.items ≡ out.old.items ++ line_text width widths.now line.now) }
{
    match line {
        TableLine::Row(name, cells) => {
            push_name(out, width, name)?;
            push_cells(out, widths, cells.as_slice())?;
        }
        TableLine::Rule(mark) => {
            push_rule(out, *mark, width)?;
            out.extend_from_slice(b"++")?;
            push_rules(out, *mark, widths)?;
        }
    }
    out.push(b'\n')?;
    Ok(())
}

/// Appends a name behind a space, left aligned, and the bars behind it.
fn push_name(out: &mut Vec<u8>, width: usize, name: &Printed) -> Result<(), Memory>
    ensures { OnOk result (out.new.items
        ≡ out.old.items ++ (space ∷ []) ++ left_aligned width name.now ++ codes " ||") }
{
    out.push(b' ')?;
    out.extend_from_slice(name.as_bytes())?;
    push_repeated(out, b' ', width.saturating_sub(name.columns()))?;
    out.extend_from_slice(b" ||")?;
    Ok(())
}

/// Appends cells, each right aligned in its column with a space on either side.
#[tactic(auto, using(crate::proofs::Columns::all_framed))]
fn push_cells(out: &mut Vec<u8>, widths: &[usize], cells: &[Printed]) -> Result<(), Memory>
    ensures { OnOk result (out.new.items ≡ out.old.items ++ aligned widths.now cells.now) }
{
    for at in 0..widths.len().min(cells.len()) {
        push_cell(out, widths[at], &cells[at])?;
    }
    Ok(())
}

/// Appends a cell, right aligned with a space on either side.
fn push_cell(out: &mut Vec<u8>, width: usize, cell: &Printed) -> Result<(), Memory>
    ensures { OnOk result (out.new.items ≡ out.old.items ++ framed width cell.now) }
{
    out.push(b' ')?;
    push_repeated(out, b' ', width.saturating_sub(cell.columns()))?;
    out.extend_from_slice(cell.as_bytes())?;
    out.push(b' ')?;
    Ok(())
}

/// Appends the rule of each column.
fn push_rules(out: &mut Vec<u8>, mark: u8, widths: &[usize]) -> Result<(), Memory>
    ensures { OnOk result (out.new.items ≡ out.old.items ++ flat_map (ruled mark) widths.now) }
{
    for width in widths {
        push_rule(out, mark, *width)?;
    }
    Ok(())
}

/// Appends a rule below a text of some width, and below the space on either side.
fn push_rule(out: &mut Vec<u8>, mark: u8, width: usize) -> Result<(), Memory>
    ensures { OnOk result (out.new.items ≡ out.old.items ++ ruled mark width) }
{
    out.push(mark)?;
    push_repeated(out, mark, width)?;
    out.push(mark)?;
    Ok(())
}

/// Appends a byte a number of times.
pub fn push_repeated(out: &mut Vec<u8>, byte: u8, count: usize) -> Result<(), Memory>
    ensures { OnOk result (out.new.items ≡ out.old.items ++ replicate count byte) }
{
    for _pushed in 0..count {
        out.push(byte)?;
    }
    Ok(())
}
