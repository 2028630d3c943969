//! The lines of a table.
ghost use Rattle.std.specs.Prelude.{◌≡◌, ◌++◌, ◌∷◌, [], IfOk, OnOk, List, ℕ, map, length, replicate};
ghost use Rattle.std.specs.List.{flat_map};
ghost use Rattle.book.specs.Styles.{style_in};
ghost use Rattle.report_table.specs.Tables.{block_lines, head_line, last_lines, name_lines, row_line, section_lines, table_lines, total_lines};

use crate::table::{Section, Table2};
use crate::texts::{Printed, cell_texts};
use book::{Mixed, Styles};
use hl_base::{List, Memory, Text};
use std::alloc::Global;

/// A line of a table: a name with its cells, or a rule of one byte.
#[derive(Drop)]
pub enum TableLine {
    Row(Printed, List<Printed>),
    Rule(u8),
}

/// The rule below a section's name and above its totals.
pub const THIN: u8 = b'-';

/// The rule above a section and above the last line.
pub const THICK: u8 = b'=';

/// The lines of a table: the heads, and below a thick rule each the sections and the last line.
pub fn table_lines(alloc: Global, table: &Table2, styles: &Styles) -> Result<Vec<TableLine>, Memory>
    ensures { IfOk result (λ lines. lines.items ≡ table_lines (style_in styles.now) table.now) }
{
    let mut lines = Vec::new(alloc);
    lines.push(head_line(alloc, table.heads.as_slice())?)?;
    let columns = table.heads.len();
    push_sections(
        alloc,
        &mut lines,
        columns,
        table.sections.as_slice(),
        styles,
    )?;
    push_last(alloc, &mut lines, &table.last, styles)?;
    Ok(lines)
}

/// A copy of a text, with the columns that it takes.
fn printed(alloc: Global, text: &Text) -> Result<Printed, Memory>
    ensures { IfOk result (λ copy. copy ≡ text.now) }
{
    Ok(Printed::new(Text::copied(alloc, text.as_str())?))
}

/// The line of the heads, which has no name.
pub fn head_line(alloc: Global, heads: &[Text]) -> Result<TableLine, Memory>
    ensures { IfOk result (λ line. line ≡ head_line heads.now) }
{
    let mut cells = Vec::new(alloc);
    for head in heads {
        cells.push(printed(alloc, head)?)?;
    }
    Ok(TableLine::Row(Printed::new(Text::new(alloc)), List::from_vec(cells)))
}

/// Appends the lines of each section, each below a thick rule.
fn push_sections(
    alloc: Global,
    lines: &mut Vec<TableLine>,
    columns: usize,
    sections: &[Section],
    styles: &Styles,
) -> Result<(), Memory>
    ensures { OnOk result (lines.new.items
        ≡ lines.old.items ++ flat_map (block_lines (style_in styles.now) columns) sections.now) }
{
    for section in sections {
        lines.push(TableLine::Rule(THICK))?;
        push_section(alloc, lines, columns, section, styles)?;
    }
    Ok(())
}

/// Appends the lines of a section.
fn push_section(
    alloc: Global,
    lines: &mut Vec<TableLine>,
    columns: usize,
    section: &Section,
    styles: &Styles,
) -> Result<(), Memory>
    ensures { OnOk result (lines.new.items
        ≡ lines.old.items ++ section_lines (style_in styles.now) columns section.now) }
{
    push_name(alloc, lines, columns, &section.name)?;
    push_rows(alloc, lines, section.rows.as_slice(), styles)?;
    push_totals(alloc, lines, &section.totals, styles)
}

/// Appends the lines of a section's name, if it shows one.
fn push_name(
    alloc: Global,
    lines: &mut Vec<TableLine>,
    columns: usize,
    name: &Option<Text>,
) -> Result<(), Memory>
    ensures { OnOk result (lines.new.items ≡ lines.old.items ++ name_lines columns name.now) }
{
    match name {
        Some(name) => {
            let cells = empty_cells(alloc, columns)?;
            lines.push(TableLine::Row(printed(alloc, name)?, cells))?;
            lines.push(TableLine::Rule(THIN))?;
            Ok(())
        }
        None => Ok(()),
    }
}

/// A number of empty cells.
fn empty_cells(alloc: Global, columns: usize) -> Result<List<Printed>, Memory>
    ensures { IfOk result (λ cells. cells ≡ replicate columns []) }
{
    let mut cells = Vec::new(alloc);
    for _made in 0..columns {
        cells.push(Printed::new(Text::new(alloc)))?;
    }
    Ok(List::from_vec(cells))
}

/// The line of a row.
fn row_line(
    alloc: Global,
    name: &Text,
    cells: &List<Mixed>,
    styles: &Styles,
) -> Result<TableLine, Memory>
    ensures { IfOk result (λ line. line ≡ row_line (style_in styles.now) (name.now, cells.now)) }
{
    let cells = cell_texts(alloc, cells.as_slice(), styles)?;
    Ok(TableLine::Row(printed(alloc, name)?, cells))
}

/// Appends the line of each row.
fn push_rows(
    alloc: Global,
    lines: &mut Vec<TableLine>,
    rows: &[(Text, List<Mixed>)],
    styles: &Styles,
) -> Result<(), Memory>
    ensures { OnOk result (lines.new.items
        ≡ lines.old.items ++ map (row_line (style_in styles.now)) rows.now) }
{
    for (name, cells) in rows {
        lines.push(row_line(alloc, name, cells, styles)?)?;
    }
    Ok(())
}

/// Appends the lines of a section's totals, if it shows them.
fn push_totals(
    alloc: Global,
    lines: &mut Vec<TableLine>,
    totals: &Option<List<Mixed>>,
    styles: &Styles,
) -> Result<(), Memory>
    ensures { OnOk result (lines.new.items
        ≡ lines.old.items ++ total_lines (style_in styles.now) totals.now) }
{
    match totals {
        Some(cells) => {
            let line = row_line(alloc, &Text::new(alloc), cells, styles)?;
            lines.push(TableLine::Rule(THIN))?;
            lines.push(line)?;
            Ok(())
        }
        None => Ok(()),
    }
}

/// Appends the last line below a rule, if there is one.
fn push_last(
    alloc: Global,
    lines: &mut Vec<TableLine>,
    last: &Option<(Text, List<Mixed>)>,
    styles: &Styles,
) -> Result<(), Memory>
    ensures { OnOk result (lines.new.items
        ≡ lines.old.items ++ last_lines (style_in styles.now) last.now) }
{
    match last {
        Some((name, cells)) => {
            lines.push(TableLine::Rule(THICK))?;
            lines.push(row_line(alloc, name, cells, styles)?)?;
            Ok(())
        }
        None => Ok(()),
    }
}
