//! How wide a table's names and columns are.
ghost use Rattle.std.specs.Prelude.{◌≡◌, ◌∷◌, [], IfOk};
ghost use Rattle.report_table.specs.Cells.{widest};
ghost use Rattle.report_table.specs.Tables.{cells_at, column_width, column_widths, name_width, names_in};

use crate::lines::TableLine;
use hl_base::Memory;
use std::alloc::Global;

/// The columns of the widest name.
#[tactic(auto, using(crate::proofs::Measuring::next_name))]
pub fn name_width(lines: &[TableLine]) -> usize
    ensures { result ≡ name_width lines.now }
{
    let mut width = 0;
    for line in lines {
        width = wider_by_name(width, line);
    }
    width
}

/// The wider of a width and that of a line's name, if it has one.
fn wider_by_name(width: usize, line: &TableLine) -> usize
    ensures { result ≡ widest width (names_in line.now) }
{
    match line {
        TableLine::Row(name, _) => name.columns().max(width),
        TableLine::Rule(_) => width,
    }
}

/// The columns of the widest cell of each column.
#[tactic(auto, using(crate::proofs::Measuring::next_column))]
pub fn column_widths(
    alloc: Global,
    columns: usize,
    lines: &[TableLine],
) -> Result<Vec<usize>, Memory>
    ensures { IfOk result (λ widths. widths.items ≡ column_widths columns lines.now) }
{
    let mut widths = Vec::new(alloc);
    for at in 0..columns {
        widths.push(column_width(lines, at))?;
    }
    Ok(widths)
}

/// The columns of the widest cell of a column.
#[tactic(auto, using(crate::proofs::Measuring::next_cell))]
fn column_width(lines: &[TableLine], at: usize) -> usize
    ensures { result ≡ column_width lines.now at }
{
    let mut width = 0;
    for line in lines {
        width = wider_by_cell(width, line, at);
    }
    width
}

/// The wider of a width and that of a line's cell in a column, if it has one.
fn wider_by_cell(width: usize, line: &TableLine, at: usize) -> usize
    ensures { result ≡ widest width (cells_at at line.now) }
{
    match line {
        TableLine::Row(_, cells) => match cells.as_slice().get(at) {
            Some(cell) => cell.columns().max(width),
            None => width,
        },
        TableLine::Rule(_) => width,
    }
}
