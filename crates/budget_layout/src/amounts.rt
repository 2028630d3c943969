//! The texts of amounts.
ghost use Rattle.std.specs.Prelude.{◌≡◌, ◌++◌, OnOk};
ghost use Rattle.std.specs.String.{string_bytes};
ghost use Rattle.book.specs.Styles.{style_in};
ghost use Rattle.report_cells.specs.Report.{seen};
ghost use Rattle.budget_layout.specs.Beside.{percent_text, sums_text};

use crate::percent::Percent;
use book::Styles;
use hl_base::{Memory, Text};
use hl_num::{Dec, Shape, print_number};
use report_table::push_cell_text;
use std::alloc::Global;

/// Appends the sums of a cell, by their values.
pub(crate) fn push_sums(
    alloc: Global,
    out: &mut String,
    sums: &[(Text, Dec)],
    styles: &Styles,
) -> Result<(), Memory>
    ensures { OnOk result (string_bytes out.new
        ≡ string_bytes out.old ++ sums_text (style_in styles.now) (seen sums.now)) }
{
    push_cell_text(alloc, out, sums, styles)?;
    Ok(())
}

/// Appends `P% of `, where a percentage is told.
pub(crate) fn push_percent(alloc: Global, out: &mut String, percent: &Percent) -> Result<(), Memory>
    ensures { OnOk result (string_bytes out.new ≡ string_bytes out.old
        ++ percent_text percent.now) }
{
    match percent {
        Percent::Missing => Ok(()),
        Percent::Told(value) => push_told(alloc, out, *value),
        Percent::OutOfRange => Ok(()),
    }
}

/// Appends a percentage and `% of `.
fn push_told(alloc: Global, out: &mut String, value: Dec) -> Result<(), Memory>
    ensures { OnOk result (string_bytes out.new ≡ string_bytes out.old
        ++ percent_text (Percent.Told value)) }
{
    let shape = Shape {
        mark: b'.',
        group: None,
        first: 3,
        rest: 3,
    };
    let number = print_number(alloc, value, 0, &shape)?;
    out.push_str(number.as_str())?;
    out.push_str("% of ")?;
    Ok(())
}
