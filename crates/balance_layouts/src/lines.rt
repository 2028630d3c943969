//! The lines of a balance list.
ghost use Rattle.std.specs.Prelude.{◌≡◌, ◌++◌, ◌∷◌, [], OnOk};
ghost use Rattle.std.specs.List.{flat_map};
ghost use Rattle.hl_base.specs.Ascii.{line_feed};
ghost use Rattle.report_table.specs.Tables.{right_aligned};
ghost use Rattle.balance_layouts.specs.Shown.{amount_lines, end_lines, named_line, row_lines};

use crate::shown::Shown;
use hl_base::{Memory, Text};
use report_table::{Printed, push_repeated};
use std::alloc::Global;

/// Appends an amount, right aligned in a number of columns.
fn push_aligned(out: &mut Vec<u8>, columns: usize, amount: &Printed) -> Result<(), Memory>
    ensures { OnOk result (out.new.items ≡ out.old.items ++ right_aligned columns amount.now) }
{
    push_repeated(out, b' ', columns.saturating_sub(amount.columns()))?;
    out.extend_from_slice(amount.as_bytes())?;
    Ok(())
}

/// Appends a line for each amount.
fn push_lines(out: &mut Vec<u8>, columns: usize, amounts: &[Printed]) -> Result<(), Memory>
    ensures { OnOk result (out.new.items
        ≡ out.old.items ++ flat_map (λ text.
        right_aligned columns text ++ (line_feed ∷ [])) amounts.now) }
{
    for amount in amounts {
        push_aligned(out, columns, amount)?;
        out.push(b'\n')?;
    }
    Ok(())
}

/// Appends the line of an amount that a name follows.
fn push_named(
    out: &mut Vec<u8>,
    columns: usize,
    name: &[u8],
    amount: &Printed,
) -> Result<(), Memory>
    ensures { OnOk result (out.new.items ≡ out.old.items
        ++ named_line columns name.now amount.now) }
{
    push_aligned(out, columns, amount)?;
    out.extend_from_slice(b"  ")?;
    out.extend_from_slice(name)?;
    out.push(b'\n')?;
    Ok(())
}

/// Appends a line for each amount, or for `0` where there is none; the name follows the last one.
#[tactic(auto, using(crate::proofs::Widths::amount_lines_after))]
fn push_amounts(
    alloc: Global,
    out: &mut Vec<u8>,
    columns: usize,
    name: &[u8],
    amounts: &[Printed],
) -> Result<(), Memory>
    ensures { OnOk result (out.new.items ≡ out.old.items
        ++ amount_lines columns name.now amounts.now) }
{
    match amounts.split_last() {
        None => push_named(out, columns, name, &Printed::new(Text::copied(alloc, "0")?)),
        Some((last, before)) => {
            push_lines(out, columns, before)?;
            push_named(out, columns, name, last)?;
            Ok(())
        }
    }
}

/// Appends the lines of each row.
pub(crate) fn push_rows(
    alloc: Global,
    out: &mut Vec<u8>,
    columns: usize,
    rows: &[Shown],
) -> Result<(), Memory>
    ensures { OnOk result (out.new.items ≡ out.old.items ++ flat_map (row_lines columns) rows.now) }
{
    for row in rows {
        push_amounts(alloc, out, columns, row.name(), row.amounts())?;
    }
    Ok(())
}

/// Appends dashes, and the lines of the total.
pub(crate) fn push_end(
    alloc: Global,
    out: &mut Vec<u8>,
    columns: usize,
    total: &[Printed],
) -> Result<(), Memory>
    ensures { OnOk result (out.new.items ≡ out.old.items ++ end_lines columns total.now) }
{
    push_repeated(out, b'-', columns)?;
    out.push(b'\n')?;
    push_amounts(alloc, out, columns, &[], total)
}
