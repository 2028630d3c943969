//! The lines of a posting.
ghost use Rattle.std.specs.Prelude.{◌≡◌, ◌++◌, ℕ, Option, OnOk};
ghost use Rattle.std.specs.List.{flat_map};
ghost use Rattle.book.specs.Styles.{style_in};
ghost use Rattle.register_report.specs.Lines.{account_text, column_line, continues, day_and_description, head_text, posting_text, stamp};
ghost use Rattle.register_report.specs.Summed.{cell_lines, kept_line};

use crate::fields::{push_field, push_right_aligned, push_spaces};
use crate::head::Head;
use crate::printed::{amount_text, sum_text};
use book::Styles;
use hl_base::{Memory, Text};
use hl_num::Dec;
use hl_time::{Day, push_calendar_day};
use report_cells::Taking;
use std::alloc::Global;

/// The columns of a day and a description with the space between them.
const HEAD_COLUMNS: usize = 31;
/// The columns of a description.
const DESCRIPTION_COLUMNS: usize = 20;
/// The columns of an account.
const ACCOUNT_COLUMNS: usize = 21;
/// The columns of an amount, and of a sum.
const AMOUNT_COLUMNS: usize = 11;
/// The columns before the sums.
const COLUMNS_BEFORE_SUMS: usize = 69;

/// Where a posting belongs: the line of its transaction, and its day.
pub(crate) type Stamp = (u64, u32);

/// The line of a posting's transaction, and its day.
pub(crate) fn stamp(head: &Head, taking: &Taking) -> Stamp
    ensures { result ≡ stamp (head.now, taking.now) }
{
    (head.line, taking.day.0)
}

/// Whether a posting is of the same transaction and the same day as the one before.
pub(crate) fn continues(last: Option<Stamp>, head: &Head, taking: &Taking) -> bool
    ensures { result ≡ continues last (head.now, taking.now) }
{
    match last {
        Some(before) => before.0 == head.line && before.1 == taking.day.0,
        None => false,
    }
}

/// Appends a day and a description in its field.
fn push_day_and_description(
    alloc: Global,
    out: &mut Vec<u8>,
    day: Day,
    description: &Text,
) -> Result<(), Memory>
    ensures { OnOk result (out.new.items
        ≡ out.old.items ++ day_and_description day.0 description.now) }
{
    push_calendar_day(out, day)?;
    out.push(b' ')?;
    push_field(alloc, out, DESCRIPTION_COLUMNS, description.as_str())
}

/// Appends the day and the description of a posting, or as much space where the line before shows them.
fn push_head(
    alloc: Global,
    out: &mut Vec<u8>,
    same: bool,
    head: &Head,
    taking: &Taking,
) -> Result<(), Memory>
    ensures { OnOk result (out.new.items
        ≡ out.old.items ++ head_text same (head.now, taking.now)) }
{
    if same {
        push_spaces(out, HEAD_COLUMNS)
    } else {
        push_day_and_description(alloc, out, taking.day, head.description)
    }
}

/// Appends an account in its field, between spaces.
fn push_account(alloc: Global, out: &mut Vec<u8>, account: &str) -> Result<(), Memory>
    ensures { OnOk result (out.new.items ≡ out.old.items ++ account_text account.now) }
{
    out.extend_from_slice(b"  ")?;
    push_field(alloc, out, ACCOUNT_COLUMNS, account)?;
    out.extend_from_slice(b"  ")?;
    Ok(())
}

/// Appends what stands before a posting's sums.
pub(crate) fn push_posting(
    alloc: Global,
    out: &mut Vec<u8>,
    same: bool,
    head: &Head,
    taking: &Taking,
    styles: &Styles,
) -> Result<(), Memory>
    ensures { OnOk result (out.new.items
        ≡ out.old.items ++ posting_text (style_in styles.now) same (head.now, taking.now)) }
{
    push_head(alloc, out, same, head, taking)?;
    push_account(alloc, out, taking.account)?;
    let amount = amount_text(alloc, &taking.amount, styles)?;
    push_right_aligned(out, AMOUNT_COLUMNS, amount.as_str())?;
    out.extend_from_slice(b"  ")?;
    Ok(())
}

/// Appends a sum, and ends the line.
fn push_line(out: &mut Vec<u8>, text: &str) -> Result<(), Memory>
    ensures { OnOk result (out.new.items ≡ out.old.items ++ column_line text.now) }
{
    push_right_aligned(out, AMOUNT_COLUMNS, text)?;
    out.push(b'\n')?;
    Ok(())
}

/// Appends a further sum, in a line of its own.
fn push_further(
    alloc: Global,
    out: &mut Vec<u8>,
    sum: &(Text, Dec),
    styles: &Styles,
) -> Result<(), Memory>
    ensures { OnOk result (out.new.items
        ≡ out.old.items ++ kept_line (style_in styles.now) sum.now) }
{
    let text = sum_text(alloc, sum, styles)?;
    push_spaces(out, COLUMNS_BEFORE_SUMS)?;
    push_line(out, text.as_str())
}

/// Appends further sums.
fn push_all_further(
    alloc: Global,
    out: &mut Vec<u8>,
    sums: &[(Text, Dec)],
    styles: &Styles,
) -> Result<(), Memory>
    ensures { OnOk result (out.new.items
        ≡ out.old.items ++ flat_map (kept_line (style_in styles.now)) sums.now) }
{
    for sum in sums {
        push_further(alloc, out, sum, styles)?;
    }
    Ok(())
}

/// Appends sums below one another, `0` where there is none.
pub(crate) fn push_sums(
    alloc: Global,
    out: &mut Vec<u8>,
    sums: &[(Text, Dec)],
    styles: &Styles,
) -> Result<(), Memory>
    ensures { OnOk result (out.new.items
        ≡ out.old.items ++ cell_lines (style_in styles.now) sums.now) }
{
    match sums {
        [] => push_line(out, "0"),
        [first, further @ ..] => {
            let text = sum_text(alloc, first, styles)?;
            push_line(out, text.as_str())?;
            push_all_further(alloc, out, further, styles)
        }
    }
}
