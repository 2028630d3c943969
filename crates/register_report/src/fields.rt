//! Texts in fields of a number of columns.
ghost use Rattle.std.specs.Prelude.{◌≡◌, ◌++◌, IfOk, OnOk};
ghost use Rattle.std.specs.String.{string_bytes};
ghost use Rattle.report_table.specs.Tables.{left_aligned, right_aligned, spaces};
ghost use Rattle.register_report.specs.Fields.{columns_of, cut, field, shortened};

use hl_base::Memory;
use report_table::push_repeated;
use std::alloc::Global;
use unicode_width::{UnicodeWidthChar, UnicodeWidthStr};

/// The columns of a character by itself; a control character takes one, as it does in a text.
fn columns_of(c: char) -> usize
    ensures { result ≡ columns_of c }
{
    c.width().unwrap_or(1)
}

/// As much of a text as has room, one character after another.
fn cut(alloc: Global, room: usize, text: &str) -> Result<String, Memory>
    ensures { IfOk result (λ front. string_bytes front ≡ cut room text.now) }
{
    let mut left = room;
    let mut front = String::new(alloc);
    for c in text.chars() {
        let columns = columns_of(c);
        if left < columns {
            return Ok(front);
        }
        left -= columns;
        front.push(c)?;
    }
    Ok(front)
}

/// Appends spaces.
pub(crate) fn push_spaces(out: &mut Vec<u8>, count: usize) -> Result<(), Memory>
    ensures { OnOk result (out.new.items ≡ out.old.items ++ spaces count) }
{
    push_repeated(out, b' ', count)
}

/// Appends a text, left aligned in a number of columns.
fn push_left_aligned(out: &mut Vec<u8>, width: usize, text: &str) -> Result<(), Memory>
    ensures { OnOk result (out.new.items ≡ out.old.items ++ left_aligned width text.now) }
{
    out.extend_from_slice(text.as_bytes())?;
    push_spaces(out, width.saturating_sub(text.width()))
}

/// Appends a text, right aligned in a number of columns.
pub(crate) fn push_right_aligned(out: &mut Vec<u8>, width: usize, text: &str) -> Result<(), Memory>
    ensures { OnOk result (out.new.items ≡ out.old.items ++ right_aligned width text.now) }
{
    push_spaces(out, width.saturating_sub(text.width()))?;
    out.extend_from_slice(text.as_bytes())?;
    Ok(())
}

/// A text that is too wide: what has room in two columns less, and two points.
fn shortened(alloc: Global, width: usize, text: &str) -> Result<String, Memory>
    ensures { IfOk result (λ short. string_bytes short ≡ shortened width text.now) }
{
    let mut short = cut(alloc, width.saturating_sub(2), text)?;
    short.push_str("..")?;
    Ok(short)
}

/// Appends a text, left aligned in a number of columns; one that is too wide is cut and ends with `..`.
pub(crate) fn push_field(
    alloc: Global,
    out: &mut Vec<u8>,
    width: usize,
    text: &str,
) -> Result<(), Memory>
    ensures { OnOk result (out.new.items ≡ out.old.items ++ field width text.now) }
{
    if text.width() <= width {
        return push_left_aligned(out, width, text);
    }
    let short = shortened(alloc, width, text)?;
    push_left_aligned(out, width, short.as_str())
}
