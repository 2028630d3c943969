//! The lines of postings, in columns.
ghost use Rattle.std.specs.Prelude.{◌≡◌, ◌++◌, OnOk, replicate};
ghost use Rattle.std.specs.List.{flat_map};
ghost use Rattle.journal_printer.specs.Columns.{left_aligned, right_aligned};
ghost use Rattle.journal_printer.specs.Layout as spec;

use crate::comment::push_comment;
use crate::fields::Fields;
use crate::measured::Measured;
use crate::widths::{Widths, widths_of};
use hl_base::Memory;

/// Puts a number of spaces.
fn push_spaces(out: &mut Vec<u8>, count: usize) -> Result<(), Memory>
    ensures { OnOk result (out.new.items ≡ out.old.items ++ replicate count 32) }
{
    for _pushed in 0..count {
        out.push(b' ')?;
    }
    Ok(())
}

/// Puts a text, left aligned in a number of columns.
fn push_left_aligned(out: &mut Vec<u8>, columns: usize, text: &Measured) -> Result<(), Memory>
    ensures { OnOk result (out.new.items ≡ out.old.items ++ left_aligned columns text.now) }
{
    out.extend_from_slice(text.as_bytes())?;
    push_spaces(out, columns.saturating_sub(text.columns()))
}

/// Puts a text, right aligned in a number of columns.
fn push_right_aligned(out: &mut Vec<u8>, columns: usize, text: &Measured) -> Result<(), Memory>
    ensures { OnOk result (out.new.items ≡ out.old.items ++ right_aligned columns text.now) }
{
    push_spaces(out, columns.saturating_sub(text.columns()))?;
    out.extend_from_slice(text.as_bytes())?;
    Ok(())
}

/// Puts the lines of some postings, in the columns of the widest of them.
pub fn push_postings(out: &mut Vec<u8>, fields: &[Fields]) -> Result<(), Memory>
    ensures { OnOk result (out.new.items ≡ out.old.items ++ spec.postings_text fields.now) }
{
    push_lines(out, widths_of(fields), fields)
}

/// Puts the lines of some postings, in columns.
fn push_lines(out: &mut Vec<u8>, widths: Widths, fields: &[Fields]) -> Result<(), Memory>
    ensures { OnOk result (out.new.items ≡ out.old.items
        ++ flat_map (spec.posting_text widths) fields.now) }
{
    for posting in fields {
        push_posting(out, widths, posting)?;
    }
    Ok(())
}

/// Puts the line of a posting, and the further lines of its comment.
fn push_posting(out: &mut Vec<u8>, widths: Widths, posting: &Fields) -> Result<(), Memory>
    ensures { OnOk result (out.new.items ≡ out.old.items ++ spec.posting_text widths posting.now) }
{
    out.extend_from_slice(b"    ")?;
    push_entry(out, widths, posting)?;
    push_comment(out, posting.comment())
}

/// Puts the account of a posting, and where an amount or an assertion follows, both in columns.
fn push_entry(out: &mut Vec<u8>, widths: Widths, posting: &Fields) -> Result<(), Memory>
    ensures { OnOk result (out.new.items ≡ out.old.items ++ spec.entry_text widths posting.now) }
{
    if posting.is_aligned() {
        push_left_aligned(out, widths.account, posting.account())?;
        out.extend_from_slice(b"  ")?;
        push_right_aligned(out, widths.amount, posting.amount())?;
        out.extend_from_slice(posting.further())?;
    } else {
        out.extend_from_slice(posting.account().as_bytes())?;
    }
    Ok(())
}
