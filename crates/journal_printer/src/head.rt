//! The first line of a transaction.
ghost use Rattle.std.specs.Prelude.{◌≡◌, ◌++◌, OnOk};
ghost use Rattle.journal_printer.specs.Texts.{head_mark, code_text, description_text, head_text};

use crate::comment::push_comment;
use book::{Mark, Txn};
use hl_base::Memory;
use hl_time::push_calendar_day;

/// Puts the first line of a transaction, and the further lines of its comment.
pub fn push_head(out: &mut Vec<u8>, txn: &Txn) -> Result<(), Memory>
    ensures { OnOk result (out.new.items ≡ out.old.items ++ head_text txn.now) }
{
    push_calendar_day(out, txn.day)?;
    push_mark(out, txn.mark)?;
    push_code(out, txn.code.as_bytes())?;
    push_description(out, txn.description.as_bytes())?;
    push_comment(out, txn.comment.as_bytes())
}

/// Puts the mark of a transaction, if it has one.
fn push_mark(out: &mut Vec<u8>, mark: Mark) -> Result<(), Memory>
    ensures { OnOk result (out.new.items ≡ out.old.items ++ head_mark mark) }
{
    match mark {
        Mark::Unmarked => Ok(()),
        Mark::Pending => Ok(out.extend_from_slice(b" !")?),
        Mark::Cleared => Ok(out.extend_from_slice(b" *")?),
    }
}

/// Puts a code in parentheses, unless it is empty.
fn push_code(out: &mut Vec<u8>, code: &[u8]) -> Result<(), Memory>
    ensures { OnOk result (out.new.items ≡ out.old.items ++ code_text code.now) }
{
    if !code.is_empty() {
        out.extend_from_slice(b" (")?;
        out.extend_from_slice(code)?;
        out.push(b')')?;
    }
    Ok(())
}

/// Puts a description, unless it is empty.
fn push_description(out: &mut Vec<u8>, description: &[u8]) -> Result<(), Memory>
    ensures { OnOk result (out.new.items ≡ out.old.items ++ description_text description.now) }
{
    if !description.is_empty() {
        out.push(b' ')?;
        out.extend_from_slice(description)?;
    }
    Ok(())
}
