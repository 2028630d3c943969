//! Comments, behind what stands on a line and on lines of their own.
ghost use Rattle.std.specs.Prelude.{◌≡◌, ◌++◌, OnOk};
ghost use Rattle.std.specs.List.{flat_map};
ghost use Rattle.journal_printer.specs.Texts.{comment_byte, comment_start, comment_text};

use hl_base::Memory;

/// Ends a line with a comment: its first line, if that isn't empty, and each further one on a line of its own.
pub fn push_comment(out: &mut Vec<u8>, comment: &[u8]) -> Result<(), Memory>
    ensures { OnOk result (out.new.items ≡ out.old.items ++ comment_text comment.now) }
{
    push_comment_start(out, comment)?;
    push_comment_bytes(out, comment)?;
    out.push(b'\n')?;
    Ok(())
}

/// Puts what stands before the first line of a comment, if that isn't empty.
fn push_comment_start(out: &mut Vec<u8>, comment: &[u8]) -> Result<(), Memory>
    ensures { OnOk result (out.new.items ≡ out.old.items ++ comment_start comment.now) }
{
    if let Some(first) = comment.first()
        && *first != b'\n'
    {
        out.extend_from_slice(b"  ; ")?;
    }
    Ok(())
}

/// Puts the lines of a comment, each after the first on a line of its own.
fn push_comment_bytes(out: &mut Vec<u8>, comment: &[u8]) -> Result<(), Memory>
    ensures { OnOk result (out.new.items ≡ out.old.items ++ flat_map comment_byte comment.now) }
{
    for byte in comment {
        push_comment_byte(out, *byte)?;
    }
    Ok(())
}

/// Puts a byte of a comment; an LF begins a further line.
fn push_comment_byte(out: &mut Vec<u8>, byte: u8) -> Result<(), Memory>
    ensures { OnOk result (out.new.items ≡ out.old.items ++ comment_byte byte) }
{
    if byte == b'\n' {
        out.extend_from_slice(b"\n    ; ")?;
    } else {
        out.push(byte)?;
    }
    Ok(())
}
