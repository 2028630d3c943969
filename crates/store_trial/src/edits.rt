//! The edits of a trial. What the text is at a revision follows from the revision alone, so that a reader can tell
//! whether it is what the writer's edits make.
ghost use Rattle.std.specs.Prelude.{◌≡◌, ◌≤◌, ◌+◌, ◌++◌, length, take, drop, IfOk};
ghost use Rattle.text_store.specs.Changes.{HasShortName};

use hl_base::{Bytes, Memory, Splice};
use std::alloc::Global;
use text_store::Change;

/// Every so often the text is begun anew.
const PERIOD: u64 = 400;

/// Where a revision's edit begins and how many bytes it removes, in a text of so many bytes.
#[derive(Drop)]
struct Part {
    at: usize,
    removed: usize,
}

// The part of a text that a revision's edit replaces: all of it, its front half, none at its front or none at its end.
fn replaced(len: usize, revision: u64) -> Part
    ensures { result.at + result.removed ≤ len }
{
    if revision % PERIOD == 0 {
        Part {
            at: 0,
            removed: len,
        }
    } else if revision % 7 == 0 {
        Part {
            at: 0,
            removed: len / 2,
        }
    } else if revision % 2 == 0 {
        Part {
            at: len,
            removed: 0,
        }
    } else {
        Part { at: 0, removed: 0 }
    }
}

// The line that a revision's edit inserts.
fn line(alloc: Global, revision: u64) -> Result<Vec<u8>, Memory> {
    let text = format!(in alloc; "{revision}\n")?;
    Ok(Vec::from_slice(alloc, text.as_bytes())?)
}

// A text after an edit.
fn edited(alloc: Global, text: &[u8], part: &Part, line: &[u8]) -> Result<Vec<u8>, Memory>
    requires { part.now.at + part.now.removed ≤ length text.now }
    ensures { IfOk result (λ new.
        new.items ≡ take part.now.at text.now ++ line.now
        ++ drop (part.now.at + part.now.removed) text.now) }
{
    let (front, rest) = text.split_at(part.at);
    let (_, back) = rest.split_at(part.removed);
    let mut new = Vec::from_slice(alloc, front)?;
    new.extend_from_slice(line)?;
    new.extend_from_slice(back)?;
    Ok(new)
}

/// Makes a revision's edit in a text, and gives its change.
pub fn next(alloc: Global, text: &mut Vec<u8>, revision: u64) -> Result<Change, Memory>
    ensures { IfOk result HasShortName }
{
    let part = replaced(text.len(), revision);
    let line = line(alloc, revision)?;
    *text = edited(alloc, text, &part, &line)?;
    if revision % PERIOD == 0 {
        return Ok(Change::Whole(Bytes::from_vec(line)));
    }
    Ok(Change::Splice(Splice {
        at: part.at as u64,
        removed: part.removed as u64,
        inserted: Bytes::from_vec(line),
    }))
}

/// The text at a revision.
pub fn text_at(alloc: Global, revision: u64) -> Result<Vec<u8>, Memory> {
    let mut text = Vec::new(alloc);
    let begin = (revision / PERIOD * PERIOD).max(1);
    for made in begin..=revision {
        next(alloc, &mut text, made)?;
    }
    Ok(text)
}

#[cfg(test)]
mod tests {
    use super::*;
    use std::test::Fail;

    #[test]
    fn the_text_follows_from_the_revision(rt: HostRuntime) -> Result<(), Fail> {
        let third = text_at(rt.alloc(), 3)?;
        assert_eq!(rt; third.as_slice(), b"3\n1\n2\n".as_slice());
        let mut text = Vec::new(rt.alloc());
        for revision in 1..=7u64 {
            next(rt.alloc(), &mut text, revision)?;
        }
        assert_eq!(rt; text.as_slice(), b"7\n2\n4\n6\n".as_slice());
        let anew = text_at(rt.alloc(), 400)?;
        assert_eq!(rt; anew.as_slice(), b"400\n".as_slice());
        Ok(())
    }
}
