//! Reads an entry: a head line and the lines after it.
ghost use Rattle.std.specs.Prelude.{◌≡◌, ◌+◌, ◌<◌, ◌^◌, true, length};
ghost use Rattle.std.specs.Str.{is_utf8};
ghost use Rattle.hl_base.specs.Gives.{Gives};
ghost use Rattle.entry_reader.specs.Causes.{cause_in};
ghost use Rattle.entry_reader.specs.Lines.{contents_of};
ghost use Rattle.entry_reader.specs.Entries as spec;

use crate::comment::{comment_lines, read_comment, read_tags};
use crate::context::Context;
use crate::fault::{ReadFault, fault_at};
use crate::head::read_head;
use crate::posting::read_postings;
use crate::scan::{cut_line, text_of};
use book::{Cause, Item, Txn};
use hl_time::civil_of;
use std::alloc::Global;

/// The entry of a head line's content and the lines after it.
#[tactic(auto, unfolding(crate::specs::Entries::entry_with))]
fn read_lines(
    alloc: Global,
    content: &[u8],
    after: &[u8],
    context: &Context,
    line: u64,
) -> Result<Item, ReadFault>
    requires content { is_utf8 content.now ≡ true }
    requires after { is_utf8 after.now ≡ true }
    requires lines { line + 1 + length (contents_of after.now) < 2 ^ 64 }
    ensures { Gives (λ item.
        item) cause_in result
        (spec.entry_with context.now line content.now (contents_of after.now)) }
{
    let head = read_head(context, content, line)?;
    let year = civil_of(head.day).year;
    let postings = read_postings(alloc, context, year, after, line + 1)?;
    let more = comment_lines(after);
    let comment = read_comment(alloc, head.comment, more)?;
    let tags = read_tags(alloc, head.comment, more)?;
    Ok(Item::Txn(Txn {
        line,
        day: head.day,
        mark: head.mark,
        code: text_of(alloc, head.code)?,
        description: text_of(alloc, head.description)?,
        comment,
        tags,
        postings,
    }))
}

/// An entry of a head line and the lines after it.
pub fn read_entry(
    alloc: Global,
    bytes: &[u8],
    context: &Context,
    line: u64,
) -> Result<Item, ReadFault>
    requires utf8 { is_utf8 bytes.now ≡ true }
    requires lines { line + length (contents_of bytes.now) < 2 ^ 64 }
    ensures { Gives (λ item.
        item) cause_in result (spec.entry_of context.now line (contents_of bytes.now)) }
{
    if bytes.is_empty() {
        return Err(fault_at(line, Cause::Form));
    }
    let (content, after) = cut_line(bytes);
    read_lines(alloc, content, after, context, line)
}
