//! Reads an item.
ghost use Rattle.std.specs.Prelude.{◌≡◌, ◌==◌, ◌+◌, ◌<◌, ◌^◌, true, false, length, OnOk, IfErr};
ghost use Rattle.std.specs.List.{count_by};
ghost use Rattle.std.specs.Str.{is_utf8};
ghost use Rattle.hl_base.specs.Gives.{Gives};
ghost use Rattle.hl_base.specs.Lines.{first_line};
ghost use Rattle.hl_base.specs.Items as items;
ghost use Rattle.book.specs.declared.fault.Cause.TheVariants.{Encoding};
ghost use Rattle.entry_reader.specs.declared.fault.ReadFault.TheVariants.{Read};
ghost use Rattle.entry_reader.specs.Causes as causes;
ghost use Rattle.entry_reader.specs.Causes.{cause_in};
ghost use Rattle.entry_reader.specs.Lines.{contents_of};
ghost use Rattle.journal_reader.specs.Items as spec;

use book::{Cause, Item};
use directive_reader::read_head_item;
use entry_reader::entry::read_entry;
use entry_reader::fault::fault_at;
use entry_reader::posting::line_ends;
use entry_reader::scan::begins_digit;
use entry_reader::{Context, ReadFault};
use hl_base::line::{kind_of, line_at};
use hl_base::{ENTRY_LIMIT, Kind, Steps};
use std::alloc::Global;
use std::sync::ledger::Ledger;

/// The fault of bytes that aren't UTF-8, in the line of the first of them.
fn check_utf8(bytes: &[u8], line: u64) -> Result<(), ReadFault>
    requires { line + length (contents_of bytes.now) < 2 ^ 64 }
    ensures ok { OnOk result (is_utf8 bytes.now ≡ true) }
    ensures broken { IfErr result (λ e.
        e ≡ Read (causes.fault_at (spec.broken_line line bytes.now) Encoding)) }
    ensures none { IfErr result (λ e. is_utf8 bytes.now ≡ false) }
{
    match std::str::from_utf8(bytes) {
        Ok(_) => Ok(()),
        Err(error) => {
            let (front, _) = bytes.split_at(error.valid_up_to());
            Err(fault_at(line + line_ends(front) as u64, Cause::Encoding))
        }
    }
}

/// What a piece is.
#[tactic(auto, using(crate::proofs::Digits::entry_front))]
fn kind_at(bytes: &[u8]) -> Kind
    ensures { result ≡ items.kind_of (first_line bytes.now) }
{
    if bytes.is_empty() {
        return Kind::Gap;
    }
    if begins_digit(bytes) {
        return Kind::Entry;
    }
    let (first, _) = line_at(bytes, 0);
    kind_of(first)
}

/// What a piece in UTF-8 says.
fn read_piece(alloc: Global, bytes: &[u8], context: &Context, line: u64) -> Result<Item, ReadFault>
    requires utf8 { is_utf8 bytes.now ≡ true }
    requires lines { line + length (contents_of bytes.now) < 2 ^ 64 }
    ensures { Gives (λ item.
        item) cause_in result
        (spec.said_by (items.kind_of (first_line bytes.now)) context.now line bytes.now) }
{
    match kind_at(bytes) {
        Kind::Gap => Ok(Item::Gap),
        Kind::Block => Ok(Item::Block),
        Kind::Stray => Err(fault_at(line, Cause::Form)),
        Kind::Entry => {
            if bytes.len() > ENTRY_LIMIT {
                Err(fault_at(line, Cause::TooLong))
            } else {
                read_entry(alloc, bytes, context, line)
            }
        }
        Kind::Head => {
            if bytes.len() > ENTRY_LIMIT {
                Err(fault_at(line, Cause::TooLong))
            } else {
                read_head_item(alloc, bytes, context, line)
            }
        }
    }
}

/// What a piece of a text says, by its bytes, of which the first is in the `line`-th line, in the context of the items
/// before it. Bytes that aren't UTF-8 are refused first, in the line of the first of them; then an entry, a directive or
/// a rule of more than 65,536 bytes, in its first line; then the first place that isn't of its form. Of gaps and blocks
/// nothing more is asked. The bytes aren't counted: whoever has several pieces read at once counts them.
#[tactic(auto, unfolding(crate::specs::Items::reading))]
pub fn read_uncounted(
    alloc: Global,
    bytes: &[u8],
    context: &Context,
    line: u64,
) -> Result<Item, ReadFault>
    requires { line + length (contents_of bytes.now) < 2 ^ 64 }
    ensures { Gives (λ item. item) cause_in result (spec.reading context.now line bytes.now) }
{
    check_utf8(bytes, line)?;
    read_piece(alloc, bytes, context, line)
}

/// What a piece of a text says, as `read_uncounted` reads it. Its bytes are counted.
pub fn read_item<L: Ledger>(
    alloc: Global,
    bytes: &[u8],
    context: &Context,
    line: u64,
    steps: &mut Steps<L>,
) -> Result<Item, ReadFault>
    requires { line + length (contents_of bytes.now) < 2 ^ 64 }
    ensures value { Gives (λ item. item) cause_in result (spec.reading context.now line bytes.now) }
    ensures steps { steps.new ≡ record steps.old {
      bytes_read = steps.old.bytes_read
          + length bytes.now;
    } }
{
    steps.read_bytes(bytes.len() as u64);
    read_uncounted(alloc, bytes, context, line)
}
