//! What an edit would make of a store: it is made of a copy of the store's files in memory.
ghost use Rattle.std.specs.Prelude.{◌≡◌, Some, Ok, drop, IfErr, IfOk};
ghost use Rattle.hl_time.specs.Calendar.{IsDay};
ghost use Rattle.text_store.specs.Image.{image};
ghost use Rattle.text_store.specs.Refusals.{Told};
ghost use Rattle.desk.specs.Previews.{added_to};
ghost use Rattle.desk.specs.Steps.{is_fault};
ghost use Rattle.store_text.specs.Refusals.{text_of};
ghost use Rattle.store_commands.specs.Asking.{told_by};
ghost use Rattle.store_commands.specs.Previews as spec;
ghost use Rattle.store_commands.specs.Replies.{IsEdit};

use crate::asking::ask_disks;
use crate::edit::StoreEdit;
use desk::{Reply, past_line_ends};
use hl_base::{Bytes, Disk, MemDisk, Memory, Steps};
use query::Maker;
use std::alloc::Global;
use std::sync::ledger::Ledger;
use store_making::JournalRefusal;
use store_text::{StoreRefusal, read_disks};

/// What an edit would do to a store.
#[derive(Drop)]
pub enum Preview {
    /// It would add this at the end of the text: nothing, where it leaves the text as it is.
    Adds(Bytes),
    /// It would be refused.
    Refused(Reply),
}

/// The room of a copy beyond the files: that of the record of an addition, which is no longer than a text.
const ROOM: u64 = 17_825_792;

/// A disk in memory that reads as a file.
fn copy_of(alloc: Global, file: &[u8], room: u64) -> Result<MemDisk, Memory>
    ensures reads { IfOk result (λ disk. ⟦<MemDisk as Disk>⟧.seen disk ≡ Some file.now) }
    ensures clean { IfOk result (λ disk. ⟦<MemDisk as Disk>⟧.failures disk ≡ 0) }
{
    let room = room.max(file.len() as u64);
    MemDisk::new(alloc, file, room, None, &[])
}

/// A store's files in memory, with room for an edit.
fn copies_of(alloc: Global, first: &[u8], second: &[u8]) -> Result<(MemDisk, MemDisk), Memory>
    ensures first { IfOk result (λ disks. ⟦<MemDisk as Disk>⟧.seen disks.0 ≡ Some first.now) }
    ensures second { IfOk result (λ disks. ⟦<MemDisk as Disk>⟧.seen disks.1 ≡ Some second.now) }
    ensures clean_first { IfOk result (λ disks. ⟦<MemDisk as Disk>⟧.failures disks.0 ≡ 0) }
    ensures clean_second { IfOk result (λ disks. ⟦<MemDisk as Disk>⟧.failures disks.1 ≡ 0) }
{
    let room = (first.len() as u64)
        .saturating_add(second.len() as u64)
        .saturating_add(ROOM);
    let one = copy_of(alloc, first, room)?;
    let other = copy_of(alloc, second, room)?;
    Ok((one, other))
}

/// The text of the image of two disks. An image that can't be read counts as `Memory`: the disks were opened before, so they have one.
fn read_text<D: Disk + Drop>(alloc: Global, first: D, second: D) -> Result<Bytes, Memory>
    ensures { IfOk result (λ text. Told D.Disk (first, second) (λ f s. text_of (image f s) ≡ Ok text)) }
{
    let (_, _, found) = read_disks(alloc, first, second);
    match found {
        Ok(text) => Ok(text),
        Err(_) => Err(Memory),
    }
}

/// The text of a store's files, in copies that are read as disks.
fn text_before(alloc: Global, first: &[u8], second: &[u8]) -> Result<Bytes, Memory>
    ensures { IfOk result (λ text. text_of (image first.now second.now) ≡ Ok text) }
{
    let one = copy_of(alloc, first, 0)?;
    let other = copy_of(alloc, second, 0)?;
    read_text(alloc, one, other)
}

/// What a text has after its first bytes.
fn behind(text: &[u8], len: usize) -> &[u8]
    ensures { result.now ≡ drop len text.now }
{
    if len <= text.len() { &text[len..] } else { &[] }
}

/// A copy of what a text has after the length of an earlier one, without the line ends before it.
fn added_text(alloc: Global, before: &[u8], after: &[u8]) -> Result<Bytes, Memory>
    ensures { IfOk result (λ bytes. bytes ≡ added_to before.now after.now) }
{
    Bytes::copied(alloc, past_line_ends(behind(after, before.len())))
}

/// What was added at the end of the text of a store's files, which two disks now hold.
fn added<D: Disk + Drop>(
    alloc: Global,
    first: &[u8],
    second: &[u8],
    one: D,
    other: D,
) -> Result<Bytes, Memory>
    ensures { IfOk result (spec.Added D.Disk first.now second.now (one, other)) }
{
    let before = text_before(alloc, first, second)?;
    let after = read_text(alloc, one, other)?;
    added_text(alloc, before.as_slice(), after.as_slice())
}

/// What is added, or that memory ran out.
fn adds_or_memory(bytes: Result<Bytes, Memory>) -> Result<Preview, JournalRefusal>
    ensures { result ≡ spec.adds_or_memory bytes }
{
    match bytes {
        Ok(bytes) => Ok(Preview::Adds(bytes)),
        Err(_) => Err(JournalRefusal::Memory),
    }
}

/// Whether a reply says that an edit is stored, or leaves the text as it is.
fn is_accepted(reply: &Reply) -> bool
    ensures { result ≡ spec.is_accepted reply.now }
{
    matches!(reply, Reply::Done { .. } | Reply::Same { .. })
}

/// Whether a reply says that a call of a disk failed.
fn is_fault(reply: &Reply) -> bool
    ensures { result ≡ is_fault reply.now }
{
    matches!(reply, Reply::DiskFault { .. })
}

/// The preview that a reply makes, which answers an edit of copies of a store's files. Two disks hold the copies. A call of such
/// a disk fails only where it has no room.
fn preview_of_reply<D: Disk + Drop>(
    alloc: Global,
    first: &[u8],
    second: &[u8],
    one: D,
    other: D,
    reply: Reply,
) -> Result<Preview, JournalRefusal>
    ensures says { IfOk result (spec.SaysReply D.Disk first.now second.now (one, other) reply) }
    ensures memory { IfErr result (λ e. e ≡ JournalRefusal.Memory) }
{
    if is_accepted(&reply) {
        return adds_or_memory(added(alloc, first, second, one, other));
    }
    if is_fault(&reply) {
        return Err(JournalRefusal::Memory);
    }
    Ok(Preview::Refused(reply))
}

/// Why a copy isn't opened as a store. A call of its disks fails only where it has no room.
fn of_store_copy(refusal: StoreRefusal) -> JournalRefusal
    ensures { result ≡ spec.of_store_copy refusal }
{
    match refusal {
        StoreRefusal::DiskFault | StoreRefusal::Memory => JournalRefusal::Memory,
        StoreRefusal::Absent => JournalRefusal::Store(StoreRefusal::Absent),
        StoreRefusal::NotAStore { at } => JournalRefusal::Store(StoreRefusal::NotAStore { at }),
        StoreRefusal::Newer { version } => JournalRefusal::Store(StoreRefusal::Newer { version }),
        StoreRefusal::Exists { len } => JournalRefusal::Store(StoreRefusal::Exists { len }),
        StoreRefusal::Full { size, limit } => {
            JournalRefusal::Store(StoreRefusal::Full { size, limit })
        }
        StoreRefusal::ReadFault => JournalRefusal::Store(StoreRefusal::ReadFault),
    }
}

/// Why a copy isn't opened as a store of a journal.
fn of_copy(refusal: JournalRefusal) -> JournalRefusal
    ensures { result ≡ spec.of_copy refusal }
{
    match refusal {
        JournalRefusal::Store(refusal) => of_store_copy(refusal),
        JournalRefusal::Load(fault) => JournalRefusal::Load(fault),
        JournalRefusal::TooLarge { limit, size } => JournalRefusal::TooLarge { limit, size },
        JournalRefusal::Memory => JournalRefusal::Memory,
    }
}

/// The bytes of a store's two files.
#[derive(Clone, Copy)]
struct Files<'a> {
    first: &'a [u8],
    second: &'a [u8],
}

/// Asks a machine on copies of a store's files for an edit.
fn ask_copies<D: Disk + Drop, M: Maker, L: Ledger>(
    alloc: Global,
    files: &Files,
    copies: (D, D),
    edit: &StoreEdit,
    maker: &mut M,
    steps: &mut Steps<L>,
) -> Result<Preview, JournalRefusal>
    requires day { IsDay edit.now.day.0 }
    requires edit { IsEdit edit.now.request }
    requires first { D.seen copies.0 ≡ Some files.now.first.now }
    requires second { D.seen copies.1 ≡ Some files.now.second.now }
    requires clean { (D.failures copies.0 ≡ 0) × (D.failures copies.1 ≡ 0) }
    ensures { spec.Previews files.now.first.now files.now.second.now edit.now.request edit.now.day.0
        (told_by M.Maker maker.old maker.new) result }
{
    let (one, other) = copies;
    let (one, other, asked) = ask_disks(alloc, one, other, edit, maker, steps);
    match asked {
        Ok(reply) => preview_of_reply(alloc, files.first, files.second, one, other, reply),
        Err(refusal) => Err(of_copy(refusal)),
    }
}

/// What an edit would make of the store of two files, of which none is changed: the machine is asked on copies in memory, which
/// have room for an addition.
pub fn preview_edit<M: Maker, L: Ledger>(
    alloc: Global,
    first: &[u8],
    second: &[u8],
    edit: &StoreEdit,
    maker: &mut M,
    steps: &mut Steps<L>,
) -> Result<Preview, JournalRefusal>
    requires day { IsDay edit.now.day.0 }
    requires edit { IsEdit edit.now.request }
    ensures { spec.Previews first.now second.now edit.now.request edit.now.day.0
        (told_by M.Maker maker.old maker.new) result }
{
    let files = Files { first, second };
    match copies_of(alloc, first, second) {
        Ok(copies) => ask_copies(alloc, &files, copies, edit, maker, steps),
        Err(_) => Err(JournalRefusal::Memory),
    }
}
