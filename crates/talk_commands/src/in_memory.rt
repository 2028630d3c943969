//! One connection to a journal in memory that begins as a text.
ghost use Rattle.std.specs.Prelude.{◌≡◌, None, [], IfOk, IfErr, OnOk, OnErr};
ghost use Rattle.hl_base.specs.MemDisk.{IsFreshDisk};
ghost use Rattle.hl_time.specs.Calendar.{IsDay};
ghost use Rattle.live_journal.specs.Loading.{fault_of};
ghost use Rattle.desk.specs.Desks.{state_of};
ghost use Rattle.store_commands.specs.Asking.{told_by};
ghost use Rattle.store_making.specs.Refusals.{IsOfText};
ghost use Rattle.talk_commands.specs.Links.{wire};
ghost use Rattle.talk_commands.specs.Memory.{NeverFails, TalksFrom, begun, room};

use crate::machine::talk_desk;
use crate::terms::Terms;
use desk::{Allow, Desk};
use hl_base::{Link, MemDisk, Memory, Steps};
use live_journal::load_book_by;
use query::Maker;
use std::alloc::Global;
use std::sync::Wait;
use std::sync::ledger::Ledger;
use std::thread::Threads;
use store_commands::of_opening;
use store_making::{JournalRefusal, of_text};
use web_desk::ConnEnd;

/// The room of each disk, and the limit of the store, in bytes.
const ROOM: u64 = 67_108_864;

/// Judges the limits of a text, at most 16,777,216 bytes and then 200,000 items, and then its faults. It has no year before it, and
/// may be read by several threads, which have ended when that is told.
pub fn judge_text<R: Threads + Sync, L: Ledger>(
    rt: &R,
    alloc: Global,
    text: &[u8],
    steps: &mut Steps<L>,
) -> Result<(), JournalRefusal>
    ensures good { OnOk result (fault_of None text.now ≡ None) }
    ensures cause { IfErr result (λ e. IsOfText e (fault_of None text.now)) }
{
    match load_book_by(rt, alloc, text, None, steps) {
        Ok(book) => {
            // The program ends after it has told of the text, so a large book isn't taken apart first.
            std::mem::forget(book);
            Ok(())
        }
        Err(fault) => Err(of_text(fault)),
    }
}

/// Two empty disks in memory.
fn empty_disks(alloc: Global) -> Result<(MemDisk, MemDisk), Memory>
    ensures first { IfOk result (λ pair. IsFreshDisk pair.0 [] room None []) }
    ensures second { IfOk result (λ pair. IsFreshDisk pair.1 [] room None []) }
{
    let first = MemDisk::new(alloc, &[], ROOM, None, &[])?;
    let second = MemDisk::new(alloc, &[], ROOM, None, &[])?;
    Ok((first, second))
}

/// The machine of a journal in memory that begins as a text. Its disks have room and never fail, so its text refuses it, or
/// want of memory.
fn machine_of<L: Ledger>(
    alloc: Global,
    text: &[u8],
    allow: Allow,
    steps: &mut Steps<L>,
) -> Result<Desk<MemDisk>, JournalRefusal>
    ensures begun { IfOk result (λ desk. state_of desk ≡ begun text.now allow) }
    ensures sound { IfOk result (λ desk. NeverFails room desk) }
    ensures cause { IfErr result (λ e. IsOfText e (fault_of None text.now)) }
{
    let Ok((first, second)) = empty_disks(alloc) else {
        return Err(JournalRefusal::Memory);
    };
    match Desk::create(alloc, first, second, text, ROOM, allow, steps) {
        Ok(desk) => Ok(desk),
        Err((_, _, fault)) => Err(of_opening(fault)),
    }
}

/// Answers the messages that come over a link, up to the end of the connection, from a journal in memory that begins as a text.
/// The text has no year before it. It is judged first: where it has more than 16,777,216 bytes or 200,000 items, or a fault,
/// that is told, and nothing is read of the link or sent over it.
pub fn talk_from<W: Threads + Wait + Sync, K: Link, M: Maker, L: Ledger>(
    rt: &W,
    alloc: Global,
    text: &[u8],
    terms: Terms,
    link: &mut K,
    maker: &mut M,
    steps: &mut Steps<L>,
) -> Result<ConnEnd, JournalRefusal>
    requires { IsDay terms.day.0 }
    ensures talks { TalksFrom text.now terms.allow terms.day.0 (told_by M.Maker maker.old maker.new)
        (wire K.Link link.old link.new) result }
    ensures untouched { OnErr result ((link.new ≡ link.old) × (maker.new ≡ maker.old)) }
{
    if let Err(refusal) = judge_text(rt, alloc, text, steps) {
        return Err(refusal);
    }
    match machine_of(alloc, text, terms.allow, steps) {
        Ok(desk) => {
            let (_, _, end) = talk_desk(rt, alloc, desk, terms.day, link, maker, steps);
            end
        }
        Err(refusal) => Err(refusal),
    }
}
