//! The record of the calls that a disk in memory was given.
ghost use Rattle.std.specs.Prelude.{◌≡◌, ◌∷◌, [], List, length, IfOk, if◌then◌else◌};
ghost use Rattle.std.specs.Prelude.{IsTrue, IsSome};
ghost use Rattle.hl_base.specs.Calls.{piece_len, step_of, history, written};
ghost use Rattle.std.specs.Prelude.{◌<◌, OnOk};
ghost use Rattle.hl_base.specs.Disk.{overwritten};
ghost use Rattle.hl_base.specs.History.{added, stepped, stepped_front, stopped_text};

use crate::fault::Memory;
use crate::surface::Surface;
use std::alloc::Global;
use std::marker::Model;

/// A call: one that changed nothing, a write of so many bytes, a cut, or a sync.
#[derive(Clone, Copy)]
pub enum Call {
    Still,
    Write { at: usize, len: usize },
    Cut { len: usize },
    Sync,
}

/// A file's first bytes and the calls since, the bytes that were written one after the other.
#[derive(Drop)]
pub struct Record {
    first: Vec<u8>,
    calls: Vec<Call>,
    pieces: Vec<u8>,
    calls_room: usize,
    bytes_room: usize,
}

impl Model for Record {
    ghost use Rattle.std.specs.Prelude.{◌≡◌, length, []};
    ghost use Rattle.hl_base.specs.History.{Recorded};

    ghost Value = { Recorded };

    ghost use Rattle.hl_base.specs.Calls.{history, written};

    ghost view = { λ r. record { first = r.first.items; steps = history [] r.calls.items r.pieces.items } };

    ghost invariant = { λ r. written r.calls.items ≡ length r.pieces.items };
}

impl Record {
    /// A record without calls, with room for so many calls and bytes of theirs.
    pub fn new(
        alloc: Global,
        first: &[u8],
        calls_room: usize,
        bytes_room: usize,
    ) -> Result<Record, Memory>
        ensures { IfOk result (λ r. r ≡ record { first = first.now; steps = [] }) }
    {
        Ok(Record {
            first: Vec::from_slice(alloc, first)?,
            calls: Vec::with_capacity(alloc, calls_room)?,
            pieces: Vec::with_capacity(alloc, bytes_room)?,
            calls_room,
            bytes_room,
        })
    }

    /// Adds a call with its bytes; false where there is no room for it.
    pub fn add(&mut self, call: Call, piece: &[u8]) -> bool
        requires { piece_len call ≡ length piece.now }
        ensures { self.new ≡ (if result then record self.old {
          steps = step_of call piece.now
              ∷ self.old.steps;
        } else self.old) }
    {
        let before = self.pieces.len();
        if self.calls.len() >= self.calls_room
            || self.bytes_room.saturating_sub(before) < piece.len()
        {
            return false;
        }
        if self.pieces.extend_from_slice(piece).is_err() {
            return false;
        }
        if self.calls.push(call).is_err() {
            self.pieces.truncate(before);
            return false;
        }
        true
    }
}

impl Record {
    /// The file as a crash inside a call leaves it, where at most so many of its bytes have reached it.
    pub fn stopped(
        &self,
        alloc: Global,
        room: usize,
        call: u64,
        bytes: u64,
    ) -> Result<Surface, Memory>
        requires { 0 < call }
        ensures { IfOk result (λ s.
            s ≡ record {
              text = stopped_text self.now.first self.now.steps call bytes;
              room = room;
            }) }
    {
        if self.first.len() > room {
            return Err(Memory);
        }
        let mut surface = Surface::new(alloc, &self.first, room)?;
        replay(&self.calls, &self.pieces, &mut surface, call, bytes)?;
        Ok(surface)
    }
}

// Does the calls to a file again, up to one of which a front of its bytes reaches the file.
fn replay(
    calls: &[Call],
    pieces: &[u8],
    surface: &mut Surface,
    call: u64,
    bytes: u64,
) -> Result<(), Memory>
    requires counted { 0 < call }
    requires total { written calls.now ≡ length pieces.now }
    ensures { OnOk result (surface.new
        ≡ record surface.old
        { text = stopped_text surface.old.text (history [] calls.now pieces.now) call bytes }) }
{
    let mut rest = pieces;
    for (i, made) in calls.iter().enumerate() {
        let (piece, behind) = rest.split_at(len_of(made));
        if i as u64 + 1 == call {
            let count = piece.len().min(bytes as usize);
            return redo_front(surface, made, &piece[..count]);
        }
        redo(surface, made, piece)?;
        rest = behind;
    }
    Ok(())
}

// How many bytes a call writes.
fn len_of(call: &Call) -> usize
    ensures { result ≡ piece_len call.now }
{
    match call {
        Call::Write { at: _, len } => *len,
        Call::Still | Call::Cut { len: _ } | Call::Sync => 0,
    }
}

// Does a call to a file again. A write past the room, which no record has, is want of memory.
fn redo(surface: &mut Surface, call: &Call, piece: &[u8]) -> Result<(), Memory>
    ensures { OnOk result (surface.new
        ≡ record surface.old { text = stepped surface.old.text (step_of call.now piece.now) }) }
{
    match call {
        Call::Write { at, len: _ } => write_within(surface, *at, piece),
        Call::Cut { len } => {
            surface.cut(*len);
            Ok(())
        }
        Call::Still | Call::Sync => Ok(()),
    }
}

// Does to a file again what a front of a call's bytes does.
fn redo_front(surface: &mut Surface, call: &Call, front: &[u8]) -> Result<(), Memory>
    ensures { OnOk result (surface.new
        ≡ record surface.old
        { text = stepped_front surface.old.text (step_of call.now front.now) }) }
{
    match call {
        Call::Write { at, len: _ } => write_within(surface, *at, front),
        Call::Still | Call::Cut { len: _ } | Call::Sync => Ok(()),
    }
}

// Writes bytes, if they lie within the room.
fn write_within(surface: &mut Surface, at: usize, piece: &[u8]) -> Result<(), Memory>
    ensures { OnOk result (surface.new
        ≡ record surface.old { text = overwritten surface.old.text at piece.now }) }
{
    let room = surface.room();
    if at > room || piece.len() > room - at {
        return Err(Memory);
    }
    surface.write(at, piece);
    Ok(())
}

/// Puts a call into a record, if there is one; false where it has no room.
pub fn enter(log: &mut Option<Record>, call: Call, piece: &[u8]) -> bool
    requires { piece_len call ≡ length piece.now }
    ensures entered { IsTrue result → log.new ≡ added log.old (step_of call piece.now) }
    ensures full { ¬ (IsTrue result) → (log.new ≡ log.old) × IsSome log.old }
{
    match log {
        Some(record) => record.add(call, piece),
        None => true,
    }
}
