//! The memory forms of a source and a sink, which fail where they are told to.
ghost use Rattle.std.specs.Prelude.{◌≡◌, ◌≤◌, ℕ, List, [], Some, IfOk, length, vec_capacity};

use crate::fault::{Failed, Memory};
use crate::outside::{Sink, Source};
use std::alloc::Global;

/// A source over bytes in memory. The reads whose numbers, counted from 1, were named fail.
#[derive(Drop)]
pub struct MemSource {
    text: Vec<u8>,
    at: usize,
    fails: Vec<u64>,
    calls: u64,
    faults: u64,
    ghost inside: { at ≤ length text.items },
}

impl MemSource {
    /// A source of these bytes.
    pub fn new(alloc: Global, text: &[u8], fails: &[u64]) -> Result<MemSource, Memory>
        ensures left { IfOk result (λ source. ⟦<MemSource as Source>⟧.left source ≡ Some text.now) }
        ensures faults { IfOk result (λ source. ⟦<MemSource as Source>⟧.faults source ≡ 0) }
        ensures sound { IfOk result (λ source. fails.now ≡ []
            → ⟦<MemSource as Source>⟧.IsSound source) }
    {
        Ok(MemSource {
            text: Vec::from_slice(alloc, text)?,
            at: 0,
            fails: Vec::from_slice(alloc, fails)?,
            calls: 0,
            faults: 0,
        })
    }
}

impl Source for MemSource {
    ghost use Rattle.std.specs.Prelude.{◌≡◌, [], Some, drop};

    ghost left = { λ s. Some (drop s.at s.text.items) };

    ghost faults = { λ s. s.faults };

    ghost IsSound = { λ s. s.fails.items ≡ [] };

    fn read(&mut self, room: &mut [u8]) -> Result<usize, Failed> {
        self.calls = self.calls.saturating_add(1);
        if self.fails.contains(&self.calls) {
            self.faults = self.faults.saturating_add(1);
            return Err(Failed);
        }
        let count = room.len().min(self.text.len() - self.at);
        room[..count].copy_from_slice(&self.text[self.at..self.at + count]);
        self.at += count;
        Ok(count)
    }
}

/// A sink into memory, with a room in bytes. The writes whose numbers, counted from 1, were named fail, and so
/// does one past the room.
#[derive(Drop)]
pub struct MemSink {
    text: Vec<u8>,
    room: u64,
    fails: Vec<u64>,
    calls: u64,
    faults: u64,
    ghost held: { room ≤ vec_capacity text },
}

impl MemSink {
    /// A sink with a room for so many bytes, whose memory is taken now.
    pub fn new(alloc: Global, room: u64, fails: &[u64]) -> Result<MemSink, Memory>
        ensures written { IfOk result (λ sink. ⟦<MemSink as Sink>⟧.written sink ≡ Some []) }
        ensures faults { IfOk result (λ sink. ⟦<MemSink as Sink>⟧.faults sink ≡ 0) }
        ensures sound { IfOk result (λ sink. fails.now ≡ [] → (n : ℕ) → n ≤ room
            → ⟦<MemSink as Sink>⟧.HasRoom sink n) }
    {
        Ok(MemSink {
            text: Vec::with_capacity(alloc, room as usize)?,
            room,
            fails: Vec::from_slice(alloc, fails)?,
            calls: 0,
            faults: 0,
        })
    }

    /// The bytes that were written.
    pub fn as_slice(&self) -> &[u8]
        ensures { ⟦<MemSink as Sink>⟧.written self.now ≡ Some result.now }
    {
        self.text.as_slice()
    }
}

impl Sink for MemSink {
    ghost use Rattle.std.specs.Prelude.{◌≡◌, ◌≤◌, ◌+◌, [], Some, length};

    ghost written = { λ s. Some s.text.items };

    ghost faults = { λ s. s.faults };

    ghost HasRoom = { λ s n. (s.fails.items ≡ []) × (length s.text.items + n ≤ s.room) };

    fn write(&mut self, piece: &[u8]) -> Result<usize, Failed> {
        self.calls = self.calls.saturating_add(1);
        let fits = piece.len() as u64 <= self.room.saturating_sub(self.text.len() as u64);
        if self.fails.contains(&self.calls)
            || !fits
            || self.text.extend_from_slice(piece).is_err()
        {
            self.faults = self.faults.saturating_add(1);
            return Err(Failed);
        }
        Ok(piece.len())
    }
}
