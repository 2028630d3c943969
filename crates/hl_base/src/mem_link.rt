//! A connection in memory, which fails where it is told to.
ghost use Rattle.std.specs.Prelude.{◌≡◌, ◌≤◌, ◌<◌, ℕ, [], Some, IfOk, length, vec_capacity};

use crate::fault::{Failed, Memory};
use crate::link::Link;
use std::alloc::Global;

/// A connection over which bytes in memory come, and into memory others are sent, with a room in bytes. The reads
/// and writes whose numbers, counted together from 1, were named fail, and so does a write past the room.
#[derive(Drop)]
pub struct MemLink {
    coming: Vec<u8>,
    at: usize,
    most: usize,
    sent: Vec<u8>,
    room: u64,
    fails: Vec<u64>,
    calls: u64,
    read_faults: u64,
    write_faults: u64,
    ghost inside: { at ≤ length coming.items },
    ghost some: { 0 < most },
    ghost held: { room ≤ vec_capacity sent },
}

impl MemLink {
    /// A link over which these bytes come, with a room for so many bytes that are sent. All its memory is taken
    /// now. A read gives as many bytes as there are.
    pub fn new(alloc: Global, coming: &[u8], room: u64, fails: &[u64]) -> Result<MemLink, Memory>
        ensures coming { IfOk result (λ link. ⟦<MemLink as Link>⟧.coming link ≡ Some coming.now) }
        ensures sent { IfOk result (λ link. ⟦<MemLink as Link>⟧.sent link ≡ Some []) }
        ensures read_faults { IfOk result (λ link. ⟦<MemLink as Link>⟧.read_faults link ≡ 0) }
        ensures write_faults { IfOk result (λ link. ⟦<MemLink as Link>⟧.write_faults link ≡ 0) }
        ensures sound { IfOk result (λ link. fails.now ≡ [] → (n : ℕ) → n ≤ room
            → ⟦<MemLink as Link>⟧.HasRoom link n) }
    {
        MemLink::in_cuts(alloc, coming, room, fails, usize::MAX)
    }

    /// The same, but a read gives at most `most` bytes.
    pub fn in_cuts(
        alloc: Global,
        coming: &[u8],
        room: u64,
        fails: &[u64],
        most: usize,
    ) -> Result<MemLink, Memory>
        requires { 0 < most }
        ensures coming { IfOk result (λ link. ⟦<MemLink as Link>⟧.coming link ≡ Some coming.now) }
        ensures sent { IfOk result (λ link. ⟦<MemLink as Link>⟧.sent link ≡ Some []) }
        ensures read_faults { IfOk result (λ link. ⟦<MemLink as Link>⟧.read_faults link ≡ 0) }
        ensures write_faults { IfOk result (λ link. ⟦<MemLink as Link>⟧.write_faults link ≡ 0) }
        ensures sound { IfOk result (λ link. fails.now ≡ [] → (n : ℕ) → n ≤ room
            → ⟦<MemLink as Link>⟧.HasRoom link n) }
    {
        Ok(MemLink {
            coming: Vec::from_slice(alloc, coming)?,
            at: 0,
            most,
            sent: Vec::with_capacity(alloc, room as usize)?,
            room,
            fails: Vec::from_slice(alloc, fails)?,
            calls: 0,
            read_faults: 0,
            write_faults: 0,
        })
    }

    /// The link, with no fault counted.
    pub(crate) fn uncounted(self) -> MemLink
        ensures { result ≡ record self { read_faults = 0; write_faults = 0 } }
    {
        let mut link = self;
        link.read_faults = 0;
        link.write_faults = 0;
        link
    }

    /// The bytes that were sent.
    pub fn as_slice(&self) -> &[u8]
        ensures { ⟦<MemLink as Link>⟧.sent self.now ≡ Some result.now }
    {
        self.sent.as_slice()
    }
}

impl Link for MemLink {
    ghost use Rattle.std.specs.Prelude.{◌≡◌, ◌≤◌, ◌+◌, [], Some, drop, length};

    ghost coming = { λ s. Some (drop s.at s.coming.items) };

    ghost sent = { λ s. Some s.sent.items };

    ghost read_faults = { λ s. s.read_faults };

    ghost write_faults = { λ s. s.write_faults };

    ghost HasRoom = { λ s n. (s.fails.items ≡ []) × (length s.sent.items + n ≤ s.room) };

    fn read(&mut self, room: &mut [u8]) -> Result<usize, Failed> {
        self.calls = self.calls.saturating_add(1);
        if self.fails.contains(&self.calls) {
            self.read_faults = self.read_faults.saturating_add(1);
            return Err(Failed);
        }
        let left = self.coming.len() - self.at;
        let count = room.len().min(left).min(self.most);
        room[..count].copy_from_slice(&self.coming[self.at..self.at + count]);
        self.at += count;
        Ok(count)
    }

    fn write(&mut self, piece: &[u8]) -> Result<usize, Failed> {
        self.calls = self.calls.saturating_add(1);
        let fits = piece.len() as u64 <= self.room.saturating_sub(self.sent.len() as u64);
        if self.fails.contains(&self.calls)
            || !fits
            || self.sent.extend_from_slice(piece).is_err()
        {
            self.write_faults = self.write_faults.saturating_add(1);
            return Err(Failed);
        }
        Ok(piece.len())
    }
}
