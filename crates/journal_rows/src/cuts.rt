//! A source in memory that is read in pieces.
ghost use Rattle.std.specs.Prelude.{◌<◌};

use hl_base::{Failed, MemSource, Memory, Source};
use std::alloc::Global;

/// A source of bytes in memory, of which a read gives at most so many. The reads whose numbers, counted from 1, were
/// named fail.
#[derive(Drop)]
pub struct Cuts {
    source: MemSource,
    most: usize,
    ghost some: { 0 < most },
}

impl Cuts {
    /// A source of these bytes.
    pub fn new(alloc: Global, text: &[u8], fails: &[u64], most: usize) -> Result<Cuts, Memory>
        requires { 0 < most }
    {
        let source = MemSource::new(alloc, text, fails)?;
        Ok(Cuts { source, most })
    }
}

impl Source for Cuts {
    ghost left = { λ s. ⟦<MemSource as Source>⟧.left s.source };

    ghost faults = { λ s. ⟦<MemSource as Source>⟧.faults s.source };

    ghost IsSound = { λ s. ⟦<MemSource as Source>⟧.IsSound s.source };

    fn read(&mut self, room: &mut [u8]) -> Result<usize, Failed> {
        let count = room.len().min(self.most);
        let (front, _) = room.split_at_mut(count);
        self.source.read(front)
    }
}
