//! The process's streams as objects of the outside. They tell nothing of their bytes.
ghost use Rattle.std.specs.Prelude.{◌≡◌};

use hl_base::{Failed, Sink, Source};
use std::io::{Read, Write};

/// What is read from a stream.
#[derive(Drop)]
pub struct Input<R: Read> {
    stream: R,
    faults: u64,
}

impl<R: Read> Input<R> {
    /// The stream, of which no read has failed.
    pub fn new(stream: R) -> Input<R>
        ensures { (result.faults ≡ 0) × (result.stream ≡ stream) }
    {
        Input { stream, faults: 0 }
    }
}

impl<R: Read> Source for Input<R> {
    ghost use Rattle.std.specs.Prelude.{None};

    ghost left = { λ _. None };

    ghost faults = { λ s. s.faults };

    ghost IsSound = { λ _. ⊥ };

    fn read(&mut self, room: &mut [u8]) -> Result<usize, Failed> {
        match self.stream.read(room) {
            Ok(count) => Ok(count),
            Err(_) => {
                self.faults = self.faults.saturating_add(1);
                Err(Failed)
            }
        }
    }
}

/// What is written to a stream.
#[derive(Drop)]
pub struct Output<W: Write> {
    stream: W,
    faults: u64,
}

impl<W: Write> Output<W> {
    /// The stream, of which no write has failed.
    pub fn new(stream: W) -> Output<W>
        ensures { (result.faults ≡ 0) × (result.stream ≡ stream) }
    {
        Output { stream, faults: 0 }
    }
}

impl<W: Write> Sink for Output<W> {
    ghost use Rattle.std.specs.Prelude.{None};

    ghost written = { λ _. None };

    ghost faults = { λ s. s.faults };

    ghost HasRoom = { λ _ _. ⊥ };

    fn write(&mut self, piece: &[u8]) -> Result<usize, Failed> {
        match self.stream.write(piece) {
            Ok(count) if count > 0 || piece.is_empty() => Ok(count),
            _ => {
                self.faults = self.faults.saturating_add(1);
                Err(Failed)
            }
        }
    }
}
