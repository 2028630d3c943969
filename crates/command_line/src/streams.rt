//! An input and an output, which are also one connection.

use hl_base::{Failed, Link, Sink, Source};

/// What the program reads and where it writes. As a connection its bytes come from the input and are sent to the
/// output.
#[derive(Drop)]
pub struct Streams<J, O> {
    pub input: J,
    pub output: O,
}

impl<J: Source, O: Sink> Link for Streams<J, O> {
    ghost coming = { λ s. J.left s.input };

    ghost sent = { λ s. O.written s.output };

    ghost read_faults = { λ s. J.faults s.input };

    ghost write_faults = { λ s. O.faults s.output };

    ghost HasRoom = { λ s more. J.IsSound s.input × O.HasRoom s.output more };

    fn read(&mut self, room: &mut [u8]) -> Result<usize, Failed> {
        self.input.read(room)
    }

    fn write(&mut self, piece: &[u8]) -> Result<usize, Failed> {
        self.output.write(piece)
    }
}
