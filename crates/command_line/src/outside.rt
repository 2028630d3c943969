//! What a run reads, where it writes, and who builds its patterns.

use crate::streams::Streams;

/// The objects of a run: its input and output, where it says what went wrong, the files that its words name, and who
/// builds the patterns of its queries.
#[derive(Drop)]
pub struct Outside<J, O, E, S, M> {
    pub streams: Streams<J, O>,
    pub err: E,
    pub shelf: S,
    pub maker: M,
}
