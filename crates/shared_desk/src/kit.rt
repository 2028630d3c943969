//! What a worker works with.

/// What a worker works with: the door at which its connections come, a clock, and who builds the patterns of words.
#[derive(Drop)]
pub struct Kit<R, C, M> {
    pub door: R,
    pub clock: C,
    pub maker: M,
}
