//! What a store stands for.
use hl_base::{Bytes, Latest, List};

/// A text, the states of its imports, and its revision, which is how often it was changed.
#[derive(Debug, Drop)]
pub struct Image {
    pub text: Bytes,
    pub latest: List<Latest>,
    pub revision: u64,
}
