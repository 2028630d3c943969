//! What the words of a report ask for.
use hl_base::{List, Text};
use report_options::Options;

/// What the words of a report ask for: its options, and the words of its query, those that options stand for first.
#[derive(Drop)]
pub struct Asked {
    pub options: Options,
    pub words: List<Text>,
}
