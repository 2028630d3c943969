//! What is kept of a book for the sums of its accounts.
use hl_base::{List, Text};
use live_index::Index;

/// What is kept of the postings of a book: their amounts, as rows, and their accounts and symbols, each once and in the
/// order of accounts. After an edit more accounts and symbols may be named than the book has.
#[derive(Drop)]
pub struct Kept {
    pub sums: Index,
    pub accounts: List<Text>,
    pub symbols: List<Text>,
}
