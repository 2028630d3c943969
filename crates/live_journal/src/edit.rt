//! The edits of a journal.
use hl_base::Bytes;

/// An edit of a journal. An item is named by its number, counted from 1, and a base is the revision from which the
/// edit was made.
#[derive(Debug, Drop)]
pub enum Edit {
    /// Puts an entry behind the text.
    Add { entry: Bytes },
    /// Puts an entry in the place of an item; an empty one deletes it.
    Change { base: u64, item: u64, entry: Bytes },
    /// Puts a text in the place of the whole text.
    Replace { base: u64, text: Bytes },
}
