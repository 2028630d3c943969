//! An edit as it is kept.

use hl_base::Latest;
use live_journal::Edit;

/// An edit as it is kept: the edit of the text, and the state of the import that it is, if it is one.
#[derive(Drop)]
pub struct Deed {
    pub edit: Edit,
    pub mark: Option<Latest>,
}
