//! What a path names.

use report_options::Command;

/// What a path names.
#[derive(Clone, Copy, Debug, PartialEq, Eq)]
pub enum Resource {
    /// A report.
    Report(Command),
    /// The text of the journal.
    Download,
    /// The journal's end, where entries are added.
    Add,
    /// An item of the journal, or all of it, as a form.
    Edit,
    /// All of the journal, as it stands.
    Upload,
    /// The file of a bank.
    Import,
    /// The page, which not every server has.
    Page,
    /// The check of an entry, for the page.
    Check,
    /// The preview of a bank's file, for the page.
    Preview,
}
