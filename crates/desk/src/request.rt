//! What is asked of the machine.
ghost use Rattle.std.specs.Prelude.{◌≡◌};
ghost use Rattle.desk.specs.Permissions.{allow_word};

use hl_base::{Bytes, List, Text};

/// What a request may do to the journal. Each includes those before it.
#[derive(Clone, Copy, Debug, PartialEq, Eq)]
pub enum Allow {
    /// Read it.
    View,
    /// Read it and add entries.
    Add,
    /// Read it, add entries, and change what stands there.
    Edit,
}

impl Allow {
    /// The word for it: `view`, `add` or `edit`.
    pub fn word(self) -> &'static str
        ensures { result.now ≡ allow_word self }
    {
        match self {
            Allow::View => "view",
            Allow::Add => "add",
            Allow::Edit => "edit",
        }
    }
}

/// What is asked of the machine.
#[derive(Debug, Drop)]
pub enum Request {
    /// The text of a report: its command and the words after it.
    Report {
        words: List<Text>,
    },
    /// The text of the journal.
    Download,
    /// An entry at the end of the journal.
    Add {
        entry: Bytes,
    },
    /// An entry in the place of the item of that number, counted from 1; an empty one deletes it. The base is the
    /// revision that the sender saw.
    Change {
        base: u64,
        item: u64,
        entry: Bytes,
    },
    /// Another text in the place of the journal's.
    Replace {
        base: u64,
        text: Bytes,
    },
    /// The entries that a file becomes by rules, those that are new, behind the journal's. What was taken of the file is
    /// remembered under the name.
    Import {
        name: Text,
        rules: Bytes,
        csv: Bytes,
    },
    /// A dry run of the addition of an entry: the line that the addition would be replied, and nothing is stored.
    Check {
        entry: Bytes,
    },
    /// A dry run of an import: the entries that it would add, and nothing is stored.
    Preview {
        name: Text,
        rules: Bytes,
        csv: Bytes,
    },
}
