//! What the words of the program ask for.

use crate::chores::Chore;
use book_commands::Work;
use desk::Allow;
use hl_base::Text;
use report_options::Command;

/// Where a text is.
#[derive(Drop)]
pub enum Origin {
    /// The input.
    Input,
    /// The file of this name.
    File(Text),
    /// The store of this name.
    Store(Text),
}

/// What is asked of the text of the input, of a file or of a store.
#[derive(Drop)]
pub struct TextTask {
    /// Where the text is.
    pub origin: Origin,
    /// What is asked of it.
    pub work: Work,
}

/// A store that is to be made of a text.
#[derive(Drop)]
pub struct Making {
    /// Its name.
    pub store: Text,
    /// Where the text is.
    pub source: Origin,
    /// The most bytes of each of its files.
    pub limit: u64,
}

/// A file of a bank that is to be imported into a store.
#[derive(Drop)]
pub struct Importing {
    /// The name of the store.
    pub store: Text,
    /// The name of the file.
    pub file: Text,
    /// The name of the file of its rules.
    pub rules: Text,
    /// The name under which it is remembered.
    pub name: Text,
}

/// A file of a bank that is to be explained.
#[derive(Drop)]
pub struct Explaining {
    /// The name of the file.
    pub file: Text,
    /// The name of the file of its rules.
    pub rules: Text,
}

/// A text that is to take the place of a store's.
#[derive(Drop)]
pub struct Replacing {
    /// The name of the store.
    pub store: Text,
    /// Where the text is.
    pub source: Origin,
    /// The revision that the store has to have, where one is given.
    pub base: Option<u64>,
}

/// A replica that is to follow the frames of a store, which are the input.
#[derive(Drop)]
pub struct Following {
    /// Its name.
    pub replica: Text,
    /// The most bytes of each of its files, where it is made.
    pub limit: u64,
}

/// What is asked of a store, or of a file of a bank.
#[derive(Drop)]
pub enum StoreTask {
    /// That it is made.
    Init(Making),
    /// An entry, which is the input, into the store of this name.
    Add(Text),
    /// An import.
    Import(Importing),
    /// What an import would add.
    Preview(Importing),
    /// Why a file of a bank isn't imported.
    Explain(Explaining),
    /// A text in the place of a store's.
    Replace(Replacing),
    /// The frames of the store of this name.
    Feed(Text),
    /// That a replica follows.
    Follow(Following),
}

/// A connection over the input and the output.
#[derive(Drop)]
pub struct Talking {
    /// Where its journal is: in a store, or in memory, where it begins as the text of a file or empty.
    pub origin: Origin,
    /// What its requests may do.
    pub allow: Allow,
}

/// What help is about.
#[derive(Clone, Copy)]
pub enum Subject {
    /// The program.
    Program,
    /// A report.
    Report(Command),
    /// A command that is no report.
    Other(Chore),
    /// `serve`.
    Serve,
}

/// What the words ask for.
#[derive(Drop)]
pub enum Task {
    /// Something of a text.
    Over(TextTask),
    /// A store that is made, or an edit of one.
    Stored(StoreTask),
    /// A connection over the input and the output.
    Talk(Talking),
    /// A sample of so many entries, at most 100,000.
    Sample(u64),
    /// Help.
    Help(Subject),
    /// The program's version.
    Version,
}
