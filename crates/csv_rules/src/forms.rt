//! What one line of a file of rules says.
use crate::kinds::{Action, Assignment, Condition, DatePart, EntryField};
use hl_base::{List, Text};

/// Where a line stands.
#[derive(Clone, Copy, Debug, PartialEq, Eq)]
pub enum Stage {
    /// Outside blocks.
    Outside,
    /// Behind an `if` that no pattern follows yet.
    Opened,
    /// Behind the patterns of a block.
    Asking,
    /// Behind the assignments of a block.
    Acting,
}

/// A line that says something of the file as a whole.
#[derive(Clone, Copy)]
pub enum Setting {
    Skip(u64),
    Separator(u8),
    DecimalMark(u8),
    NewestFirst,
    IntradayReversed,
}

/// What a line says.
#[derive(Drop)]
pub enum Form {
    /// Nothing.
    Remark,
    Set(Setting),
    /// The names of the columns.
    Fields(List<Text>),
    DateFormat(List<DatePart>),
    Assign(Assignment),
    /// The beginning of a block, perhaps with its first pattern.
    If(Option<Condition>),
    /// A pattern on a line of its own.
    Ask(Condition),
    /// An indented line of a block.
    Act(Action),
}

/// The word that a line outside blocks begins with.
#[derive(Clone, Copy)]
pub(crate) enum Word {
    Skip,
    Separator,
    Fields,
    DateFormat,
    NewestFirst,
    IntradayReversed,
    DecimalMark,
    If,
    Field(EntryField),
    /// None of these.
    Other,
}
