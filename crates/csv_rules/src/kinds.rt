//! What a file of rules says.
use hl_base::{List, Text};
use query_terms::Pattern;

/// A field of an entry that rules assign. `amount1` is `Amount`.
#[derive(Clone, Copy, Debug, PartialEq, Eq)]
pub enum EntryField {
    Date,
    Status,
    Code,
    Description,
    Comment,
    Account1,
    Account2,
    Amount,
    AmountIn,
    AmountOut,
    Amount2,
    Currency,
}

/// What a field is given.
#[derive(Drop)]
pub enum Value {
    /// A column, counted from 1.
    Column(u64),
    /// A text in which `%N` and `%NAME` stand for columns.
    Written(Text),
}

/// A field and what it is given.
#[derive(Drop)]
pub struct Assignment {
    pub field: EntryField,
    pub value: Value,
}

/// A line with a pattern: whether it is to hold together with the one before it, whether the pattern is not to be found,
/// the name or number of the column that is looked at alone, and the pattern.
#[derive(Drop)]
pub struct Condition {
    pub joined: bool,
    pub negated: bool,
    pub column: Option<Text>,
    pub pattern: Pattern,
}

/// What a block does with a record.
#[derive(Drop)]
pub enum Action {
    Assign(Assignment),
    /// Leaves the record out.
    Skip,
    /// Leaves the record and all later ones out.
    End,
}

/// The lines with patterns after an `if`, and the indented lines after those.
#[derive(Drop)]
pub struct Block {
    pub conditions: List<Condition>,
    pub actions: List<Action>,
}

/// A part of a written date.
#[derive(Clone, Copy, Debug, PartialEq, Eq)]
pub enum DatePart {
    /// Four digits.
    Year,
    /// Two digits, of which 69 to 99 are years after 1900 and the others years after 2000.
    ShortYear,
    /// One or two digits.
    Month,
    /// The first three letters of an English month.
    MonthName,
    /// One or two digits.
    Day,
    /// This byte.
    Byte(u8),
}

/// What rules say of a file as a whole: how many of its first lines are cut off, of those that aren't blank; the byte between
/// columns; the decimal mark of its numbers; whether its records stand newest first, and whether those of one day do.
#[derive(Clone, Copy, Debug, PartialEq, Eq)]
pub struct Settings {
    pub skipped: u64,
    pub separator: u8,
    pub mark: Option<u8>,
    pub newest_first: bool,
    pub reversed_days: bool,
}

/// What a file of rules says: its settings, the names of the columns, how dates are written, the assignments outside blocks
/// and the blocks, each in the order of the file.
#[derive(Drop)]
pub struct Sheet {
    pub settings: Settings,
    pub names: List<Text>,
    pub format: Option<List<DatePart>>,
    pub assignments: List<Assignment>,
    pub blocks: List<Block>,
}
