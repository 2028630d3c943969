//! What may be wrong with a text, and in which line.
use crate::amount::Amount;
use crate::boxed::Boxed;
use hl_base::Text;
use hl_num::Dec;

/// What is wrong.
#[derive(Debug, Drop)]
pub enum Cause {
    /// Text that is of none of the forms.
    Form,
    /// A day that is none, or that doesn't exist.
    Date,
    /// A number that is none, or that is too large.
    Number,
    /// A name of an account with an empty part or too many parts.
    Account,
    /// A second mark of a status after the first.
    StatusMark,
    /// A directive that is none.
    Directive,
    /// A symbol that doesn't stand in quotes as it must.
    Quote,
    /// A piece that is too long.
    TooLong,
    /// Bytes that aren't UTF-8.
    Encoding,
    /// More than one missing amount among the real postings, or among the balanced virtual ones.
    TwoMissing,
    /// An assigned amount in a transaction whose postings have days of their own.
    NotAllowed,
    /// A transaction whose amounts don't sum to zero, with the sum.
    Unbalanced {
        symbol: Text,
        sum: Boxed<Dec>,
    },
    /// An assertion that doesn't hold, with the amount that it wants and the one that is there.
    AssertionFailed {
        wanted: Boxed<Amount>,
        found: Boxed<Amount>,
    },
    /// Amounts that are too large to sum or to multiply.
    Range,
}

/// What is wrong with a text, and the line, counted from 1.
#[derive(Debug, Drop)]
pub struct Fault {
    pub line: u64,
    pub cause: Cause,
}
