//! Terms of a query, and their patterns.
use book::Mark;
use hl_base::Text;
use hl_num::Dec;
use hl_time::Period;

/// What a term seeks in a text.
#[derive(Drop)]
pub enum Pattern {
    /// A word without special characters, sought as it stands by simple folding.
    Word(Text),
    /// The source of a regex, sought with case ignored.
    Special(Text),
}

/// What a transaction says that a term may look at.
#[derive(Clone, Copy)]
pub enum Field {
    Description,
    Payee,
    Note,
    Code,
}

/// How an amount compares to the number of a term.
#[derive(Clone, Copy)]
pub enum Order {
    Equal,
    Below,
    AtMost,
    Above,
    AtLeast,
}

/// The number of an `amt:` term and how amounts compare to it: with their sign, or by their absolute value.
#[derive(Clone, Copy)]
pub struct AmountTest {
    pub order: Order,
    pub signed: bool,
    pub number: Dec,
}

/// What a term asks of a posting.
#[derive(Drop)]
pub enum Kind {
    /// What its transaction says matches.
    Said(Field, Pattern),
    /// Its account matches.
    Account(Pattern),
    /// The whole symbol of its amount is the word, or matches.
    Symbol(Pattern),
    /// Its amount compares so.
    Amount(AmountTest),
    /// Its day lies in the period, which has no interval.
    Date(Period),
    /// Nothing; it is a depth of display.
    Depth(u64),
    /// It is real, or isn't.
    Real(bool),
    /// It has this mark.
    Status(Mark),
    /// It has a tag whose name matches, and whose value matches where a second pattern stands.
    Tag(Pattern, Option<Pattern>),
    /// The letter of its account is one of these, in either case.
    Type(Text),
}

/// A term under some `not:`, or under none.
#[derive(Drop)]
pub struct Term {
    pub nots: usize,
    pub kind: Kind,
}
