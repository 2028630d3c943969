//! Prices and directives of a journal.
use crate::amount::Amount;
use hl_base::Text;
use hl_time::Day;

/// On a day one unit of a symbol is worth an amount.
#[derive(Debug, Drop)]
pub struct Price {
    pub day: Day,
    pub symbol: Text,
    pub amount: Amount,
}

/// What a directive says.
#[derive(Debug, Drop)]
pub enum Directive {
    /// How a symbol's amounts are written, where an amount is given.
    Commodity(Text, Option<Amount>),
    /// The symbol and form of amounts without a symbol.
    Default(Amount),
    /// An account, with the letter of its type, where one is given.
    Account(Text, Option<u8>),
    /// The year of dates without one.
    Year(u16),
    /// A name that goes before the accounts that follow.
    Apply(Text),
    /// The end of the last such name.
    EndApply,
    /// An old name of an account and the new one.
    Alias(Text, Text),
    /// The end of all aliases.
    EndAliases,
    Payee(Text),
    TagName(Text),
    /// The decimal mark of the numbers that follow.
    DecimalMark(u8),
}
