//! What is asked over the items of a text, whatever the book.
use book::{Items, Styles};
use hl_time::Day;
use prices::Prices;
use query::{Query, Types};
use report_commands::Asked;

/// What is asked over the items of a text, whatever the book: the query of its words, what the items say of accounts, styles
/// and prices, and the day that is handed in.
#[derive(Clone, Copy)]
pub struct Plan<'a> {
    pub asked: &'a Asked,
    pub items: &'a Items,
    pub query: &'a Query,
    pub types: &'a Types,
    pub styles: &'a Styles,
    pub prices: &'a Prices,
    pub day: Day,
}
