//! What a report is made of.
use book::Book;
use hl_time::Day;
use query::{Query, Types};
use report_options::Options;

/// What a report is made of before its sums: a book, what is asked of it, and the day that is handed in. The query
/// has the terms of the options that stand for some, as a depth.
#[derive(Clone, Copy)]
pub struct Scope<'a> {
    pub book: &'a Book,
    pub query: &'a Query,
    pub types: &'a Types,
    pub options: &'a Options,
    pub day: Day,
}
