//! The plain sum of an account in a symbol before any day of a book, from an index of the book's rows.
#![tactic(auto)]

mod book_sums;
mod over_book;

pub use book_sums::BookSums;
