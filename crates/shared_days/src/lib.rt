//! The transactions of a book by the days of their postings, which copies share.
#![tactic(auto)]

mod changing;
mod day_places;
mod days;
mod listing;

pub use days::SharedDays;
