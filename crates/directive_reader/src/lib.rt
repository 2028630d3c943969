//! Reads the pieces of a journal that begin with a word or a mark: directives, prices and rules.
#![tactic(auto)]

mod account_type;
mod commodity;
mod declaration;
mod directive;
mod ending;
pub mod keyword;
mod price;
mod query_words;
mod rule;

pub use directive::read_head_item;
