//! Each field of the context before an item is a filter of the directives before it: the last of its kind, or all of its
//! kind, that no later one ended. The reader keeps the context directive by directive.
#![tactic(auto)]

mod contexts;
mod readings;

pub use contexts::contexts_are_filters;
pub use readings::items_are_read_in_filters;
