//! An index of rows by account, symbol and day, whose sums up to a day come from few nodes.
#![tactic(auto)]

mod by_places;
mod cell;
mod cells;
pub mod index;
mod laws;
pub mod nodes;
mod puts;
pub mod row;
mod runs;
mod series;
#[cfg(test)]
mod tests;
mod tree;

pub use index::{Index, Prepared};
pub use laws::standing_laws;
pub use nodes::{Nodes, upto};
pub use row::Row;
