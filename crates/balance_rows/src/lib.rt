//! Which rows a balance report shows and in which order, and their totals.
#![tactic(auto)]

mod account_key;
mod compared;
mod groups;
mod laid;
pub mod layout;
mod names;
mod rank;
mod rows;
mod sorted;
mod sums;
mod totals;
mod tree;

pub use laid::laid_rows;
pub use layout::{Basis, Layout, Order};
pub use names::name_of;
pub use rows::shown_rows;
pub use sorted::sorted_rows;
pub use totals::{total_of, totals_of};
pub use tree::tree_rows;
