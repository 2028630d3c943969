//! The walk of an edit: the transactions of a solved book that an edit of one reaches, each solved anew at its place, in
//! place of a load of the whole text. Where the walk can't tell them, the whole has to be loaded.
#![tactic(auto)]

mod edit_walk;
pub mod edited;
pub mod fault;
mod holding;
pub mod kept;
pub mod replaced;
mod solving;
mod swapping;
mod symbols;
#[cfg(test)]
mod tests;
pub mod walking;

pub use edit_walk::walk;
pub use edited::Edited;
pub use fault::WalkFault;
pub use holding::vacant;
pub use kept::Kept;
pub use replaced::Replaced;
pub use symbols::are_known;
pub use walking::Walked;
