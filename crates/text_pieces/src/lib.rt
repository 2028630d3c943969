//! The bytes of a text's items.
#![tactic(auto)]

mod pieces;

pub use pieces::Pieces;
