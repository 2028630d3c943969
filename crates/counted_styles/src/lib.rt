//! The styles in which amounts are printed, of items that come and go.
#![tactic(auto)]

mod alike;
mod class;
mod declaring;
mod mark;
mod said;
mod styles;
mod symbols;
mod text;

pub use styles::CountedStyles;
pub use text::TextStyles;
