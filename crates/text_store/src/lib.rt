//! A text kept in two files so that an acknowledged change is there after any crash.
#![tactic(auto)]

mod change;
mod disk_whole;
mod durable;
mod fault;
mod feeding;
mod finding;
mod folding;
mod gate;
mod half;
mod image;
mod marks;
mod naming;
mod parsing;
mod pieces;
mod records;
mod store;
mod whole;

pub use change::Change;
pub use fault::StoreFault;
pub use image::Image;
pub use store::Store;
pub use whole::size_of_parts;
