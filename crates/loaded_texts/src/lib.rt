//! What is made of the text of a journal, and what an edit makes of it: at the cost of what the edit touches, and put in without
//! taking memory.
#![tactic(auto)]

mod adding;
mod changing;
mod lengthening;
mod loaded;
mod made;
mod room;

pub use adding::{Addition, Behind, plain_addition, walked_addition};
pub use changing::{Changed, Inside, walked_change};
pub use loaded::{Loaded, keep_sums};
pub use made::{Made, put_made};
