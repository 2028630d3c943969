//! What a walk of an edit makes of all that is made of a text, without a load of the whole: the forms of the transactions that
//! the edit reaches, and what is kept of the new text's items and of its book. The time is that of the forms and of what is put
//! in, besides the transactions by their numbers, which are lent to the walk.
#![tactic(auto)]

mod exchanging;
pub mod making;
pub mod opened;
mod putting;
mod vacating;
mod walking;

pub use making::{Parts, parts_at, parts_behind, put_all};
pub use opened::{ItemAt, Open};
