//! One HTTP connection over anybody who answers requests: what each message of its stream asks, and the exact bytes of
//! each reply.
#![tactic(auto)]

mod alone;
pub mod answer;
pub mod ask;
pub mod calls;
pub mod conn_end;
mod edits;
pub mod lines;
pub mod own_reply;
mod reading;
pub mod serve;

pub use alone::Alone;
pub use ask::{Ask, Spent};
pub use conn_end::{ConnEnd, Way};
pub use reading::one_course;
pub use serve::serve_link;
