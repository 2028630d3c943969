//! What the words of the program ask for.
#![tactic(auto)]

mod chore_tasks;
mod chores;
mod explain_words;
mod help_words;
mod items;
mod limit;
mod said;
mod store_words;
mod talk_words;
mod task;
mod usage;
mod words;

pub use chores::{Chore, allow_named};
pub use limit::number_of;
pub use task::{
    Explaining, Following, Importing, Making, Origin, Replacing, StoreTask, Subject, Talking, Task,
    TextTask,
};
pub use usage::UsageFault;
pub use words::{read_words, refuse_words};
