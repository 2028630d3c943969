//! What the commands over a text answer: the reports, the hours of a time log, strict checks, closing entries, what is
//! wrong with it, and its items. A text goes in, and what is to be written comes out, or the line that says why there is nothing.
#![tactic(auto)]

mod close;
mod entries;
mod explain;
mod fault_lines;
mod hours;
mod journal;
mod law;
mod listing;
mod planned;
mod report;
mod strict_checks;
mod today;
mod work;

pub use law::report_judged;
pub use today::Today;
pub use work::{CloseAsked, ClosingDay, Entries, LogForm, Work, answer_text};
