//! The lines that say why a command gives no output: one definition and one function for each cause.
//! They are made of numbers and texts alone, so that any crate may call them.
#![tactic(auto)]

mod lines;
mod writing;

pub use lines::{
    absent, bad_base, bad_record, bad_rule, bad_term, conflict, disk_fault, door_fault, exists,
    forbidden, frame, frame_kind, full, in_log, memory, newer, no_item, not_a_store,
    not_transactions, out_of_range, past_limit, read_fault, refused_pattern, refused_rule_pattern,
    stale, usage,
};
pub use writing::{line, with_number, with_text};
