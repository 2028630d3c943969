//! The words of a report command, read as options and as words of a query.
#![tactic(auto)]

mod command;
mod conflicts;
mod fault;
mod file_words;
mod items;
mod names;
mod options;
mod program;
mod reading;
mod terms;
mod texts;
mod values;

pub use command::{Command, command_named};
pub use fault::OptionFault;
pub use file_words::{refused_words_of_a_file, words_of_a_file};
pub use items::{after_equals, before_equals, has_value, is_end, is_long, is_option, left_of};
pub use names::is_balance;
pub use options::{Options, Start, Valuation, When};
pub use program::{Given, read_program_options};
pub use reading::read_options;
pub use terms::option_terms;
