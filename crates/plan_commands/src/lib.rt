//! What the report commands answer with entries that a text's rules make, and with budgets: one definition and one function
//! for the program and for the machine of a journal that is kept open.
#![tactic(auto)]

mod asked;
mod books;
mod bounds;
mod budget;
mod columns;
pub mod fault;
mod goals;
mod law;
pub mod plan;
mod reporting;

pub use asked::{read_program_report, read_report};
pub use fault::PlanFault;
pub use law::{any_year, plain_reports, request_refused, request_runs};
pub use reporting::{asks_rules, report, report_of};
