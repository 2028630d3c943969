//! The reports that list a journal: the transactions that are printed, and the accounts.
#![tactic(auto)]

mod accounts;
mod law;
mod printing;

pub use accounts::accounts_report;
pub use law::nothing_asked;
pub use printing::print_report;
