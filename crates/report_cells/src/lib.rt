//! The sums of a report by account and column, exact.
#![tactic(auto)]

mod account_key;
pub mod cells;
mod compare;
pub mod fault;
mod gather;
pub mod gatherer;
mod place;
pub mod reach;
mod row;
mod running;
mod symbol_key;
pub mod taking;
mod totals;
mod turnover;

pub use cells::{CellRow, Cells, make_cells};
pub use fault::ReportFault;
pub use gatherer::Gatherer;
pub use reach::Reach;
pub use row::add_share;
pub use taking::{Share, Taking};
pub use totals::totals_of;
pub use turnover::check_range;
