//! Sums of a book just before one of its transactions, wherever that stands, from an index of the
//! book's rows and from the transactions of its day; and what changes where a transaction gets
//! another form. Nothing stands on this crate yet.
#![tactic(auto)]

mod accounts;
pub mod by_number;
pub mod days;
mod laws;
pub mod on_day;
pub mod placed;
mod replaced;
mod rows;
mod today;

pub use by_number::ByNumber;
pub use days::Days;
pub use laws::{bound_laws, day_laws, replacing_laws, symbol_laws};
pub use on_day::OnDay;
pub use placed::SumsAt;
pub use replaced::{prepare_replaced, replace};
pub use rows::{index_of, rows_of};
pub use today::amount_sum;
