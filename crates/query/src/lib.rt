//! Queries: the words that say which postings and transactions are meant.
#![tactic(auto)]

mod account_types;
mod building;
mod faults;
mod law;
mod matching;
mod queries;

pub use account_types::Types;
pub use faults::QueryFault;
pub use law::means_its_terms;
pub use matching::payee_of;
pub use queries::{Query, Search, earlier, later, make_query};
pub use query_terms::{ListMaker, MakeFault, Maker, RegexMaker};
