//! Closing entries that are added to the journal of which they are made: that the whole loads. And each of them alone: that the
//! closing entry empties the closed accounts, and the opening entry carries their balances over.
#![tactic(auto)]

mod laws;

pub use laws::{closing_empties, closing_joins, closing_loads, opening_carries, opening_loads};
