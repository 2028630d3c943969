//! Rows of stores among the files of a shelf: edits at which calls fail or are stopped. Lines are in tests/commands/stores.rows.
#![tactic(auto)]

#[cfg(test)]
mod calls;
#[cfg(test)]
mod rows;
