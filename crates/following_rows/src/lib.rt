//! Rows of a store that is fed and followed among the files of a shelf, of stops while frames are taken, and of what is said.
#![tactic(auto)]

#[cfg(test)]
mod lines;
#[cfg(test)]
mod shelves;
#[cfg(test)]
mod stops;
