//! Rows of what an edit of a journal is made by: what it reaches, the end of the text, the decimals of its amounts, and laws of them.
//! `edit_rows` shows all of it together: random edits, each compared with a load of the text that it makes.
#![tactic(auto)]

#[cfg(test)]
mod entries;
#[cfg(test)]
mod kept;
#[cfg(test)]
mod reached;
