//! Rows of journals that are kept open: random edits, of which each that is taken leaves what its text opens as, and each is refused
//! where its text doesn't open, by the same fault.
#![tactic(auto)]

#[cfg(test)]
mod alike;
#[cfg(test)]
mod dice;
#[cfg(test)]
mod random;
#[cfg(test)]
mod texts;
#[cfg(test)]
mod trying;
