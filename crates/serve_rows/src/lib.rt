//! Rows of `serve` over memory: what only a public call can show.
#![tactic(auto)]

#[cfg(test)]
mod case;
#[cfg(test)]
mod complete;
#[cfg(test)]
mod rows;
