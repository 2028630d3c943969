//! Rows of texts, numbers, days and periods, of the objects that stand in memory for the outside, and of a sample.
#![tactic(auto)]

#[cfg(test)]
mod calendar;
#[cfg(test)]
mod memory;
#[cfg(test)]
mod numbers;
#[cfg(test)]
mod samples;
#[cfg(test)]
mod texts;
