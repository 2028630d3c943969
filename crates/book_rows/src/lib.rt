//! Rows of public calls that the program doesn't make, or of which no output shows everything: an entry that balances, styles,
//! a text that is read in one run, a book that is printed, queries, patterns that makers refuse, and a file of a bank's rules.
#![tactic(auto)]

#[cfg(test)]
mod balances;
#[cfg(test)]
mod bank_rules;
#[cfg(test)]
mod books;
#[cfg(test)]
mod journals;
#[cfg(test)]
mod printing;
#[cfg(test)]
mod queries;
#[cfg(test)]
mod samples;
#[cfg(test)]
mod terms;
