//! Runs of the program over memory: what only a public call can show. Rows of commands stand in tests/commands.
#![tactic(auto)]

#[cfg(test)]
mod case;
#[cfg(test)]
mod commands;
#[cfg(test)]
mod cuts;
#[cfg(test)]
mod laws;
#[cfg(test)]
mod messages;
#[cfg(test)]
mod runs;
#[cfg(test)]
mod stores;
#[cfg(test)]
mod talks;
