//! Rules that make entries.
use crate::transaction::Posting;
use hl_base::{List, Text};
use hl_num::Dec;
use hl_time::Period;

/// A number by which a matched amount is multiplied, and the symbol that replaces its own, where one is given.
#[derive(Debug, Drop)]
pub struct Factor {
    pub by: Dec,
    pub symbol: Option<Text>,
}

/// A posting of an automated rule, with a factor where its amount is a multiple of the matched one.
#[derive(Debug, Drop)]
pub struct RulePosting {
    pub posting: Posting,
    pub factor: Option<Factor>,
}

/// A rule that adds postings after each posting that its words match.
#[derive(Debug, Drop)]
pub struct AutoRule {
    pub line: u64,
    pub words: List<Text>,
    pub postings: List<RulePosting>,
}

/// A rule that makes a transaction in each interval of a period.
#[derive(Debug, Drop)]
pub struct PeriodicRule {
    pub line: u64,
    pub period: Period,
    pub description: Text,
    pub postings: List<Posting>,
}
