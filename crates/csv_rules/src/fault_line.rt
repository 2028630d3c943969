//! The line that says why a text is no file of rules.
ghost use Rattle.std.specs.Prelude.{◌≡◌, IfOk};
ghost use Rattle.csv_rules.specs.FaultLine.{rules_line};

use crate::faults::RulesFault;
use error_lines::{bad_rule, memory, refused_rule_pattern};
use hl_base::{Bytes, Memory};
use std::alloc::Global;

/// The line that says why a text is no file of rules. Fails only for want of memory.
pub fn rules_line(alloc: Global, fault: &RulesFault) -> Result<Bytes, Memory>
    ensures { IfOk result (λ line. line ≡ rules_line fault.now) }
{
    match fault {
        RulesFault::BadRule { line } => bad_rule(alloc, *line),
        RulesFault::PatternRefused { line } => refused_rule_pattern(alloc, *line),
        RulesFault::Memory => memory(alloc),
    }
}
