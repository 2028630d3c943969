//! The regexes of patterns, built line by line.
ghost use Rattle.std.specs.Prelude.{OnOk};
ghost use Rattle.csv_rules.specs.Building as spec;
ghost use Rattle.csv_rules.specs.Building.{Grows, TellsOf};

use crate::forms::Form;
use crate::kinds::Condition;
use query_terms::{MakeFault, Maker, build_pattern};
use regex::Regex;
use std::alloc::Global;

/// Builds the regex of the pattern that a block begins with, if it has one.
#[tactic(auto, using(query_terms::proofs::Built::built_none))]
fn build_first<M: Maker>(
    alloc: Global,
    condition: &Option<Condition>,
    regexes: &mut Vec<Regex>,
    maker: &mut M,
) -> Result<(), MakeFault>
    ensures grows { OnOk result (Grows (spec.first_sources condition.now) regexes.old.items
        regexes.new.items) }
    ensures tells { TellsOf (spec.first_sources condition.now) (M.refusals maker.old)
        (M.refusals maker.new) (M.last_refused maker.old) (M.last_refused maker.new) result }
{
    match condition {
        Some(condition) => build_pattern(alloc, &condition.pattern, regexes, maker),
        None => Ok(()),
    }
}

/// Builds the regex of the pattern of a line, where it has one that needs one.
#[tactic(auto, using(query_terms::proofs::Built::built_none))]
pub(crate) fn build_form<M: Maker>(
    alloc: Global,
    form: &Form,
    regexes: &mut Vec<Regex>,
    maker: &mut M,
) -> Result<(), MakeFault>
    ensures grows { OnOk result (Grows (spec.form_sources form.now) regexes.old.items
        regexes.new.items) }
    ensures tells { TellsOf (spec.form_sources form.now) (M.refusals maker.old)
        (M.refusals maker.new) (M.last_refused maker.old) (M.last_refused maker.new) result }
{
    match form {
        Form::If(condition) => build_first(alloc, condition, regexes, maker),
        Form::Ask(condition) => build_pattern(alloc, &condition.pattern, regexes, maker),
        _ => Ok(()),
    }
}
