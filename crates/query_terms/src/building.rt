//! The regexes of patterns, built one behind the other.
ghost use Rattle.std.specs.Prelude.{◌≡◌, ◌++◌, ◌∷◌, [], IfErr, OnOk};
ghost use Rattle.query_terms.specs.Building.{Grows, TellsOf};
ghost use Rattle.query_terms.specs.Reading.{source_of};

use crate::faults::MakeFault;
use crate::kinds::Pattern;
use crate::making::Maker;
use regex::Regex;
use std::alloc::Global;

fn push_regex(regexes: &mut Vec<Regex>, regex: Regex) -> Result<(), MakeFault>
    ensures pushed { OnOk result (regexes.new.items ≡ regexes.old.items ++ regex ∷ []) }
    ensures fault { IfErr result (λ e. e ≡ MakeFault.Memory) }
{
    match regexes.push(regex) {
        Ok(()) => Ok(()),
        Err(_) => Err(MakeFault::Memory),
    }
}

/// Builds the regex of a pattern, where it needs one.
#[tactic(auto, using(crate::proofs::Built::built_none, crate::proofs::Built::refused_one))]
pub fn build_pattern<M: Maker>(
    alloc: Global,
    pattern: &Pattern,
    regexes: &mut Vec<Regex>,
    maker: &mut M,
) -> Result<(), MakeFault>
    ensures grows { OnOk result (Grows (source_of pattern.now) regexes.old.items
        regexes.new.items) }
    ensures tells { TellsOf (source_of pattern.now) (M.refusals maker.old)
        (M.refusals maker.new) (M.last_refused maker.old) (M.last_refused maker.new) result }
{
    match pattern {
        Pattern::Word(_) => Ok(()),
        Pattern::Special(source) => match maker.make(alloc, source) {
            Ok(regex) => push_regex(regexes, regex),
            Err(fault) => Err(fault),
        },
    }
}
