//! Words read as terms, one after the other, and the regexes of their patterns.
ghost use Rattle.std.specs.Prelude.{◌≡◌, ◌++◌, ◌∷◌, [], IfOk, IfErr, OnOk, Ok};
ghost use Rattle.hl_time.specs.Calendar.{IsDay};
ghost use Rattle.query.specs.Building.{Grows, AreBuilt, AreDated, TellsOf, TellsWord, TellsWords, IsBad};
ghost use Rattle.query_terms.specs.Reading as reading;

use crate::faults::QueryFault;
use hl_base::{Memory, Text};
use hl_time::Day;
use query_terms::{Kind, MakeFault, Maker, Pattern, Term, build_pattern, read_term};
use regex::Regex;
use std::alloc::Global;

fn push_term(terms: &mut Vec<Term>, term: Term) -> Result<(), Memory>
    ensures { OnOk result (terms.new.items ≡ terms.old.items ++ term ∷ []) }
{
    terms.push(term)?;
    Ok(())
}

/// The terms of some words, or the first word that is no term.
#[tactic(auto, using(crate::proofs::Built::dated_more, crate::proofs::Built::dated_none))]
pub(crate) fn read_terms(alloc: Global, words: &[Text], day: Day) -> Result<Vec<Term>, QueryFault>
    requires { IsDay day.0 }
    ensures read { IfOk result (λ terms. reading.terms_of day.0 words.now ≡ Ok terms.items) }
    ensures days { IfOk result (λ terms. AreDated terms.items) }
    ensures bad { IfErr result (IsBad (reading.terms_of day.0 words.now)) }
{
    let mut terms = Vec::new(alloc);
    for word in words {
        match read_term(alloc, word, day)? {
            Some(term) => push_term(&mut terms, term)?,
            None => {
                let word = Text::copied(alloc, word.as_str())?;
                return Err(QueryFault::BadTerm { word });
            }
        }
    }
    Ok(terms)
}

/// Builds the regex of a tag's value, where it needs one.
#[tactic(auto, using(query_terms::proofs::Built::built_none))]
fn build_value<M: Maker>(
    alloc: Global,
    value: &Option<Pattern>,
    regexes: &mut Vec<Regex>,
    maker: &mut M,
) -> Result<(), MakeFault>
    ensures grows { OnOk result (Grows (reading.sources_in value.now) regexes.old.items
        regexes.new.items) }
    ensures tells { TellsOf (reading.sources_in value.now) (M.refusals maker.old)
        (M.refusals maker.new) (M.last_refused maker.old) (M.last_refused maker.new) result }
{
    match value {
        Some(pattern) => build_pattern(alloc, pattern, regexes, maker),
        None => Ok(()),
    }
}

/// Builds the regexes of a tag's name and value.
fn build_tag<M: Maker>(
    alloc: Global,
    name: &Pattern,
    value: &Option<Pattern>,
    regexes: &mut Vec<Regex>,
    maker: &mut M,
) -> Result<(), MakeFault>
    ensures grows { OnOk result (Grows (reading.source_of name.now
        ++ reading.sources_in value.now) regexes.old.items regexes.new.items) }
    ensures tells { TellsOf (reading.source_of name.now
        ++ reading.sources_in value.now) (M.refusals maker.old) (M.refusals maker.new)
        (M.last_refused maker.old) (M.last_refused maker.new) result }
{
    match build_pattern(alloc, name, regexes, maker) {
        Ok(()) => build_value(alloc, value, regexes, maker),
        Err(fault) => Err(fault),
    }
}

/// Builds the regexes of a term.
#[tactic(auto, using(query_terms::proofs::Built::built_none))]
fn build_kind<M: Maker>(
    alloc: Global,
    kind: &Kind,
    regexes: &mut Vec<Regex>,
    maker: &mut M,
) -> Result<(), MakeFault>
    ensures grows { OnOk result (Grows (reading.kind_sources kind.now) regexes.old.items
        regexes.new.items) }
    ensures tells { TellsOf (reading.kind_sources kind.now) (M.refusals maker.old)
        (M.refusals maker.new) (M.last_refused maker.old) (M.last_refused maker.new) result }
{
    match kind {
        Kind::Said(_, pattern) => build_pattern(alloc, pattern, regexes, maker),
        Kind::Account(pattern) => build_pattern(alloc, pattern, regexes, maker),
        Kind::Symbol(pattern) => build_pattern(alloc, pattern, regexes, maker),
        Kind::Tag(name, value) => build_tag(alloc, name, value, regexes, maker),
        _ => Ok(()),
    }
}

/// Builds the regexes of a word's term.
fn build_word<M: Maker>(
    alloc: Global,
    word: &Text,
    kind: &Kind,
    regexes: &mut Vec<Regex>,
    maker: &mut M,
) -> Result<(), QueryFault>
    ensures grows { OnOk result (Grows (reading.kind_sources kind.now) regexes.old.items
        regexes.new.items) }
    ensures tells { TellsWord word.now (reading.kind_sources kind.now) (M.refusals maker.old)
        (M.refusals maker.new) (M.last_refused maker.old) (M.last_refused maker.new) result }
{
    // The word is copied first, so that a refusal that was counted is always told.
    let word = match Text::copied(alloc, word.as_str()) {
        Ok(word) => word,
        Err(_) => return Err(QueryFault::Memory),
    };
    match build_kind(alloc, kind, regexes, maker) {
        Ok(()) => Ok(()),
        Err(MakeFault::Memory) => Err(QueryFault::Memory),
        Err(MakeFault::Refused) => Err(QueryFault::PatternRefused { word }),
    }
}

/// Builds the regexes of the terms that some words are, word by word, up to the first that is refused.
pub(crate) fn build_all<M: Maker>(
    alloc: Global,
    words: &[Text],
    terms: &[Term],
    day: Day,
    maker: &mut M,
) -> Result<Vec<Regex>, QueryFault>
    requires { reading.terms_of day.0 words.now ≡ Ok terms.now }
    ensures built { IfOk result (λ regexes. AreBuilt (reading.sources_of terms.now) regexes.items) }
    ensures tells { TellsWords day.0 words.now (M.refusals maker.old) (M.refusals maker.new)
        (M.last_refused maker.old) (M.last_refused maker.new) result }
{
    let mut regexes = Vec::new(alloc);
    for i in 0..terms.len() {
        match build_word(alloc, &words[i], &terms[i].kind, &mut regexes, maker) {
            Ok(()) => {}
            Err(fault) => return Err(fault),
        }
    }
    Ok(regexes)
}
