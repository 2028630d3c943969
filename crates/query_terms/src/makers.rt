//! Makers of patterns: one that builds every pattern, and one that refuses those of a list.
ghost use Rattle.std.specs.Prelude.{◌≡◌, ◌+◌, ◌-◌, ◌^◌, min, true, None, Some, IfOk, IsErr};
ghost use Rattle.std.specs.List.{list_any};
ghost use Rattle.std.specs.Str.{bytes_eq};
ghost use Rattle.query_terms.specs.Making as spec;
ghost use Rattle.query_terms.specs.Making.{IsMadeOf, IsRefusal, TellsRefusal, RefusesFor, CountsFor, IsRefusedByRegex, IsRefusable, is_listed, counted};

use crate::faults::MakeFault;
use crate::making::Maker;
use hl_base::{List, Memory, Text};
use regex::{Error, Regex, RegexBuilder};
use std::alloc::Global;

/// What a maker answers to an error of `regex`.
fn fault_of(error: Error) -> MakeFault
    ensures { result ≡ spec.fault_of error }
{
    match error {
        Error::OutOfMemory => MakeFault::Memory,
        _ => MakeFault::Refused,
    }
}

/// The regex of a source, with case ignored.
#[tactic(auto, using(crate::proofs::Refusals::refused_why))]
fn build(alloc: Global, source: &str) -> Result<Regex, MakeFault>
    ensures made { IfOk result (IsMadeOf source.now) }
    ensures refuses { RefusesFor (IsRefusedByRegex source.now) result }
{
    let builder = RegexBuilder::new(source).case_insensitive(true);
    match builder.build(alloc) {
        Ok(regex) => Ok(regex),
        Err(error) => Err(fault_of(error)),
    }
}

/// Builds every pattern that `regex` builds. It refuses, and counts, those that `regex` refuses for another cause than memory.
#[derive(Drop)]
pub struct RegexMaker {
    refusals: u64,
    last: Option<Text>,
}

impl RegexMaker {
    /// A maker that has refused nothing.
    pub fn new() -> RegexMaker
        ensures refusals { ⟦<RegexMaker as Maker>⟧.refusals result ≡ 0 }
        ensures last { ⟦<RegexMaker as Maker>⟧.last_refused result ≡ None }
    {
        RegexMaker {
            refusals: 0,
            last: None,
        }
    }

    /// How many patterns it refused.
    pub fn refusals(&self) -> u64
        ensures { result ≡ ⟦<RegexMaker as Maker>⟧.refusals self.now }
    {
        self.refusals
    }

    /// Counts a refused pattern.
    fn refuse(&mut self, pattern: Text)
        ensures refusal { IsRefusal self.old.refusals self.new.refusals self.new.last pattern }
        ensures counted { self.new.refusals ≡ counted self.old.refusals }
    {
        self.refusals = self.refusals.saturating_add(1);
        self.last = Some(pattern);
    }
}

impl Maker for RegexMaker {
    ghost refusals = { λ m. m.refusals };

    ghost last_refused = { λ m. m.last };

    fn make(&mut self, alloc: Global, pattern: &Text) -> Result<Regex, MakeFault>
        ensures made { IfOk result (IsMadeOf pattern.now) }
        ensures tells { TellsRefusal self.old.refusals self.new.refusals self.old.last self.new.last
            pattern.now result }
        ensures refuses { RefusesFor (IsRefusedByRegex pattern.now) result }
        ensures counts { CountsFor self.old.refusals self.new.refusals result }
    {
        let copy = Text::copied(alloc, pattern.as_str())?;
        match build(alloc, pattern.as_str()) {
            Ok(regex) => Ok(regex),
            Err(MakeFault::Memory) => Err(MakeFault::Memory),
            Err(MakeFault::Refused) => {
                self.refuse(copy);
                Err(MakeFault::Refused)
            }
        }
    }
}

/// Refuses the patterns of a list, and builds any other as a `RegexMaker` does.
#[derive(Drop)]
pub struct ListMaker {
    refused: List<Text>,
    inner: RegexMaker,
}

impl ListMaker {
    /// A maker that refuses these patterns and has refused nothing.
    pub fn new(refused: List<Text>) -> ListMaker
        ensures refusals { ⟦<ListMaker as Maker>⟧.refusals result ≡ 0 }
        ensures last { ⟦<ListMaker as Maker>⟧.last_refused result ≡ None }
        ensures list { result.refused ≡ refused }
    {
        ListMaker {
            refused,
            inner: RegexMaker::new(),
        }
    }

    /// How many patterns it refused.
    pub fn refusals(&self) -> u64
        ensures { result ≡ ⟦<ListMaker as Maker>⟧.refusals self.now }
    {
        self.inner.refusals
    }
}

/// Whether a pattern is among some others.
fn is_listed(patterns: &[Text], pattern: &[u8]) -> bool
    ensures { result ≡ spec.is_listed patterns.now pattern.now }
{
    for other in patterns {
        if other.as_bytes() == pattern {
            return true;
        }
    }
    false
}

impl Maker for ListMaker {
    ghost refusals = { λ m. m.inner.refusals };

    ghost last_refused = { λ m. m.inner.last };

    fn make(&mut self, alloc: Global, pattern: &Text) -> Result<Regex, MakeFault>
        ensures made { IfOk result (IsMadeOf pattern.now) }
        ensures tells { TellsRefusal self.old.inner.refusals self.new.inner.refusals
            self.old.inner.last self.new.inner.last pattern.now result }
        ensures refuses { RefusesFor (IsRefusable self.old.refused pattern.now) result }
        ensures counts { CountsFor self.old.inner.refusals self.new.inner.refusals result }
        ensures listed { spec.is_listed self.old.refused pattern.now ≡ true → IsErr result }
        ensures kept { self.new.refused ≡ self.old.refused }
    {
        if is_listed(self.refused.as_slice(), pattern.as_bytes()) {
            let copy = Text::copied(alloc, pattern.as_str())?;
            self.inner.refuse(copy);
            return Err(MakeFault::Refused);
        }
        self.inner.make(alloc, pattern)
    }
}
