//! What patterns find in texts.
ghost use Rattle.std.specs.Prelude.{◌≡◌, ◌<◌, Some, None, IfOk, IsOk, IfSome, IfNone, [], length};
ghost use Rattle.std.specs.Str.{bytes_eq};
ghost use Rattle.query_terms.specs.Finders.{one_known, all_known, known_in, IsFirstOf};
ghost use Rattle.query_terms.specs.Patterns as spec;
ghost use Rattle.query_terms.specs.Sought.{source_and_re, known_of};

use crate::folding::{is_word, occurs_in};
use crate::kinds::Pattern;
use hl_base::Memory;
use regex::{Matcher, Regex};
use std::alloc::Global;

/// A matcher with the source of its regex.
#[derive(Drop)]
pub struct Sought<'q> {
    source: &'q str,
    matcher: Matcher<'q>,
}

impl<'q> Sought<'q> {
    fn new(alloc: Global, regex: &'q Regex) -> Result<Sought<'q>, Memory>
        ensures { IfOk result (λ s. one_known s ≡ source_and_re regex.now) }
    {
        let matcher = regex.matcher(alloc)?;
        Ok(Sought {
            source: regex.as_str(),
            matcher,
        })
    }

    /// Whether it is the one of a source.
    fn is_of(&self, source: &str) -> bool
        ensures { result ≡ bytes_eq (one_known self.now).0 source.now }
    {
        self.source == source
    }

    fn is_found(&mut self, text: &str) -> bool
        ensures found { result ≡ spec.is_found (Some (one_known self.old).1) text.now }
        ensures same { one_known self.new ≡ one_known self.old }
    {
        self.matcher.is_match(text)
    }
}

/// Finds patterns in texts. It keeps a matcher for each regex.
#[derive(Drop)]
pub struct Finder<'q> {
    sought: Vec<Sought<'q>>,
}

/// The place of the first one of a source.
#[tactic(auto, using(crate::proofs::Sources::source_more, crate::proofs::Sources::source_first, crate::proofs::Sources::source_none))]
fn place_of(sought: &[Sought], source: &str) -> Option<usize>
    ensures some { IfSome result (λ i. (i < length sought.now)
        × IsFirstOf source.now sought.now i) }
    ensures none { IfNone result (spec.re_of (all_known sought.now) source.now ≡ None) }
{
    for i in 0..sought.len() {
        if sought[i].is_of(source) {
            return Some(i);
        }
    }
    None
}

/// Whether the regex of a source is found in a text.
fn source_found(sought: &mut [Sought], source: &str, text: &str) -> bool
    ensures found { result ≡ spec.is_found (spec.re_of (all_known sought.old) source.now) text.now }
    ensures same { all_known sought.new ≡ all_known sought.old }
{
    match place_of(sought, source) {
        Some(i) => sought[i].is_found(text),
        None => false,
    }
}

impl<'q> Finder<'q> {
    /// The finder of some regexes. It takes no memory where there is none.
    pub fn new(alloc: Global, regexes: &'q [Regex]) -> Result<Finder<'q>, Memory>
        ensures known { IfOk result (λ f. known_in f ≡ known_of regexes.now) }
        ensures free { regexes.now ≡ [] → IsOk result }
    {
        let mut sought = Vec::new(alloc);
        for regex in regexes {
            sought.push(Sought::new(alloc, regex)?)?;
        }
        Ok(Finder { sought })
    }

    /// Whether a pattern is found somewhere in a text.
    pub fn finds(&mut self, pattern: &Pattern, text: &str) -> bool
        ensures found { result ≡ spec.finds (known_in self.old) pattern.now text.now }
        ensures same { known_in self.new ≡ known_in self.old }
    {
        match pattern {
            Pattern::Word(word) => occurs_in(text, word.as_str()),
            Pattern::Special(source) => source_found(&mut self.sought, source.as_str(), text),
        }
    }

    /// Whether a pattern is the whole of a text.
    pub fn is_whole(&mut self, pattern: &Pattern, text: &str) -> bool
        ensures found { result ≡ spec.is_whole (known_in self.old) pattern.now text.now }
        ensures same { known_in self.new ≡ known_in self.old }
    {
        match pattern {
            Pattern::Word(word) => is_word(text, word.as_str()),
            Pattern::Special(source) => source_found(&mut self.sought, source.as_str(), text),
        }
    }
}
