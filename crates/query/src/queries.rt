//! Queries, and what they mean.
ghost use Rattle.std.specs.Prelude.{◌≡◌};
ghost use Rattle.hl_time.specs.Calendar.{IsDay};
ghost use Rattle.query.specs.Matching as matching;
ghost use Rattle.query.specs.Made.{Makes};

use crate::account_types::Types;
use crate::building::{build_all, read_terms};
use crate::faults::QueryFault;
use crate::matching::{Asked, matches};
use book::{Posting, Txn};
use hl_base::{Memory, Text};
use hl_time::{Day, Period};
use query_terms::{Finder, Kind, Maker, Term};
use regex::Regex;
use std::alloc::Global;

/// Which postings and transactions are meant: some terms, and the regexes of their patterns.
#[derive(Drop)]
pub struct Query {
    pub(crate) terms: Vec<Term>,
    pub(crate) regexes: Vec<Regex>,
}

/// A query that is asked about many postings or transactions. It keeps a matcher for each regex.
#[derive(Drop)]
pub struct Search<'q> {
    pub(crate) terms: &'q [Term],
    pub(crate) finder: Finder<'q>,
}

/// The query of some words on a day. It needs a day from 0001-01-01 to 9999-12-31. The first word that is no term is told.
/// Where every word is one, their patterns are built word by word, and the first word with a pattern that the maker refused
/// is told, only where the maker counted the refusal. A pattern without special characters needs no maker.
pub fn make_query<M: Maker>(
    alloc: Global,
    words: &[Text],
    day: Day,
    maker: &mut M,
) -> Result<Query, QueryFault>
    requires { IsDay day.0 }
    ensures { Makes day.0 words.now (M.refusals maker.old) (M.refusals maker.new)
        (M.last_refused maker.old) (M.last_refused maker.new) result }
{
    match read_terms(alloc, words, day) {
        Ok(terms) => match build_all(alloc, words, &terms, day, maker) {
            Ok(regexes) => Ok(Query { terms, regexes }),
            Err(fault) => Err(fault),
        },
        Err(fault) => Err(fault),
    }
}

fn least(a: Option<u64>, b: Option<u64>) -> Option<u64>
    ensures { result ≡ matching.least a b }
{
    match a {
        None => b,
        Some(depth) => match b {
            None => Some(depth),
            Some(other) => Some(depth.min(other)),
        },
    }
}

pub fn earlier(a: Option<u32>, b: Option<u32>) -> Option<u32>
    ensures { result ≡ matching.least a b }
{
    match a {
        None => b,
        Some(day) => match b {
            None => Some(day),
            Some(other) => Some(day.min(other)),
        },
    }
}

pub fn later(a: Option<u32>, b: Option<u32>) -> Option<u32>
    ensures { result ≡ matching.later a b }
{
    match a {
        None => b,
        Some(day) => match b {
            None => Some(day),
            Some(other) => Some(day.max(other)),
        },
    }
}

/// The depth that a term outside `not:` says.
fn depth_of(term: &Term) -> Option<u64>
    ensures { result ≡ matching.depth_under term.now.nots term.now.kind }
{
    if term.nots != 0 {
        return None;
    }
    match term.kind {
        Kind::Depth(depth) => Some(depth),
        _ => None,
    }
}

/// The bounds that a term outside `not:` says.
fn bounds_of(term: &Term) -> Period
    ensures { result ≡ matching.bounds_under term.now.nots term.now.kind }
{
    let all = Period {
        from: None,
        end: None,
        interval: None,
    };
    if term.nots != 0 {
        return all;
    }
    match term.kind {
        Kind::Date(period) => period,
        _ => all,
    }
}

impl Query {
    ghost use Rattle.std.specs.Prelude.{◌≡◌, ◌↔◌, IsTrue, IfOk, IsOk, []};
    ghost use Rattle.query_terms.specs.Finders.{known_in};
    ghost use Rattle.query.specs.Matching as matching;
    ghost use Rattle.query.specs.Meaning as meaning;
    ghost use Rattle.query_terms.specs.Sought.{known_of};

    /// Whether the query means a posting of a transaction. Fails only for want of memory, and only where the query has a
    /// regex. To ask about many postings take a `search`.
    pub fn posting(
        &mut self,
        alloc: Global,
        posting: &Posting,
        txn: &Txn,
        types: &Types,
    ) -> Result<bool, Memory>
        ensures found { IfOk result (λ b.
            b ≡ meaning.of_posting self.old types.now posting.now txn.now) }
        ensures same { self.new ≡ self.old }
        ensures free { self.old.regexes.items ≡ [] → IsOk result }
    {
        let mut search = self.search(alloc)?;
        Ok(search.posting(posting, txn, types))
    }

    /// Whether the query means a posting, whatever its day: its terms of days are left out, under `not:` or not.
    pub fn undated(
        &mut self,
        alloc: Global,
        posting: &Posting,
        txn: &Txn,
        types: &Types,
    ) -> Result<bool, Memory>
        ensures found { IfOk result (λ b.
            b ≡ meaning.of_undated self.old types.now posting.now txn.now) }
        ensures same { self.new ≡ self.old }
        ensures free { self.old.regexes.items ≡ [] → IsOk result }
    {
        let mut search = self.search(alloc)?;
        Ok(search.undated(posting, txn, types))
    }

    /// Whether the query means a posting, whatever bounds it has on days: its terms of days are left out but for those
    /// under `not:`.
    pub fn boundless(
        &mut self,
        alloc: Global,
        posting: &Posting,
        txn: &Txn,
        types: &Types,
    ) -> Result<bool, Memory>
        ensures found { IfOk result (λ b.
            b ≡ meaning.of_boundless self.old types.now posting.now txn.now) }
        ensures same { self.new ≡ self.old }
        ensures free { self.old.regexes.items ≡ [] → IsOk result }
    {
        let mut search = self.search(alloc)?;
        Ok(search.boundless(posting, txn, types))
    }

    /// Whether the query means a transaction.
    pub fn txn(&mut self, alloc: Global, txn: &Txn, types: &Types) -> Result<bool, Memory>
        ensures found { IfOk result (λ b. b ≡ meaning.of_txn self.old types.now txn.now) }
        ensures same { self.new ≡ self.old }
        ensures free { self.old.regexes.items ≡ [] → IsOk result }
    {
        let mut search = self.search(alloc)?;
        Ok(search.txn(txn, types))
    }

    /// The query, ready for many postings or transactions: it keeps a matcher for each regex from one to the next. It takes
    /// no memory where the query has no regex.
    pub fn search(&self, alloc: Global) -> Result<Search<'_>, Memory>
        ensures terms { IfOk result (λ s. s.terms.now ≡ self.now.terms.items) }
        ensures known { IfOk result (λ s. known_in s.finder ≡ known_of self.now.regexes.items) }
        ensures free { self.now.regexes.items ≡ [] → IsOk result }
    {
        match Finder::new(alloc, self.regexes.as_slice()) {
            Ok(finder) => Ok(Search {
                terms: self.terms.as_slice(),
                finder,
            }),
            Err(fault) => Err(fault),
        }
    }

    /// The least depth of display among the terms outside `not:`.
    #[tactic(auto, using(crate::proofs::Bounds::depth_more, crate::proofs::Bounds::depth_all))]
    pub fn depth(&self) -> Option<u64>
        ensures { result ≡ matching.depth_in self.now.terms.items }
    {
        let mut depth = None;
        for term in self.terms.as_slice() {
            depth = least(depth, depth_of(term));
        }
        depth
    }

    /// The common bounds of the terms of days outside `not:`.
    #[tactic(auto, using(crate::proofs::Bounds::from_more, crate::proofs::Bounds::end_more, crate::proofs::Bounds::from_all, crate::proofs::Bounds::end_all))]
    pub fn dates(&self) -> Period
        ensures { result ≡ matching.dates_in self.now.terms.items }
    {
        let mut from = None;
        let mut end = None;
        for term in self.terms.as_slice() {
            let bounds = bounds_of(term);
            from = later(from, bounds.from);
            end = earlier(end, bounds.end);
        }
        Period {
            from,
            end,
            interval: None,
        }
    }

    /// Whether there is no term.
    pub fn is_empty(&self) -> bool
        ensures { IsTrue result ↔ (self.now.terms.items ≡ []) }
    {
        self.terms.is_empty()
    }
}

impl<'q> Search<'q> {
    ghost use Rattle.std.specs.Prelude.{◌≡◌};
    ghost use Rattle.query_terms.specs.Finders.{known_in};
    ghost use Rattle.query.specs.Meaning as meaning;

    /// Whether the query means a posting of a transaction.
    pub fn posting(&mut self, posting: &Posting, txn: &Txn, types: &Types) -> bool
        ensures found { result ≡ meaning.sought_posting self.old types.now posting.now txn.now }
        ensures known { known_in self.new.finder ≡ known_in self.old.finder }
        ensures terms { self.new.terms.now ≡ self.old.terms.now }
    {
        matches(
            &mut self.finder,
            types,
            Asked::Posting(posting, txn),
            self.terms,
        )
    }

    /// Whether the query means a posting, whatever its day.
    #[tactic(auto, using(crate::proofs::Dateless::undated_is))]
    pub fn undated(&mut self, posting: &Posting, txn: &Txn, types: &Types) -> bool
        ensures found { result ≡ meaning.sought_undated self.old types.now posting.now txn.now }
        ensures known { known_in self.new.finder ≡ known_in self.old.finder }
        ensures terms { self.new.terms.now ≡ self.old.terms.now }
    {
        matches(
            &mut self.finder,
            types,
            Asked::Undated(posting, txn),
            self.terms,
        )
    }

    /// Whether the query means a posting, whatever bounds it has on days.
    #[tactic(auto, using(crate::proofs::Dateless::boundless_is))]
    pub fn boundless(&mut self, posting: &Posting, txn: &Txn, types: &Types) -> bool
        ensures found { result ≡ meaning.sought_boundless self.old types.now posting.now txn.now }
        ensures known { known_in self.new.finder ≡ known_in self.old.finder }
        ensures terms { self.new.terms.now ≡ self.old.terms.now }
    {
        matches(
            &mut self.finder,
            types,
            Asked::Boundless(posting, txn),
            self.terms,
        )
    }

    /// Whether the query means a transaction.
    pub fn txn(&mut self, txn: &Txn, types: &Types) -> bool
        ensures found { result ≡ meaning.sought_txn self.old types.now txn.now }
        ensures known { known_in self.new.finder ≡ known_in self.old.finder }
        ensures terms { self.new.terms.now ≡ self.old.terms.now }
    {
        matches(&mut self.finder, types, Asked::Txn(txn), self.terms)
    }
}
