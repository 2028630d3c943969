//! Rules that are asked about postings.
ghost use Rattle.std.specs.Prelude.{◌≡◌, ◌++◌, map, length, IfOk, OnOk};
ghost use Rattle.generated.specs.Alone.{IsSo, IsVerdict};
ghost use Rattle.query.specs.OwnLetters.{own_in};
ghost use Rattle.query.specs.Words.{terms_mean};
ghost use Rattle.generated.specs.Added.{added_by, added_if};
ghost use Rattle.generated.specs.Asking.{Answers, Asks, AllAnswer, AreQueries, IsQuery, all_asked, asked_of};
ghost use Rattle.generated.specs.Queries as queries;
ghost use Rattle.rule_entries.specs.Added as made;
ghost use Rattle.rule_entries.specs.Counted.{told};

use crate::rules::RuleQuery;
use book::{AutoRule, Posting, RulePosting, Txn};
use hl_base::Memory;
use query::{Query, Search, Types};
use rule_entries::made_posting;
use std::alloc::Global;

/// An automated rule that is asked about many postings.
#[derive(Drop)]
pub(crate) struct Asker<'q> {
    search: Search<'q>,
    query: &'q Query,
    rule: &'q AutoRule,
    /// Whether its words ask for accounts alone.
    alone: bool,
}

/// A rule, ready to be asked.
fn asker_of<'q, 'i>(alloc: Global, read: &'q RuleQuery<'i>) -> Result<Asker<'q>, Memory>
    requires { IsQuery read.now }
    ensures asked { IfOk result (λ asker. asked_of asker ≡ queries.asked_by read.now) }
    ensures answers { IfOk result Answers }
{
    let search = read.query.search(alloc)?;
    Ok(Asker {
        search,
        query: &read.query,
        rule: read.rule,
        alone: read.alone,
    })
}

/// Some rules, ready to be asked.
pub(crate) fn askers_of<'q, 'i>(
    alloc: Global,
    reads: &'q [RuleQuery<'i>],
) -> Result<Vec<Asker<'q>>, Memory>
    requires { AreQueries reads.now }
    ensures asked { IfOk result (λ askers. all_asked askers.items
        ≡ map queries.asked_by reads.now) }
    ensures answers { IfOk result (λ askers. AllAnswer askers.items) }
{
    let mut askers = Vec::with_capacity(alloc, reads.len())?;
    for read in reads {
        let asker = asker_of(alloc, read)?;
        askers.push(asker)?;
    }
    Ok(askers)
}

/// Whether a rule means a posting.
fn asks(asker: &mut Asker<'_>, types: &Types, txn: &Txn, posting: &Posting) -> bool
    requires { Answers asker.old }
    ensures found { result
        ≡ terms_mean (asked_of asker.old).terms (own_in types.now) posting.now txn.now }
    ensures asks { Asks asker.old asker.new }
{
    asker.search.posting(posting, txn, types)
}

/// Whether a rule means each posting of the account of one: this is known where its words ask for accounts alone.
pub(crate) fn verdict_of(
    asker: &mut Asker<'_>,
    types: &Types,
    txn: &Txn,
    posting: &Posting,
) -> Option<bool>
    requires { Answers asker.old }
    ensures verdict { IsVerdict posting.now.account (asked_of asker.old) result }
    ensures asks { Asks asker.old asker.new }
{
    if asker.alone {
        Some(asks(asker, types, txn, posting))
    } else {
        None
    }
}

/// Whether a rule means a posting, which may be known.
pub(crate) fn means(
    asker: &mut Asker<'_>,
    known: Option<bool>,
    types: &Types,
    txn: &Txn,
    posting: &Posting,
) -> bool
    requires answers { Answers asker.old }
    requires known { IsSo (own_in types.now) txn.now posting.now (asked_of asker.old) known }
    ensures found { result
        ≡ terms_mean (asked_of asker.old).terms (own_in types.now) posting.now txn.now }
    ensures asks { Asks asker.old asker.new }
{
    match known {
        Some(means) => means,
        None => asks(asker, types, txn, posting),
    }
}

/// How many postings a rule adds behind a posting.
pub(crate) fn count_one(
    asker: &mut Asker<'_>,
    known: Option<bool>,
    types: &Types,
    txn: &Txn,
    posting: &Posting,
) -> u64
    requires answers { Answers asker.old }
    requires known { IsSo (own_in types.now) txn.now posting.now (asked_of asker.old) known }
    ensures count { result
        ≡ told (length (added_by (own_in types.now) txn.now posting.now (asked_of asker.old))) }
    ensures asks { Asks asker.old asker.new }
{
    if means(asker, known, types, txn, posting) {
        let count = asker.rule.postings.len();
        count as u64
    } else {
        0
    }
}

/// Puts what some postings of a rule make beside a matched one.
fn push_made(
    alloc: Global,
    postings: &mut Vec<Posting>,
    matched: &Posting,
    rules: &[RulePosting],
) -> Result<(), Memory>
    ensures { OnOk result (postings.new.items
        ≡ postings.old.items ++ map (made.made_posting matched.now) rules.now) }
{
    for rule in rules {
        postings.push(made_posting(alloc, matched, rule)?)?;
    }
    Ok(())
}

/// Puts what a rule adds behind a posting, where it means that.
pub(crate) fn add_if(
    alloc: Global,
    means: bool,
    asker: &Asker<'_>,
    posting: &Posting,
    postings: &mut Vec<Posting>,
) -> Result<(), Memory>
    ensures { OnOk result (postings.new.items ≡ postings.old.items
        ++ added_if means posting.now (asked_of asker.now)) }
{
    if means {
        push_made(alloc, postings, posting, asker.rule.postings.as_slice())
    } else {
        Ok(())
    }
}
