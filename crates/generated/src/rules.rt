//! Automated rules with the queries of their words.
ghost use Rattle.std.specs.Prelude.{◌≡◌, ◌++◌, [], ◌∷◌, IfErr, IfOk, MatchOption, OnOk};
ghost use Rattle.hl_time.specs.Calendar.{IsDay};
ghost use Rattle.query_terms.specs.Reading.{term_of};
ghost use Rattle.generated.specs.Alone as accounts;
ghost use Rattle.generated.specs.Queries.{Reads};
ghost use Rattle.generated.specs.Rules as spec;
ghost use Rattle.generated.specs.declared.fault.GenFault.TheVariants as gen_fault;
ghost use Rattle.generated.specs.Reading.{ReadsMore, ReadsOne, fault_at};

use crate::fault::GenFault;
use book::{AutoRule, Item, Items};
use hl_base::{List, Memory, Text};
use hl_time::Day;
use query::{Maker, Query, QueryFault, make_query};
use query_terms::{Kind, read_term};
use std::alloc::Global;

/// An automated rule with the query of its words.
#[derive(Drop)]
pub(crate) struct RuleQuery<'i> {
    pub(crate) query: Query,
    pub(crate) rule: &'i AutoRule,
    /// Whether its words ask for accounts alone.
    pub(crate) alone: bool,
}

/// Why a rule has no query.
fn fault_at(line: u64, fault: &QueryFault) -> GenFault
    ensures { result ≡ fault_at line fault.now }
{
    match fault {
        QueryFault::BadTerm { word: _ } => GenFault::BadTerm { line },
        QueryFault::PatternRefused { word: _ } => GenFault::PatternRefused { line },
        QueryFault::Memory => GenFault::Memory,
    }
}

/// Whether a term looks at nothing of a posting but its account.
fn is_of_account(kind: &Kind) -> bool
    ensures { result ≡ accounts.is_of_account kind.now }
{
    match kind {
        Kind::Account(_) | Kind::Depth(_) => true,
        _ => false,
    }
}

/// Whether a word is a term that looks at nothing of a posting but its account.
fn asks_account(alloc: Global, word: &Text, day: Day) -> Result<bool, Memory>
    requires { IsDay day.0 }
    ensures { IfOk result (λ asks. asks ≡ accounts.asks_account (term_of day.0 word.now)) }
{
    match read_term(alloc, word, day)? {
        Some(term) => Ok(is_of_account(&term.kind)),
        None => Ok(false),
    }
}

/// Whether each of some words does so.
fn ask_accounts(alloc: Global, words: &[Text], day: Day) -> Result<bool, Memory>
    requires { IsDay day.0 }
    ensures { IfOk result (λ ask. ask ≡ accounts.ask_accounts day.0 words.now) }
{
    for word in words {
        let asks = asks_account(alloc, word, day)?;
        if !asks {
            return Ok(false);
        }
    }
    Ok(true)
}

/// A rule with its query, and whether its words ask for accounts alone.
fn with_query<'i>(
    alloc: Global,
    rule: &'i AutoRule,
    query: Query,
    day: Day,
) -> Result<RuleQuery<'i>, Memory>
    requires { IsDay day.0 }
    ensures query { IfOk result (λ read. read.query ≡ query) }
    ensures rule { IfOk result (λ read. read.rule.now ≡ rule.now) }
    ensures alone { IfOk result (λ read. read.alone ≡ accounts.ask_accounts day.0 rule.now.words) }
{
    let alone = ask_accounts(alloc, rule.words.as_slice(), day)?;
    Ok(RuleQuery { query, rule, alone })
}

/// The same, with why there is none.
fn kept_query<'i>(
    alloc: Global,
    rule: &'i AutoRule,
    query: Query,
    day: Day,
) -> Result<RuleQuery<'i>, GenFault>
    requires { IsDay day.0 }
    ensures query { IfOk result (λ read. read.query ≡ query) }
    ensures rule { IfOk result (λ read. read.rule.now ≡ rule.now) }
    ensures alone { IfOk result (λ read. read.alone ≡ accounts.ask_accounts day.0 rule.now.words) }
    ensures err { IfErr result (λ e. e ≡ gen_fault.Memory) }
{
    match with_query(alloc, rule, query, day) {
        Ok(read) => Ok(read),
        Err(Memory) => Err(GenFault::Memory),
    }
}

/// An automated rule with the query of its words on a day.
fn read_rule<'i, M: Maker>(
    alloc: Global,
    rule: &'i AutoRule,
    day: Day,
    maker: &mut M,
) -> Result<RuleQuery<'i>, GenFault>
    requires { IsDay day.0 }
    ensures { ReadsOne day.0 rule.now (M.refusals maker.old) (M.refusals maker.new)
        (M.last_refused maker.old) (M.last_refused maker.new) result }
{
    match make_query(alloc, rule.words.as_slice(), day, maker) {
        Ok(query) => kept_query(alloc, rule, query, day),
        Err(fault) => Err(fault_at(rule.line, &fault)),
    }
}

/// Puts a rule with its query behind others.
fn push_read<'i>(reads: &mut Vec<RuleQuery<'i>>, read: RuleQuery<'i>) -> Result<(), GenFault>
    ensures ok { OnOk result (reads.new.items ≡ reads.old.items ++ read.entry ∷ []) }
    ensures err { IfErr result (λ e. e ≡ gen_fault.Memory) }
{
    match reads.push(read) {
        Ok(()) => Ok(()),
        Err(_) => Err(GenFault::Memory),
    }
}

/// Reads a rule and puts it behind others.
fn push_rule<'i, M: Maker>(
    alloc: Global,
    rule: &'i AutoRule,
    day: Day,
    maker: &mut M,
    reads: &mut Vec<RuleQuery<'i>>,
) -> Result<(), GenFault>
    requires { IsDay day.0 }
    ensures { ReadsMore day.0 (rule.now ∷ []) reads.old.items
        (M.refusals maker.old) (M.refusals maker.new)
        (M.last_refused maker.old) (M.last_refused maker.new) reads.new.items result }
{
    match read_rule(alloc, rule, day, maker) {
        Ok(read) => push_read(reads, read),
        Err(fault) => Err(fault),
    }
}

/// The automated rule that an item is, if it is one.
fn auto_in(item: &Item) -> Option<&AutoRule>
    ensures { MatchOption result (spec.auto_in item.now ≡ [])
        (λ rule. spec.auto_in item.now ≡ rule.now ∷ []) }
{
    match item {
        Item::Auto(rule) => Some(rule),
        _ => None,
    }
}

/// Puts the rule that an item is, if it is an automated one, behind others.
fn read_item<'i, M: Maker>(
    alloc: Global,
    item: &'i Item,
    day: Day,
    maker: &mut M,
    reads: &mut Vec<RuleQuery<'i>>,
) -> Result<(), GenFault>
    requires { IsDay day.0 }
    ensures { ReadsMore day.0 (spec.auto_in item.now) reads.old.items
        (M.refusals maker.old) (M.refusals maker.new)
        (M.last_refused maker.old) (M.last_refused maker.new) reads.new.items result }
{
    match auto_in(item) {
        Some(rule) => push_rule(alloc, rule, day, maker, reads),
        None => Ok(()),
    }
}

/// The automated rules among some items with the queries of their words on a day, or why the first of them that has none
/// hasn't.
pub(crate) fn read_rules<'i, M: Maker>(
    alloc: Global,
    items: &'i Items,
    day: Day,
    maker: &mut M,
) -> Result<List<RuleQuery<'i>>, GenFault>
    requires { IsDay day.0 }
    ensures { Reads day.0 (spec.autos_of items.now) (M.refusals maker.old) (M.refusals maker.new)
        (M.last_refused maker.old) (M.last_refused maker.new) result }
{
    let mut reads = Vec::new(alloc);
    for placed in items.as_slice() {
        match read_item(alloc, &placed.item, day, maker, &mut reads) {
            Ok(()) => {}
            Err(fault) => return Err(fault),
        }
    }
    Ok(List::from_vec(reads))
}
