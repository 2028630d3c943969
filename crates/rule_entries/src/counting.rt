//! How many transactions and postings rules make, and how many are too many.
ghost use Rattle.std.specs.Prelude.{◌≡◌, ◌-◌, ◌<◌, ◌≤◌, ◌^◌, ℕ, length};
ghost use Rattle.hl_time.specs.Calendar.{day_end};
ghost use Rattle.book.specs.Postings.{postings_of};
ghost use Rattle.rule_entries.specs.Counted as spec;
ghost use Rattle.rule_entries.specs.Making.{made_in, made_of, txns_by};
ghost use Rattle.rule_entries.specs.Occurring.{days_of};

use crate::days::occasions_in;
use book::{Item, Items, PeriodicRule};
use hl_time::Span;

/// How many transactions rules may make.
pub const TXN_LIMIT: u64 = 100_000;

/// How many postings rules may make.
pub const POSTING_LIMIT: u64 = 1_000_000;

/// More than rules may make. A count past the greatest number of 64 bits is told as that.
#[derive(Clone, Copy, Debug, PartialEq, Eq)]
pub struct Excess {
    pub count: u64,
    pub limit: u64,
}

/// What is more than a limit.
fn excess_over(limit: u64, count: u64) -> Option<Excess>
    requires { limit < 2 ^ 64 - 1 }
    ensures { (all : ℕ) → count ≡ spec.told all → result ≡ spec.excess_over limit all }
{
    if limit < count {
        Some(Excess { count, limit })
    } else {
        None
    }
}

/// On how many days a rule occurs within a window.
fn day_count(rule: &PeriodicRule, window: Span) -> u32
    requires first { 1 ≤ window.from }
    requires last { window.end ≤ day_end }
    ensures count { result ≡ length (days_of rule.now.period window) }
    ensures few { result ≤ day_end }
{
    occasions_in(rule.period, window).count()
}

/// How many transactions a rule makes within a window.
fn rule_txns(rule: &PeriodicRule, window: Span) -> u64
    requires first { 1 ≤ window.from }
    requires last { window.end ≤ day_end }
    ensures { result ≡ spec.told (length (txns_by window rule.now)) }
{
    u64::from(day_count(rule, window))
}

/// How many postings the transactions have that a rule makes within a window.
fn rule_postings(rule: &PeriodicRule, window: Span) -> u64
    requires first { 1 ≤ window.from }
    requires last { window.end ≤ day_end }
    ensures { result ≡ spec.told (length (postings_of (txns_by window rule.now))) }
{
    let each = rule.postings.len();
    u64::from(day_count(rule, window)).saturating_mul(each as u64)
}

/// How many transactions an item makes within a window.
fn txns_in(item: &Item, window: Span) -> u64
    requires first { 1 ≤ window.from }
    requires last { window.end ≤ day_end }
    ensures { result ≡ spec.told (length (made_in window item.now)) }
{
    match item {
        Item::Periodic(rule) => rule_txns(rule, window),
        _ => 0,
    }
}

/// How many postings the transactions have that an item makes within a window.
fn postings_in(item: &Item, window: Span) -> u64
    requires first { 1 ≤ window.from }
    requires last { window.end ≤ day_end }
    ensures { result ≡ spec.told (length (postings_of (made_in window item.now))) }
{
    match item {
        Item::Periodic(rule) => rule_postings(rule, window),
        _ => 0,
    }
}

/// How many transactions the rules among some items make within a window.
fn txn_count(items: &Items, window: Span) -> u64
    requires first { 1 ≤ window.from }
    requires last { window.end ≤ day_end }
    ensures { result ≡ spec.told (length (made_of window items.now)) }
{
    let mut count: u64 = 0;
    for placed in items.as_slice() {
        count = count.saturating_add(txns_in(&placed.item, window));
    }
    count
}

/// How many postings these have.
fn posting_count(items: &Items, window: Span) -> u64
    requires first { 1 ≤ window.from }
    requires last { window.end ≤ day_end }
    ensures { result ≡ spec.told (length (postings_of (made_of window items.now))) }
{
    let mut count: u64 = 0;
    for placed in items.as_slice() {
        count = count.saturating_add(postings_in(&placed.item, window));
    }
    count
}

/// What is more than the transactions that the rules among some items may make within a window.
fn txn_excess(items: &Items, window: Span) -> Option<Excess>
    requires first { 1 ≤ window.from }
    requires last { window.end ≤ day_end }
    ensures { result ≡ spec.excess_over spec.txn_limit (length (made_of window items.now)) }
{
    excess_over(TXN_LIMIT, txn_count(items, window))
}

/// Whether the periodic rules among some items make too much within a window: more than 100,000 transactions, or else more
/// than 1,000,000 postings. Nothing is made for it.
pub fn excess_in(items: &Items, window: Span) -> Option<Excess>
    requires first { 1 ≤ window.from }
    requires last { window.end ≤ day_end }
    ensures { result ≡ spec.excess_of (made_of window items.now) }
{
    match txn_excess(items, window) {
        Some(excess) => Some(excess),
        None => posting_excess(posting_count(items, window)),
    }
}

/// What is more than the postings that rules may make, of so many.
pub fn posting_excess(count: u64) -> Option<Excess>
    ensures { (all : ℕ) → count ≡ spec.told all → result ≡ spec.excess_over spec.posting_limit all }
{
    excess_over(POSTING_LIMIT, count)
}
