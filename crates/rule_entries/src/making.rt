//! The transactions that periodic rules make within a window.
ghost use Rattle.std.specs.Prelude.{◌≡◌, ◌≤◌, ◌++◌, map, IfOk, OnOk};
ghost use Rattle.hl_time.specs.Calendar.{day_end};
ghost use Rattle.rule_entries.specs.Making as spec;
ghost use Rattle.rule_entries.specs.Occurring.{AreDays, days_seen};

use crate::days::{Occasions, occasions_in};
use book::{Item, Items, Mark, PeriodicRule, Txn, copied_postings, sort_by_day};
use hl_base::{List, Memory, Text};
use hl_time::{Day, Span};
use std::alloc::Global;

/// The transaction of a rule on a day.
fn txn_on(alloc: Global, rule: &PeriodicRule, day: Day) -> Result<Txn, Memory>
    ensures { IfOk result (λ txn. txn ≡ spec.txn_on rule.now day.0) }
{
    let description = Text::copied(alloc, rule.description.as_str())?;
    let postings = copied_postings(alloc, rule.postings.as_slice())?;
    Ok(Txn {
        line: rule.line,
        day,
        mark: Mark::Unmarked,
        code: Text::new(alloc),
        description,
        comment: Text::new(alloc),
        tags: List::new(alloc),
        postings,
    })
}

/// Puts the transactions of a rule on some days.
fn push_days(
    alloc: Global,
    txns: &mut Vec<Txn>,
    rule: &PeriodicRule,
    occasions: Occasions,
) -> Result<(), Memory>
    requires { AreDays occasions }
    ensures { OnOk result (txns.new.items
        ≡ txns.old.items ++ map (spec.txn_on rule.now) (days_seen occasions)) }
{
    for at in 0..occasions.count() {
        let txn = txn_on(alloc, rule, occasions.day_at(at))?;
        txns.push(txn)?;
    }
    Ok(())
}

/// Puts the transactions of a rule within a window.
fn push_rule(
    alloc: Global,
    txns: &mut Vec<Txn>,
    rule: &PeriodicRule,
    window: Span,
) -> Result<(), Memory>
    requires first { 1 ≤ window.from }
    requires last { window.end ≤ day_end }
    ensures { OnOk result (txns.new.items ≡ txns.old.items ++ spec.txns_by window rule.now) }
{
    push_days(alloc, txns, rule, occasions_in(rule.period, window))
}

/// Puts the transactions of an item within a window, if it is a periodic rule.
fn push_made(alloc: Global, txns: &mut Vec<Txn>, item: &Item, window: Span) -> Result<(), Memory>
    requires first { 1 ≤ window.from }
    requires last { window.end ≤ day_end }
    ensures { OnOk result (txns.new.items ≡ txns.old.items ++ spec.made_in window item.now) }
{
    match item {
        Item::Periodic(rule) => push_rule(alloc, txns, rule, window),
        _ => Ok(()),
    }
}

/// The transactions that the periodic rules among some items make within a window, by day, and on one day in the order of
/// the rules: each has its rule's line, description and postings as they are written. The days are those of the calendar.
pub fn made_txns(alloc: Global, items: &Items, window: Span) -> Result<Vec<Txn>, Memory>
    requires first { 1 ≤ window.from }
    requires last { window.end ≤ day_end }
    ensures { IfOk result (λ txns. txns.items ≡ spec.made_by_day window items.now) }
{
    let mut txns = Vec::new(alloc);
    for placed in items.as_slice() {
        push_made(alloc, &mut txns, &placed.item, window)?;
    }
    sort_by_day(&mut txns)?;
    Ok(txns)
}
