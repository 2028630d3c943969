//! Items of a text behind a change of it.
ghost use Rattle.std.specs.Prelude.{◌≡◌, ◌≤◌, length, map, drop};
ghost use Rattle.std.specs.List.{AllByRecursion};
ghost use Rattle.moved_lines.specs.Moving as spec;

use crate::pieces::move_piece;
use crate::shift::{Offset, Shift};
use crate::txns::{move_posting, move_txn, moved_postings};
use book::{AutoRule, Item, PeriodicRule, Placed, RulePosting};
use hl_base::List;
use std::alloc::Global;
use std::mem::replace;

/// Moves the line of a rule's posting.
fn move_rule_posting(posting: &mut RulePosting, by: Shift)
    requires { spec.CanMoveRulePosting by posting.old }
    ensures { posting.new ≡ spec.moved_rule_posting by posting.old }
{
    move_posting(&mut posting.posting, by);
}

/// Moves the lines of a rule's postings where they stand.
fn move_rule_postings(postings: &mut [RulePosting], by: Shift)
    requires { AllByRecursion (spec.CanMoveRulePosting by) postings.old }
    ensures { postings.new ≡ map (spec.moved_rule_posting by) postings.old }
{
    for posting in postings.iter_mut() {
        move_rule_posting(posting, by);
    }
}

/// The postings of a rule with their lines moved, without a copy.
fn moved_rule_postings(postings: List<RulePosting>, by: Shift) -> List<RulePosting>
    requires { AllByRecursion (spec.CanMoveRulePosting by) postings }
    ensures { result ≡ map (spec.moved_rule_posting by) postings }
{
    let mut postings = postings.into_vec();
    move_rule_postings(&mut postings, by);
    List::from_vec(postings)
}

/// Moves the lines of an automated rule.
fn move_auto(alloc: Global, rule: &mut AutoRule, by: Shift)
    requires { spec.CanMoveAuto by rule.old }
    ensures { rule.new ≡ spec.moved_auto by rule.old }
{
    let postings = replace(&mut rule.postings, List::new(alloc));
    rule.line = by.moved(rule.line);
    rule.postings = moved_rule_postings(postings, by);
}

/// Moves the lines of a periodic rule.
fn move_periodic(alloc: Global, rule: &mut PeriodicRule, by: Shift)
    requires { spec.CanMovePeriodic by rule.old }
    ensures { rule.new ≡ spec.moved_periodic by rule.old }
{
    let postings = replace(&mut rule.postings, List::new(alloc));
    rule.line = by.moved(rule.line);
    rule.postings = moved_postings(postings, by);
}

/// Moves the lines of an item, if it has any.
fn move_item(alloc: Global, item: &mut Item, by: Shift)
    requires { spec.CanMoveItem by item.old }
    ensures { item.new ≡ spec.moved_item by item.old }
{
    match item {
        Item::Txn(txn) => move_txn(alloc, txn, by),
        Item::Auto(rule) => move_auto(alloc, rule, by),
        Item::Periodic(rule) => move_periodic(alloc, rule, by),
        Item::Gap | Item::Block | Item::Price(_) | Item::Directive(_) => {}
    }
}

/// Moves an item with its piece.
fn move_placed(alloc: Global, placed: &mut Placed, by: Offset)
    requires { spec.CanMovePlaced by placed.old }
    ensures { placed.new ≡ spec.moved_placed by placed.old }
{
    move_piece(&mut placed.piece, by);
    move_item(alloc, &mut placed.item, by.lines);
}

/// Moves some items where they stand.
fn move_all(alloc: Global, items: &mut [Placed], by: Offset)
    requires { AllByRecursion (spec.CanMovePlaced by) items.old }
    ensures { items.new ≡ map (spec.moved_placed by) items.old }
{
    for placed in items.iter_mut() {
        move_placed(alloc, placed, by);
    }
}

/// Moves the items of a text from a number on, their pieces in bytes and lines and what they say in lines, where they
/// stand. It takes no memory.
pub fn move_items(alloc: Global, items: &mut [Placed], from: usize, by: Offset)
    requires from { from ≤ length items.old }
    requires numbers { AllByRecursion (spec.CanMovePlaced by) (drop from items.old) }
    ensures { items.new ≡ spec.moved_items_from from by items.old }
{
    let (_, behind) = items.split_at_mut(from);
    move_all(alloc, behind, by);
}
