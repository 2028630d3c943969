//! Which blocks apply to a record, and what fields are given.
ghost use Rattle.std.specs.Prelude.{◌≡◌, ◌++◌, ◌∷◌, [], ◌&&◌, ◌||◌, map, option_map, IfOk, OnOk, if◌then◌else◌};
ghost use Rattle.std.specs.List.{filter, flat_map, join_with_byte, list_any};
ghost use Rattle.query_terms.specs.Finders.{known_in};
ghost use Rattle.csv_entries.specs.Blocks as spec;

use crate::fields::{Fields, is_field};
use crate::values::{referred, value_text};
use csv_rules::{Action, Assignment, Block, Condition, EntryField, Sheet, Value};
use hl_base::{Memory, Text};
use query_terms::Finder;
use query_terms::cutting::bytes_of;
use std::alloc::Global;

/// A record: the names of columns, its columns without white space at their ends, and these between
/// commas.
#[derive(Clone, Copy)]
pub struct Row<'a> {
    pub names: &'a [Text],
    pub columns: &'a [Text],
    pub whole: &'a str,
}

/// What a pattern looks at.
fn looked_at<'a>(column: &Option<Text>, row: Row<'a>) -> &'a str
    requires { row.whole.now ≡ join_with_byte 44 row.columns.now }
    ensures { result.now ≡ spec.looked_at column.now row.entry.names.now row.entry.columns.now }
{
    match column {
        Some(name) => match referred(bytes_of(name.as_str()), row.names, row.columns) {
            Some(text) => text,
            None => "",
        },
        None => row.whole,
    }
}

fn holds_by(negated: bool, found: bool) -> bool
    ensures { result ≡ spec.holds_by negated found }
{
    if negated { !found } else { found }
}

/// Whether a condition holds.
fn holds(condition: &Condition, row: Row, finder: &mut Finder) -> bool
    requires { row.whole.now ≡ join_with_byte 44 row.columns.now }
    ensures found { result
        ≡ spec.holds (known_in finder.old) row.entry.names.now row.entry.columns.now condition.now }
    ensures same { known_in finder.new ≡ known_in finder.old }
{
    let found = finder.finds(&condition.pattern, looked_at(&condition.column, row));
    holds_by(condition.negated, found)
}

/// Whether all of some group held, behind one more condition that is joined to the group or not.
fn next_some(joined: bool, some: bool, all: bool) -> bool
    ensures { result ≡ (if joined then some else (some || all)) }
{
    if joined { some } else { some || all }
}

/// Whether all of the last group hold, behind one more condition that is joined to the group or not.
fn next_all(joined: bool, all: bool, held: bool) -> bool
    ensures { result ≡ (if joined then (all && held) else held) }
{
    if joined { all && held } else { held }
}

/// Whether all conditions of some group hold, where those of the first group that came before do or
/// don't.
#[tactic(auto, using(crate::proofs::Groups::one_more, crate::proofs::Groups::last))]
fn some_hold(all: bool, conditions: &[Condition], row: Row, finder: &mut Finder) -> bool
    requires { row.whole.now ≡ join_with_byte 44 row.columns.now }
    ensures found { result ≡ spec.some_from
        (spec.holds (known_in finder.old) row.entry.names.now row.entry.columns.now)
        all conditions.now }
    ensures same { known_in finder.new ≡ known_in finder.old }
{
    let mut some = false;
    let mut all = all;
    for condition in conditions {
        let held = holds(condition, row, finder);
        some = next_some(condition.joined, some, all);
        all = next_all(condition.joined, all, held);
    }
    some || all
}

/// Whether a block applies to a record.
#[tactic(auto, using(crate::proofs::Groups::applies_by))]
fn applies(block: &Block, row: Row, finder: &mut Finder) -> bool
    requires { row.whole.now ≡ join_with_byte 44 row.columns.now }
    ensures found { result
        ≡ spec.applies (known_in finder.old) row.entry.names.now row.entry.columns.now block.now }
    ensures same { known_in finder.new ≡ known_in finder.old }
{
    match block.conditions.as_slice() {
        [first, rest @ ..] => {
            let held = holds(first, row, finder);
            some_hold(held, rest, row, finder)
        }
        [] => false,
    }
}

/// Puts a block behind others, if it applies.
#[tactic(auto, using(crate::proofs::Lent::pushed))]
fn push_if<'a>(found: &mut Vec<&'a Block>, block: &'a Block, applies: bool) -> Result<(), Memory>
    ensures { OnOk result (map (λ b. b.now) found.new.items
        ≡ map (λ b. b.now) found.old.items ++ (if applies then block.now ∷ [] else [])) }
{
    if applies {
        found.push(block)?;
        Ok(())
    } else {
        Ok(())
    }
}

/// The blocks that apply to a record.
#[tactic(auto, using(crate::proofs::Lent::one_more, crate::proofs::Lent::all_done))]
pub fn applying<'a>(
    alloc: Global,
    blocks: &'a [Block],
    row: Row,
    finder: &mut Finder,
) -> Result<Vec<&'a Block>, Memory>
    requires { row.whole.now ≡ join_with_byte 44 row.columns.now }
    ensures found { IfOk result (λ found. map (λ b. b.now) found.items
        ≡ filter (spec.applies (known_in finder.old) row.entry.names.now row.entry.columns.now)
        blocks.now) }
    ensures same { known_in finder.new ≡ known_in finder.old }
{
    let mut found = Vec::new(alloc);
    for block in blocks {
        let is_met = applies(block, row, finder);
        push_if(&mut found, block, is_met)?;
    }
    Ok(found)
}

fn is_end(action: &Action) -> bool
    ensures { result ≡ spec.is_end action.now }
{
    match action {
        Action::End => true,
        Action::Skip | Action::Assign(_) => false,
    }
}

fn is_skip(action: &Action) -> bool
    ensures { result ≡ spec.is_skip action.now }
{
    match action {
        Action::Skip => true,
        Action::End | Action::Assign(_) => false,
    }
}

fn has_end(block: &Block) -> bool
    ensures { result ≡ list_any spec.is_end block.now.actions }
{
    block.actions.as_slice().iter().any(|action| is_end(action))
}

fn has_skip(block: &Block) -> bool
    ensures { result ≡ list_any spec.is_skip block.now.actions }
{
    block
        .actions
        .as_slice()
        .iter()
        .any(|action| is_skip(action))
}

/// Whether one of the blocks leaves out a record and all later ones.
#[tactic(auto, using(crate::proofs::Lent::end_here, crate::proofs::Lent::end_not_here, crate::proofs::Lent::no_end))]
pub(crate) fn some_end(blocks: &[&Block]) -> bool
    ensures { result ≡ list_any spec.is_end (spec.actions_in (map (λ b. b.now) blocks.now)) }
{
    for i in 0..blocks.len() {
        if has_end(blocks[i]) {
            return true;
        }
    }
    false
}

/// Whether one of the blocks leaves out a record.
#[tactic(auto, using(crate::proofs::Lent::skip_here, crate::proofs::Lent::skip_not_here, crate::proofs::Lent::no_skip))]
pub(crate) fn some_skip(blocks: &[&Block]) -> bool
    ensures { result ≡ list_any spec.is_skip (spec.actions_in (map (λ b. b.now) blocks.now)) }
{
    for i in 0..blocks.len() {
        if has_skip(blocks[i]) {
            return true;
        }
    }
    false
}

/// What the last assignment to a field gives it.
#[tactic(auto, using(crate::proofs::Chosen::this_one, crate::proofs::Chosen::not_this, crate::proofs::Chosen::no_more))]
fn last_to<'a>(field: EntryField, assignments: &'a [Assignment]) -> Option<&'a Value>
    ensures { option_map (λ v. v.now) result ≡ spec.last_to field assignments.now }
{
    let mut rest = assignments;
    while let Some((last, older)) = rest.split_last() {
        if is_field(last.field, field) {
            return Some(&last.value);
        }
        rest = older;
    }
    None
}

/// What an action gives a field.
fn given_by<'a>(field: EntryField, action: &'a Action) -> Option<&'a Value>
    ensures { option_map (λ v. v.now) result ≡ spec.last_to field (spec.assigned action.now) }
{
    match action {
        Action::Assign(assignment) => {
            if is_field(assignment.field, field) {
                Some(&assignment.value)
            } else {
                None
            }
        }
        Action::Skip | Action::End => None,
    }
}

/// What the last action that assigns to a field gives it.
#[tactic(auto, using(crate::proofs::Chosen::this_action, crate::proofs::Chosen::not_this_action, crate::proofs::Chosen::no_more))]
fn last_action<'a>(field: EntryField, actions: &'a [Action]) -> Option<&'a Value>
    ensures { option_map (λ v. v.now) result
        ≡ spec.last_to field (flat_map spec.assigned actions.now) }
{
    let mut rest = actions;
    while let Some((last, older)) = rest.split_last() {
        match given_by(field, last) {
            Some(value) => return Some(value),
            None => {}
        }
        rest = older;
    }
    None
}

/// What the last block that assigns to a field gives it.
#[tactic(auto, using(crate::proofs::Chosen::this_place, crate::proofs::Chosen::not_this_place, crate::proofs::Chosen::no_place))]
fn last_block<'a>(field: EntryField, blocks: &[&'a Block]) -> Option<&'a Value>
    ensures { option_map (λ v. v.now) result
        ≡ spec.last_to field
        (flat_map spec.assigned (spec.actions_in (map (λ b. b.now) blocks.now))) }
{
    let mut left = blocks.len();
    while 0 < left {
        left -= 1;
        match last_action(field, blocks[left].actions.as_slice()) {
            Some(value) => return Some(value),
            None => {}
        }
    }
    None
}

/// What a field is given: by the last assignment in a block that applies, else by the last outside.
fn chosen<'a>(sheet: &'a Sheet, blocks: &[&'a Block], field: EntryField) -> Option<&'a Value>
    ensures { option_map (λ v. v.now) result
        ≡ spec.chosen sheet.now (map (λ b. b.now) blocks.now) field }
{
    match last_block(field, blocks) {
        Some(value) => Some(value),
        None => last_to(field, sheet.assignments.as_slice()),
    }
}

/// A field's text, which is empty where nothing is given.
fn text_for(
    alloc: Global,
    sheet: &Sheet,
    columns: &[Text],
    blocks: &[&Block],
    field: EntryField,
) -> Result<Text, Memory>
    ensures { IfOk result (λ text. text
        ≡ spec.text_for sheet.now columns.now (map (λ b. b.now) blocks.now) field) }
{
    match chosen(sheet, blocks, field) {
        Some(value) => value_text(alloc, value, sheet.names.as_slice(), columns),
        None => Ok(Text::new(alloc)),
    }
}

/// The texts of all fields of a record.
pub fn read_fields(
    alloc: Global,
    sheet: &Sheet,
    columns: &[Text],
    blocks: &[&Block],
) -> Result<Fields, Memory>
    ensures { IfOk result (λ fields. fields
        ≡ spec.fields_for sheet.now columns.now (map (λ b. b.now) blocks.now)) }
{
    Ok(Fields {
        date: text_for(alloc, sheet, columns, blocks, EntryField::Date)?,
        status: text_for(alloc, sheet, columns, blocks, EntryField::Status)?,
        code: text_for(alloc, sheet, columns, blocks, EntryField::Code)?,
        description: text_for(alloc, sheet, columns, blocks, EntryField::Description)?,
        comment: text_for(alloc, sheet, columns, blocks, EntryField::Comment)?,
        account1: text_for(alloc, sheet, columns, blocks, EntryField::Account1)?,
        account2: text_for(alloc, sheet, columns, blocks, EntryField::Account2)?,
        amount: text_for(alloc, sheet, columns, blocks, EntryField::Amount)?,
        amount_in: text_for(alloc, sheet, columns, blocks, EntryField::AmountIn)?,
        amount_out: text_for(alloc, sheet, columns, blocks, EntryField::AmountOut)?,
        amount2: text_for(alloc, sheet, columns, blocks, EntryField::Amount2)?,
        currency: text_for(alloc, sheet, columns, blocks, EntryField::Currency)?,
    })
}
