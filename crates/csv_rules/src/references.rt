//! The columns that a file of rules refers to, and which of them it doesn't name.
ghost use Rattle.std.specs.Prelude.{◌≡◌, ◌<◌, ◌++◌, true, IfOk, OnOk};
ghost use Rattle.std.specs.List.{list_any};
ghost use Rattle.std.specs.Str.{is_utf8};
ghost use Rattle.csv_rules.specs.Drafts.{progress_of, put};
ghost use Rattle.csv_rules.specs.References as spec;
ghost use Rattle.csv_rules.specs.Words.{is_same_name};

use crate::drafts::Draft;
use crate::forms::Form;
use crate::kinds::{Action, Condition, Sheet, Value};
use crate::lines::read_form;
use crate::words::{are_digits, cut_column, is_same, is_same_name, value_of};
use entry_reader::scan::{after, before, cut_line, has, text_of};
use hl_base::{List, Memory, Text};
use query_terms::cutting::bytes_of;
use std::alloc::Global;

/// A reference of a rule to a column: the rule's line, counted from 1, and the name or number behind the `%`.
#[derive(Drop)]
pub struct Reference {
    pub line: u64,
    pub name: Text,
}

/// Adds a reference to a column, where a name or a number follows the `%`.
fn push_reference(
    alloc: Global,
    references: &mut Vec<Reference>,
    line: u64,
    name: &[u8],
) -> Result<(), Memory>
    requires { is_utf8 name.now ≡ true }
    ensures { OnOk result (references.new.items ≡ references.old.items
        ++ spec.reference_to line name.now) }
{
    if is_same(name, b"") {
        return Ok(());
    }
    let name = text_of(alloc, name)?;
    references.push(Reference { line, name })?;
    Ok(())
}

/// Adds the reference that the text behind a `%` begins with.
fn push_piece(
    alloc: Global,
    references: &mut Vec<Reference>,
    line: u64,
    piece: &[u8],
) -> Result<(), Memory>
    requires { is_utf8 piece.now ≡ true }
    ensures { OnOk result (references.new.items ≡ references.old.items
        ++ spec.reference_at line piece.now) }
{
    let (name, _) = cut_column(piece);
    push_reference(alloc, references, line, name)
}

/// Adds the references of a text.
#[tactic(auto, using(crate::proofs::ColumnLaws::shorter))]
fn push_text(
    alloc: Global,
    references: &mut Vec<Reference>,
    line: u64,
    text: &[u8],
) -> Result<(), Memory>
    requires { is_utf8 text.now ≡ true }
    ensures { OnOk result (references.new.items ≡ references.old.items
        ++ spec.references_in line text.now) }
{
    let mut rest = text;
    while has(rest, b'%') {
        rest = after(rest, b'%');
        push_piece(alloc, references, line, before(rest, b'%'))?;
    }
    Ok(())
}

fn push_value(
    alloc: Global,
    references: &mut Vec<Reference>,
    line: u64,
    value: &Value,
) -> Result<(), Memory>
    ensures { OnOk result (references.new.items ≡ references.old.items
        ++ spec.value_references line value.now) }
{
    match value {
        Value::Column(_) => Ok(()),
        Value::Written(text) => push_text(alloc, references, line, bytes_of(text.as_str())),
    }
}

fn push_action(
    alloc: Global,
    references: &mut Vec<Reference>,
    line: u64,
    action: &Action,
) -> Result<(), Memory>
    ensures { OnOk result (references.new.items ≡ references.old.items
        ++ spec.action_references line action.now) }
{
    match action {
        Action::Assign(assignment) => push_value(alloc, references, line, &assignment.value),
        Action::Skip | Action::End => Ok(()),
    }
}

/// Adds the column that a pattern looks at alone.
fn push_column(
    alloc: Global,
    references: &mut Vec<Reference>,
    line: u64,
    column: &Option<Text>,
) -> Result<(), Memory>
    ensures { OnOk result (references.new.items ≡ references.old.items
        ++ spec.column_reference line column.now) }
{
    match column {
        Some(name) => push_reference(alloc, references, line, bytes_of(name.as_str())),
        None => Ok(()),
    }
}

/// Adds the column that the pattern looks at alone which a block begins with, if it has one.
fn push_first(
    alloc: Global,
    references: &mut Vec<Reference>,
    line: u64,
    condition: &Option<Condition>,
) -> Result<(), Memory>
    ensures { OnOk result (references.new.items ≡ references.old.items
        ++ spec.first_references line condition.now) }
{
    match condition {
        Some(condition) => push_column(alloc, references, line, &condition.column),
        None => Ok(()),
    }
}

/// Adds the references of a line.
fn push_form(
    alloc: Global,
    references: &mut Vec<Reference>,
    line: u64,
    form: &Form,
) -> Result<(), Memory>
    ensures { OnOk result (references.new.items ≡ references.old.items
        ++ spec.form_references line form.now) }
{
    match form {
        Form::Assign(assignment) => push_value(alloc, references, line, &assignment.value),
        Form::If(condition) => push_first(alloc, references, line, condition),
        Form::Ask(condition) => push_column(alloc, references, line, &condition.column),
        Form::Act(action) => push_action(alloc, references, line, action),
        Form::Remark | Form::Set(_) | Form::Fields(_) | Form::DateFormat(_) => Ok(()),
    }
}

/// Adds what a line says, and its references.
fn take_form(
    alloc: Global,
    line: u64,
    form: Form,
    draft: &mut Draft,
    references: &mut Vec<Reference>,
) -> Result<(), Memory>
    ensures references { OnOk result (references.new.items ≡ references.old.items
        ++ spec.form_references line form) }
    ensures draft { OnOk result (progress_of draft.new ≡ put (progress_of draft.old) form) }
{
    push_form(alloc, references, line, &form)?;
    draft.put(alloc, form)
}

/// Reads the next line, and adds what it says and its references; answers whether it is of its form.
fn take_line(
    alloc: Global,
    line: u64,
    content: &[u8],
    draft: &mut Draft,
    references: &mut Vec<Reference>,
) -> Result<bool, Memory>
    ensures { IfOk result (λ taken. spec.TakesReferences taken line content.now
        (progress_of draft.old) (progress_of draft.new) references.old.items
        references.new.items) }
{
    match read_form(alloc, draft.stage(), content)? {
        Some(form) => {
            take_form(alloc, line, form, draft, references)?;
            Ok(true)
        }
        None => Ok(false),
    }
}

/// Whether a column has a name, with case ignored.
fn is_named(other: &Text, name: &Text) -> bool
    ensures { result ≡ is_same_name other.now name.now }
{
    is_same_name(other.as_str(), name.as_str())
}

/// Whether one of some names is this one.
fn has_name(names: &[Text], name: &Text) -> bool
    ensures { result ≡ list_any (λ other. is_same_name other name.now) names.now }
{
    names.iter().any(|other| is_named(other, name))
}

/// Whether a name or a number is that of a column.
fn is_column(names: &[Text], name: &Text) -> bool
    ensures { result ≡ spec.is_column names.now name.now }
{
    let digits = bytes_of(name.as_str());
    if are_digits(digits) {
        0 < value_of(digits)
    } else {
        has_name(names, name)
    }
}

/// Whether one of some references is to this name.
fn is_among(found: &[Reference], name: &Text) -> bool
    ensures { result ≡ list_any (λ other. is_same_name other.name name.now) found.now }
{
    found.iter().any(|other| is_named(&other.name, name))
}

/// Adds a reference, unless it is to a column or to a name that is there already.
fn add_unknown(
    alloc: Global,
    names: &[Text],
    found: &mut Vec<Reference>,
    reference: &Reference,
) -> Result<(), Memory>
    ensures { OnOk result (found.new.items
        ≡ spec.with_unknown names.now found.old.items reference.now) }
{
    if is_column(names, &reference.name) || is_among(found.as_slice(), &reference.name) {
        return Ok(());
    }
    let name = text_of(alloc, bytes_of(reference.name.as_str()))?;
    found.push(Reference {
        line: reference.line,
        name,
    })?;
    Ok(())
}

/// The first reference to each name that isn't a column's.
#[tactic(auto, using(crate::proofs::ReferenceLaws::unknown_done))]
fn unknown_in(
    alloc: Global,
    names: &[Text],
    references: &[Reference],
) -> Result<List<Reference>, Memory>
    ensures { IfOk result (λ found. found ≡ spec.unknown_in names.now references.now) }
{
    let mut found = Vec::new(alloc);
    for reference in references {
        add_unknown(alloc, names, &mut found, reference)?;
    }
    Ok(List::from_vec(found))
}

/// The unknown references of rules that read, or none.
fn unknown_at(
    alloc: Global,
    sheet: &Option<Sheet>,
    references: &[Reference],
) -> Result<List<Reference>, Memory>
    ensures { IfOk result (λ found. found ≡ spec.unknown_at sheet.now references.now) }
{
    match sheet {
        Some(sheet) => unknown_in(alloc, sheet.names.as_slice(), references),
        None => Ok(List::new(alloc)),
    }
}

/// The columns that a file of rules refers to by `%NAME` or `%N` and doesn't have: for each name the first line that refers to
/// it. None where a line isn't of its form or the last block has no assignment; whether the patterns compile doesn't matter.
#[tactic(auto, using(crate::proofs::Progresses::reached_start, crate::proofs::ReferenceLaws::started))]
pub fn unknown_columns(alloc: Global, text: &[u8]) -> Result<List<Reference>, Memory>
    ensures { IfOk result (λ found. found ≡ spec.unknown_columns text.now) }
{
    let mut draft = Draft::new(alloc);
    let mut references = Vec::new(alloc);
    let mut rest = text;
    let mut line = 1;
    while !rest.is_empty() {
        let (content, after) = cut_line(rest);
        let taken = take_line(alloc, line, content, &mut draft, &mut references)?;
        if !taken {
            return Ok(List::new(alloc));
        }
        rest = after;
        line += 1;
    }
    let sheet = draft.finish(alloc)?;
    unknown_at(alloc, &sheet, references.as_slice())
}
