//! The lines of a file of rules, one by one.
ghost use Rattle.std.specs.Prelude.{◌≡◌, ◌<◌, true, IfOk};
ghost use Rattle.std.specs.Str.{is_utf8};
ghost use Rattle.entry_reader.specs.Lines.{starts_ascii};
ghost use Rattle.csv_rules.specs.Forms as spec;

use crate::columns::read_names;
use crate::formats::read_format;
use crate::forms::{Form, Setting, Stage, Word};
use crate::kinds::{Action, Assignment, Condition, EntryField, Value};
use crate::words::{are_digits, cut_column, cut_name, field_named, is_same, value_of, word_of};
use entry_reader::scan::{after_white, begins, begins_white, is_utf8, past_first, text_of};
use hl_base::{Memory, Text};
use query_terms::{Pattern, read_pattern};
use std::alloc::Global;

/// Whether a line is blank, or begins with `#`, `;` or `*`.
fn is_ignored(content: &[u8]) -> bool
    ensures { result ≡ spec.is_ignored content.now }
{
    is_same(content, b"") || begins(content, b'#') || begins(content, b';') || begins(content, b'*')
}

/// What `skip` says, of what stands behind the word.
fn skip_of(rest: &[u8]) -> Option<u64>
    ensures { result ≡ spec.skip_of rest.now }
{
    if is_same(rest, b"") {
        return Some(1);
    }
    let text = after_white(rest);
    if begins_white(rest) && are_digits(text) {
        Some(value_of(text))
    } else {
        None
    }
}

fn skip_form(rest: &[u8]) -> Option<Form>
    ensures { result ≡ spec.skip_form rest.now }
{
    match skip_of(rest) {
        Some(count) => Some(Form::Set(Setting::Skip(count))),
        None => None,
    }
}

/// The one byte that a text is.
fn byte_of(text: &[u8]) -> Option<u8>
    ensures { result ≡ spec.byte_of text.now }
{
    match text {
        [byte] => Some(*byte),
        _ => None,
    }
}

/// The byte between columns that a text names.
fn separator_of(text: &[u8]) -> Option<u8>
    ensures { result ≡ spec.separator_of text.now }
{
    if is_same(text, b"SPACE") {
        Some(b' ')
    } else if is_same(text, b"TAB") {
        Some(b'\t')
    } else {
        byte_of(text)
    }
}

fn separator_form(rest: &[u8]) -> Option<Form>
    ensures { result ≡ spec.separator_form rest.now }
{
    if !begins_white(rest) {
        return None;
    }
    match separator_of(after_white(rest)) {
        Some(byte) => Some(Form::Set(Setting::Separator(byte))),
        None => None,
    }
}

/// The decimal mark that a text is.
fn mark_of(text: &[u8]) -> Option<u8>
    ensures { result ≡ spec.mark_of text.now }
{
    if is_same(text, b".") {
        Some(b'.')
    } else if is_same(text, b",") {
        Some(b',')
    } else {
        None
    }
}

fn mark_form(rest: &[u8]) -> Option<Form>
    ensures { result ≡ spec.mark_form rest.now }
{
    if !begins_white(rest) {
        return None;
    }
    match mark_of(after_white(rest)) {
        Some(byte) => Some(Form::Set(Setting::DecimalMark(byte))),
        None => None,
    }
}

/// A setting of one word, which nothing follows.
fn alone(rest: &[u8], setting: Setting) -> Option<Form>
    ensures { result ≡ spec.alone rest.now setting }
{
    if is_same(rest, b"") {
        Some(Form::Set(setting))
    } else {
        None
    }
}

fn read_fields(alloc: Global, rest: &[u8]) -> Result<Option<Form>, Memory>
    requires { is_utf8 rest.now ≡ true }
    ensures { IfOk result (λ form. form ≡ spec.fields_form rest.now) }
{
    if !begins_white(rest) {
        return Ok(None);
    }
    Ok(Some(Form::Fields(read_names(alloc, after_white(rest))?)))
}

fn read_date_format(alloc: Global, rest: &[u8]) -> Result<Option<Form>, Memory>
    ensures { IfOk result (λ form. form ≡ spec.format_form rest.now) }
{
    if !begins_white(rest) {
        return Ok(None);
    }
    match read_format(alloc, after_white(rest))? {
        Some(parts) => Ok(Some(Form::DateFormat(parts))),
        None => Ok(None),
    }
}

/// Whether a value may stand behind the name of a field: none, or one behind a colon or white space.
fn begins_value(rest: &[u8]) -> bool
    ensures { result ≡ spec.begins_value rest.now }
{
    is_same(rest, b"") || begins(rest, b':') || begins_white(rest)
}

/// The value behind the name of a field.
fn value_text(rest: &[u8]) -> &[u8]
    ensures value { result.now ≡ spec.value_text rest.now }
    ensures utf8 { is_utf8 rest.now ≡ true → is_utf8 result.now ≡ true }
{
    after_mark(b':', rest)
}

/// What follows a mark and white space, where the text begins with the mark.
fn after_mark(mark: u8, text: &[u8]) -> &[u8]
    requires { mark < 128 }
    ensures value { result.now ≡ spec.after_mark mark text.now }
    ensures utf8 { is_utf8 text.now ≡ true → is_utf8 result.now ≡ true }
{
    if begins(text, mark) {
        after_white(past_first(text))
    } else {
        after_white(text)
    }
}

/// The assignment of what stands behind the name of a field.
fn read_assignment(
    alloc: Global,
    field: EntryField,
    rest: &[u8],
) -> Result<Option<Assignment>, Memory>
    requires { is_utf8 rest.now ≡ true }
    ensures { IfOk result (λ assignment. assignment ≡ spec.assignment_of field rest.now) }
{
    if !begins_value(rest) {
        return Ok(None);
    }
    let value = Value::Written(text_of(alloc, value_text(rest))?);
    Ok(Some(Assignment { field, value }))
}

fn read_assign(alloc: Global, field: EntryField, rest: &[u8]) -> Result<Option<Form>, Memory>
    requires { is_utf8 rest.now ≡ true }
    ensures { IfOk result (λ form. form ≡ spec.assign_form field rest.now) }
{
    match read_assignment(alloc, field, rest)? {
        Some(assignment) => Ok(Some(Form::Assign(assignment))),
        None => Ok(None),
    }
}

/// Whether a text begins with the name of a column.
fn begins_column(text: &[u8]) -> bool
    requires { is_utf8 text.now ≡ true }
    ensures { result ≡ spec.begins_column text.now }
{
    let (name, _) = cut_column(text);
    !is_same(name, b"")
}

/// Whether a pattern is to look at one column alone.
fn names_column(text: &[u8]) -> bool
    requires { is_utf8 text.now ≡ true }
    ensures value { result ≡ spec.names_column text.now }
    ensures ascii { result ≡ true → starts_ascii text.now ≡ true }
{
    begins(text, b'%') && begins_column(past_first(text))
}

/// The name or number of the column that a pattern looks at alone.
fn read_column(alloc: Global, text: &[u8]) -> Result<Option<Text>, Memory>
    requires { is_utf8 text.now ≡ true }
    ensures { IfOk result (λ column. column ≡ spec.column_at text.now) }
{
    if names_column(text) {
        let (name, _) = cut_column(past_first(text));
        Ok(Some(text_of(alloc, name)?))
    } else {
        Ok(None)
    }
}

/// What stands behind the column that a pattern looks at alone.
fn after_column(text: &[u8]) -> &[u8]
    requires { is_utf8 text.now ≡ true }
    ensures value { result.now ≡ spec.after_column text.now }
    ensures utf8 { is_utf8 result.now ≡ true }
{
    if names_column(text) {
        let (_, rest) = cut_column(past_first(text));
        after_white(rest)
    } else {
        text
    }
}

/// The pattern of a line with a pattern, which may be empty: what stands behind the marks and the name of the column.
pub fn pattern_text(text: &[u8]) -> &[u8]
    requires { is_utf8 text.now ≡ true }
    ensures { result.now ≡ spec.pattern_text text.now }
{
    after_column(after_mark(b'!', after_mark(b'&', text)))
}

/// The condition of a line with a pattern, from the column on.
fn read_sought(
    alloc: Global,
    joined: bool,
    negated: bool,
    text: &[u8],
) -> Result<Option<Condition>, Memory>
    requires { is_utf8 text.now ≡ true }
    ensures { IfOk result (λ condition. condition ≡ spec.sought joined negated text.now) }
{
    let pattern = after_column(text);
    if is_same(pattern, b"") {
        return Ok(None);
    }
    let column = read_column(alloc, text)?;
    let pattern = read_pattern(alloc, pattern)?;
    Ok(Some(Condition {
        joined,
        negated,
        column,
        pattern,
    }))
}

/// The condition of a line with a pattern.
fn read_condition(alloc: Global, text: &[u8]) -> Result<Option<Condition>, Memory>
    requires { is_utf8 text.now ≡ true }
    ensures { IfOk result (λ condition. condition ≡ spec.condition_of text.now) }
{
    let behind = after_mark(b'&', text);
    read_sought(
        alloc,
        begins(text, b'&'),
        begins(behind, b'!'),
        after_mark(b'!', behind),
    )
}

fn read_if(alloc: Global, rest: &[u8]) -> Result<Option<Form>, Memory>
    requires { is_utf8 rest.now ≡ true }
    ensures { IfOk result (λ form. form ≡ spec.if_form rest.now) }
{
    if is_same(rest, b"") {
        return Ok(Some(Form::If(None)));
    }
    if !begins_white(rest) {
        return Ok(None);
    }
    match read_condition(alloc, after_white(rest))? {
        Some(condition) => Ok(Some(Form::If(Some(condition)))),
        None => Ok(None),
    }
}

/// What a line outside blocks says that begins with a word, of what stands behind the word.
fn read_by(alloc: Global, word: Word, rest: &[u8]) -> Result<Option<Form>, Memory>
    requires { is_utf8 rest.now ≡ true }
    ensures { IfOk result (λ form. form ≡ spec.form_by word rest.now) }
{
    match word {
        Word::Skip => Ok(skip_form(rest)),
        Word::Separator => Ok(separator_form(rest)),
        Word::Fields => read_fields(alloc, rest),
        Word::DateFormat => read_date_format(alloc, rest),
        Word::NewestFirst => Ok(alone(rest, Setting::NewestFirst)),
        Word::IntradayReversed => Ok(alone(rest, Setting::IntradayReversed)),
        Word::DecimalMark => Ok(mark_form(rest)),
        Word::If => read_if(alloc, rest),
        Word::Field(field) => read_assign(alloc, field, rest),
        Word::Other => Ok(None),
    }
}

/// What a line outside blocks says.
fn read_rule(alloc: Global, content: &[u8]) -> Result<Option<Form>, Memory>
    requires { is_utf8 content.now ≡ true }
    ensures { IfOk result (λ form. form ≡ spec.rule_of content.now) }
{
    let (word, rest) = cut_name(content);
    read_by(alloc, word_of(word), rest)
}

/// What a line with a pattern says.
fn read_ask(alloc: Global, content: &[u8]) -> Result<Option<Form>, Memory>
    requires { is_utf8 content.now ≡ true }
    ensures { IfOk result (λ form. form ≡ spec.ask_of content.now) }
{
    match read_condition(alloc, content)? {
        Some(condition) => Ok(Some(Form::Ask(condition))),
        None => Ok(None),
    }
}

/// What an indented line of a block assigns.
fn read_given(alloc: Global, text: &[u8]) -> Result<Option<Form>, Memory>
    requires { is_utf8 text.now ≡ true }
    ensures { IfOk result (λ form. form ≡ spec.given_of text.now) }
{
    let (word, rest) = cut_name(text);
    let Some(field) = field_named(false, word) else {
        return Ok(None);
    };
    match read_assignment(alloc, field, rest)? {
        Some(assignment) => Ok(Some(Form::Act(Action::Assign(assignment)))),
        None => Ok(None),
    }
}

/// What an indented line of a block says.
fn read_act(alloc: Global, text: &[u8]) -> Result<Option<Form>, Memory>
    requires { is_utf8 text.now ≡ true }
    ensures { IfOk result (λ form. form ≡ spec.act_of text.now) }
{
    if is_same(text, b"skip") {
        Ok(Some(Form::Act(Action::Skip)))
    } else if is_same(text, b"end") {
        Ok(Some(Form::Act(Action::End)))
    } else {
        read_given(alloc, text)
    }
}

/// What an indented line says.
fn read_indented(alloc: Global, stage: Stage, content: &[u8]) -> Result<Option<Form>, Memory>
    requires { is_utf8 content.now ≡ true }
    ensures { IfOk result (λ form. form ≡ spec.indented_form stage content.now) }
{
    match stage {
        Stage::Outside | Stage::Opened => Ok(None),
        Stage::Asking | Stage::Acting => read_act(alloc, after_white(content)),
    }
}

/// What a line says that isn't indented.
fn read_plain(alloc: Global, stage: Stage, content: &[u8]) -> Result<Option<Form>, Memory>
    requires { is_utf8 content.now ≡ true }
    ensures { IfOk result (λ form. form ≡ spec.plain_form stage content.now) }
{
    match stage {
        Stage::Outside | Stage::Acting => read_rule(alloc, content),
        Stage::Opened | Stage::Asking => read_ask(alloc, content),
    }
}

/// What a line says that stands there, if it is of a form.
#[tactic(auto, unfolding(crate::specs::Forms::form_of))]
pub(crate) fn read_form(alloc: Global, stage: Stage, content: &[u8]) -> Result<Option<Form>, Memory>
    ensures { IfOk result (λ form. form ≡ spec.form_of stage content.now) }
{
    if is_ignored(content) {
        return Ok(Some(Form::Remark));
    }
    if !is_utf8(content) {
        return Ok(None);
    }
    if begins_white(content) {
        read_indented(alloc, stage, content)
    } else {
        read_plain(alloc, stage, content)
    }
}
