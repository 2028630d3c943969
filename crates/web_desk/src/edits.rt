//! The edits and imports that forms ask for.
ghost use Rattle.std.specs.Prelude.{◌≡◌, IfOk};
ghost use Rattle.std.specs.List.{list_all};
ghost use Rattle.web_desk.specs.Edits as spec;

use desk::Request;
use hl_base::{Bytes, Memory, Text};
use std::alloc::Global;
use web_messages::form::{Parameter, has_named, is_named, number_at, one_value};
use web_messages::refusal::Refusal;

/// Whether a parameter may stand in the form of an edit.
fn is_of_edit(parameter: &Parameter) -> bool
    ensures { result ≡ spec.is_edit_name parameter.now.name }
{
    is_named(parameter, b"base") || is_named(parameter, b"item") || is_named(parameter, b"text")
}

/// Whether all parameters may stand in the form of an edit.
fn are_of_edit(all: &[Parameter]) -> bool
    ensures { result ≡ list_all (λ p. spec.is_edit_name p.name) all.now }
{
    all.iter().all(|parameter| is_of_edit(parameter))
}

/// The number of the item that an edit names, if it names one; None where it isn't one number.
fn item_at(all: &[Parameter]) -> Option<Option<u64>>
    ensures { result ≡ spec.item_at all.now }
{
    if !has_named(all, b"item") {
        return Some(None);
    }
    match number_at(all, b"item") {
        Some(item) => Some(Some(item)),
        None => None,
    }
}

/// An entry in the place of an item, or a text in the place of all.
fn edit_by(alloc: Global, base: u64, item: Option<u64>, text: &Text) -> Result<Request, Memory>
    ensures { IfOk result (λ request. request ≡ spec.edit_by base item text.now) }
{
    let text = Bytes::copied(alloc, text.as_bytes())?;
    match item {
        Some(item) => Ok(Request::Change {
            base,
            item,
            entry: text,
        }),
        None => Ok(Request::Replace { base, text }),
    }
}

/// The edit that the parameters of a form ask for.
pub(crate) fn edit_of(alloc: Global, all: &[Parameter]) -> Result<Result<Request, Refusal>, Memory>
    ensures { IfOk result (λ call. call ≡ spec.edit_of all.now) }
{
    if !are_of_edit(all) {
        return Ok(Err(Refusal::Form));
    }
    let Some(base) = number_at(all, b"base") else {
        return Ok(Err(Refusal::Form));
    };
    let Some(item) = item_at(all) else {
        return Ok(Err(Refusal::Form));
    };
    let Some(text) = one_value(all, b"text") else {
        return Ok(Err(Refusal::Form));
    };
    Ok(Ok(edit_by(alloc, base, item, text)?))
}

/// Whether a parameter may stand in the form of an import.
fn is_of_import(parameter: &Parameter) -> bool
    ensures { result ≡ spec.is_import_name parameter.now.name }
{
    is_named(parameter, b"name") || is_named(parameter, b"rules") || is_named(parameter, b"csv")
}

/// Whether all parameters may stand in the form of an import.
fn are_of_import(all: &[Parameter]) -> bool
    ensures { result ≡ list_all (λ p. spec.is_import_name p.name) all.now }
{
    all.iter().all(|parameter| is_of_import(parameter))
}

/// The import of a file by rules under a name.
fn import_by(alloc: Global, name: &Text, rules: &Text, csv: &Text) -> Result<Request, Memory>
    ensures { IfOk result (λ request. request ≡ Request.Import name.now rules.now csv.now) }
{
    let name = Text::copied(alloc, name.as_str())?;
    let rules = Bytes::copied(alloc, rules.as_bytes())?;
    let csv = Bytes::copied(alloc, csv.as_bytes())?;
    Ok(Request::Import { name, rules, csv })
}

/// The import that the parameters of a form ask for.
pub(crate) fn import_of(
    alloc: Global,
    all: &[Parameter],
) -> Result<Result<Request, Refusal>, Memory>
    ensures { IfOk result (λ call. call ≡ spec.import_of all.now) }
{
    if !are_of_import(all) {
        return Ok(Err(Refusal::Form));
    }
    let Some(name) = one_value(all, b"name") else {
        return Ok(Err(Refusal::Form));
    };
    let Some(rules) = one_value(all, b"rules") else {
        return Ok(Err(Refusal::Form));
    };
    let Some(csv) = one_value(all, b"csv") else {
        return Ok(Err(Refusal::Form));
    };
    Ok(Ok(import_by(alloc, name, rules, csv)?))
}
