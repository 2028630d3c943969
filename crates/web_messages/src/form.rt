//! The parameters of queries and forms.
ghost use Rattle.std.specs.Prelude.{◌≡◌, ◌∷◌, IfOk, map};
ghost use Rattle.std.specs.List.{list_all, list_any};
ghost use Rattle.std.specs.Option.{option_map};
ghost use Rattle.std.specs.Str.{bytes_eq};
ghost use Rattle.web_messages.specs.Forms.{decoded, number_at, number_in, one_of, only_value, parameters_of, values_at};

use crate::fields::number;
use form_urlencoded::{decode, raw_pairs};
use hl_base::{List, Memory, Text};
use std::alloc::Global;

/// A parameter of a query or a form, decoded.
#[derive(Debug, Drop)]
pub struct Parameter {
    pub name: Text,
    pub value: Text,
}

/// The text that an encoded name or value stands for; what isn't UTF-8 becomes U+FFFD.
fn decoded_text(alloc: Global, bytes: &[u8]) -> Result<Text, Memory>
    ensures { IfOk result (λ text. text ≡ decoded bytes.now) }
{
    let text = decode(alloc, bytes)?;
    Ok(Text::from_string(text.into_owned(alloc)?))
}

/// The parameters of a query or a form, in order.
pub fn parameters(alloc: Global, text: &[u8]) -> Result<List<Parameter>, Memory>
    ensures { IfOk result (λ all. all ≡ parameters_of text.now) }
{
    let mut all = Vec::new(alloc);
    for (name, value) in raw_pairs(text) {
        let name = decoded_text(alloc, name)?;
        let value = decoded_text(alloc, value)?;
        all.push(Parameter { name, value })?;
    }
    Ok(List::from_vec(all))
}

/// The value of the one parameter, which has to have this name.
pub fn take_only(all: List<Parameter>, name: &[u8]) -> Option<Text>
    ensures { result ≡ only_value name.now all }
{
    let mut all = all.into_vec();
    let last = all.pop()?;
    if all.is_empty() && last.name.as_bytes() == name {
        Some(last.value)
    } else {
        None
    }
}

/// The number that the value of the one parameter is, which has to have this name.
pub fn only_number(all: List<Parameter>, name: &[u8]) -> Option<u64>
    ensures { result ≡ number_in (only_value name.now all) }
{
    match take_only(all, name) {
        Some(text) => number(text.as_bytes()),
        None => None,
    }
}

/// Whether a parameter has a name.
pub fn is_named(parameter: &Parameter, name: &[u8]) -> bool
    ensures { result ≡ bytes_eq parameter.now.name name.now }
{
    parameter.name.as_bytes() == name
}

/// Whether some parameter has a name.
pub fn has_named(all: &[Parameter], name: &[u8]) -> bool
    ensures { result ≡ list_any (λ p. bytes_eq p.name name.now) all.now }
{
    for parameter in all {
        if is_named(parameter, name) {
            return true;
        }
    }
    false
}

/// The value of the one parameter of a name.
pub fn one_value<'a>(all: &'a [Parameter], name: &[u8]) -> Option<&'a Text>
    ensures { option_map (λ text. text.now) result ≡ one_of (values_at name.now all.now) }
{
    for i in 0..all.len() {
        if is_named(&all[i], name) {
            if has_named(&all[i + 1..], name) {
                return None;
            }
            return Some(&all[i].value);
        }
    }
    None
}

/// The number that the value of the one parameter of a name is.
pub fn number_at(all: &[Parameter], name: &[u8]) -> Option<u64>
    ensures { result ≡ number_at name.now all.now }
{
    match one_value(all, name) {
        Some(text) => number(text.as_bytes()),
        None => None,
    }
}

/// Whether all parameters have this name.
pub fn all_named(all: &[Parameter], name: &[u8]) -> bool
    ensures { result ≡ list_all (λ p. bytes_eq p.name name.now) all.now }
{
    all.iter()
        .all(|parameter| parameter.name.as_bytes() == name)
}

/// The values of parameters, after one more word.
pub fn take_values(alloc: Global, first: Text, all: List<Parameter>) -> Result<List<Text>, Memory>
    ensures { IfOk result (λ words. words ≡ first ∷ map (λ p. p.value) all) }
{
    let mut words = Vec::new(alloc);
    words.push(first)?;
    for parameter in all.into_vec() {
        words.push(parameter.value)?;
    }
    Ok(List::from_vec(words))
}
