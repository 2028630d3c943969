//! How accounts are named: behind the names that are applied, and renamed by aliases.
ghost use Rattle.std.specs.Prelude.{◌≡◌, ◌∷◌, true, false, IfOk, OnOk, MatchOption, drop, length};
ghost use Rattle.std.specs.Str.{is_utf8};
ghost use Rattle.std.specs.String.{string_bytes};
ghost use Rattle.entry_reader.specs.Contexts as spec;

use crate::comment::append;
use hl_base::{Memory, Text};
use std::alloc::Global;

/// A name behind others, the first outermost, divided by colons.
pub fn behind_applied(alloc: Global, applied: &[Text], name: &[u8]) -> Result<Text, Memory>
    requires { is_utf8 name.now ≡ true }
    ensures { IfOk result (λ account. account ≡ spec.with_applied applied.now name.now) }
{
    let mut account = String::new(alloc);
    for outer in applied {
        account.push_str(outer.as_str())?;
        account.push_str(":")?;
    }
    append(&mut account, name)?;
    Ok(Text::from_string(account))
}

/// Whether a part of a name ends where a text begins.
fn ends_part(text: &[u8]) -> bool
    ensures { result ≡ spec.ends_part text.now }
{
    match text {
        [] => true,
        [first, ..] => *first == b':',
    }
}

/// What follows an old name, where a name is that or one below it.
fn below<'a>(name: &'a str, old: &str) -> Option<&'a str>
    ensures { MatchOption result (spec.is_under old.now name.now ≡ false)
        (λ rest. (spec.is_under old.now name.now ≡ true)
        × (rest.now ≡ drop (length old.now) name.now)) }
{
    let rest = name.strip_prefix(old)?;
    if ends_part(rest.as_bytes()) {
        Some(rest)
    } else {
        None
    }
}

/// A name after one alias, an old name and a new one.
fn renamed_by(alloc: Global, alias: &(Text, Text), name: Text) -> Result<Text, Memory>
    ensures { IfOk result (λ account. account ≡ spec.renamed_by alias.now name) }
{
    if let Some(rest) = below(name.as_str(), alias.0.as_str()) {
        return Text::joined(alloc, alias.1.as_str(), rest);
    }
    Ok(name)
}

/// A name after each of some aliases, of which the last is tried first.
pub fn renamed_by_each(alloc: Global, aliases: &[(Text, Text)], name: Text) -> Result<Text, Memory>
    ensures { IfOk result (λ account. account ≡ spec.renamed aliases.now name) }
{
    let mut account = name;
    let mut rest = aliases;
    while let Some((newest, older)) = rest.split_last() {
        account = renamed_by(alloc, newest, account)?;
        rest = older;
    }
    Ok(account)
}
