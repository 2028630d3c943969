//! Patterns of terms: words, and sources of regexes.
ghost use Rattle.std.specs.Prelude.{◌≡◌, ◌++◌, true, IfOk, codes};
ghost use Rattle.std.specs.Str.{is_utf8};
ghost use Rattle.std.specs.String.{string_bytes};
ghost use Rattle.query_terms.specs.Patterns as spec;

use crate::cutting::{str_of, text_of};
use crate::kinds::Pattern;
use hl_base::{Memory, Text};
use std::alloc::Global;

/// Whether a byte is one of `\ . + * ? ( ) | [ ] { } ^ $`.
fn is_special(byte: u8) -> bool
    ensures { result ≡ spec.is_special byte }
{
    br"\.+*?()|[]{}^$".iter().any(|special| *special == byte)
}

/// Whether a text has no special character.
fn is_plain(text: &[u8]) -> bool
    ensures { result ≡ spec.is_plain text.now }
{
    text.iter().all(|byte| !is_special(*byte))
}

/// The pattern that a text is.
pub fn read_pattern(alloc: Global, text: &[u8]) -> Result<Pattern, Memory>
    requires { is_utf8 text.now ≡ true }
    ensures { IfOk result (λ pattern. pattern ≡ spec.pattern_of text.now) }
{
    let copy = text_of(alloc, text)?;
    if is_plain(text) {
        Ok(Pattern::Word(copy))
    } else {
        Ok(Pattern::Special(copy))
    }
}

/// The source of the regex that matches whole texts alone.
fn whole_source(alloc: Global, text: &[u8]) -> Result<Text, Memory>
    requires { is_utf8 text.now ≡ true }
    ensures { IfOk result (λ source. source ≡ spec.whole_source text.now) }
{
    let mut source = String::from_str(alloc, "^(?:")?;
    source.push_str(str_of(text))?;
    source.push_str(")$")?;
    Ok(Text::from_string(source))
}

/// The pattern of a symbol, which matches whole symbols.
pub fn read_symbol(alloc: Global, text: &[u8]) -> Result<Pattern, Memory>
    requires { is_utf8 text.now ≡ true }
    ensures { IfOk result (λ pattern. pattern ≡ spec.symbol_of text.now) }
{
    if is_plain(text) {
        Ok(Pattern::Word(text_of(alloc, text)?))
    } else {
        Ok(Pattern::Special(whole_source(alloc, text)?))
    }
}
