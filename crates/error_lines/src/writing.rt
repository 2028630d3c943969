//! Lines of texts and numbers.
ghost use Rattle.std.specs.Prelude.{◌≡◌, ◌++◌, ◌∷◌, [], IfOk};
ghost use Rattle.std.specs.Fmt.{decimal};
ghost use Rattle.std.specs.String.{string_bytes};
ghost use Rattle.hl_base.specs.Ascii.{line_feed};
ghost use Rattle.error_lines.specs.Lines as spec;

use hl_base::{Bytes, Memory};
use std::alloc::Global;
use std::string::ToString;

/// A text with its line end.
fn ended(mut line: String) -> Result<Bytes, Memory>
    ensures { IfOk result (λ bytes. bytes ≡ string_bytes line ++ (line_feed ∷ [])) }
{
    line.push_str("\n")?;
    Ok(Bytes::from_vec(line.into_bytes()))
}

/// A line of one text.
pub fn line(alloc: Global, text: &str) -> Result<Bytes, Memory>
    ensures { IfOk result (λ line. line ≡ spec.ended text.now) }
{
    ended(String::from_str(alloc, text)?)
}

/// A line that ends with another text.
pub fn with_text(alloc: Global, front: &str, text: &str) -> Result<Bytes, Memory>
    ensures { IfOk result (λ line. line ≡ spec.ended (front.now ++ text.now)) }
{
    let mut line = String::from_str(alloc, front)?;
    line.push_str(text)?;
    ended(line)
}

/// A line that ends with a number.
pub fn with_number(alloc: Global, front: &str, number: u64) -> Result<Bytes, Memory>
    ensures { IfOk result (λ line. line ≡ spec.ended (front.now ++ decimal number)) }
{
    let mut line = String::from_str(alloc, front)?;
    line.push_str(number.to_string(alloc)?.as_str())?;
    ended(line)
}

/// A line of a text, a number and a text.
pub(crate) fn around_number(
    alloc: Global,
    front: &str,
    number: u64,
    back: &str,
) -> Result<Bytes, Memory>
    ensures { IfOk result (λ line. line ≡ spec.ended (front.now ++ decimal number ++ back.now)) }
{
    let mut line = String::from_str(alloc, front)?;
    line.push_str(number.to_string(alloc)?.as_str())?;
    line.push_str(back)?;
    ended(line)
}

/// A line of two texts, each with a number behind it.
pub(crate) fn two_numbers(
    alloc: Global,
    front: &str,
    number: u64,
    middle: &str,
    last: u64,
) -> Result<Bytes, Memory>
    ensures { IfOk result (λ line. line ≡ spec.two_numbers front.now number middle.now last) }
{
    let mut line = String::from_str(alloc, front)?;
    line.push_str(number.to_string(alloc)?.as_str())?;
    line.push_str(middle)?;
    line.push_str(last.to_string(alloc)?.as_str())?;
    ended(line)
}

/// A line of two texts, each with another one behind it.
pub(crate) fn two_texts(
    alloc: Global,
    front: &str,
    text: &str,
    middle: &str,
    last: &str,
) -> Result<Bytes, Memory>
    ensures { IfOk result (λ line. line ≡ spec.two_texts front.now text.now middle.now last.now) }
{
    let mut line = String::from_str(alloc, front)?;
    line.push_str(text)?;
    line.push_str(middle)?;
    line.push_str(last)?;
    ended(line)
}
