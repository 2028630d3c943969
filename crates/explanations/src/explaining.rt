//! The lines that explain a fault.
ghost use Rattle.std.specs.Prelude.{◌≡◌, IfOk, codes};
ghost use Rattle.std.specs.String.{string_bytes};
ghost use Rattle.book.specs.FaultLine.{ended};
ghost use Rattle.explanations.specs.Explained as spec;

use crate::lines::line_numbered;
use crate::sentences::sentence_of;
use book::{Fault, print_fault};
use hl_base::bytes::joined;
use hl_base::{Bytes, Memory};
use std::alloc::Global;
use std::string::ToString;

/// A line of a text with its number.
fn excerpt(alloc: Global, number: u64, line: &[u8]) -> Result<Vec<u8>, Memory>
    ensures { IfOk result (λ text. text.items ≡ spec.excerpt number line.now) }
{
    let mut text = number.to_string(alloc)?;
    text.push_str(" | ")?;
    let mut bytes = text.into_bytes();
    bytes.extend_from_slice(line)?;
    bytes.push(b'\n')?;
    Ok(bytes)
}

/// A sentence as a line.
fn sentence_line(alloc: Global, sentence: &str) -> Result<Vec<u8>, Memory>
    ensures { IfOk result (λ text. text.items ≡ ended sentence.now) }
{
    let mut text = String::from_str(alloc, sentence)?;
    text.push_str("\n")?;
    Ok(text.into_bytes())
}

/// A line of a text with its number, and a sentence on it.
fn below(alloc: Global, number: u64, line: &[u8], sentence: &str) -> Result<Vec<u8>, Memory>
    ensures { IfOk result (λ text. text.items ≡ spec.below number line.now sentence.now) }
{
    let shown = excerpt(alloc, number, line)?;
    let said = sentence_line(alloc, sentence)?;
    joined(alloc, shown.as_slice(), said.as_slice())
}

/// The error line of a fault in a line, the line with its number, and a sentence on what is wrong.
fn explain_in(alloc: Global, line: &[u8], fault: &Fault) -> Result<Bytes, Memory>
    ensures { IfOk result (λ text. text ≡ spec.explained_in line.now fault.now) }
{
    let told = print_fault(alloc, fault)?;
    let more = below(alloc, fault.line, line, sentence_of(&fault.cause, line))?;
    Ok(Bytes::from_vec(joined(alloc, told.as_slice(), more.as_slice())?))
}

/// The error line of a fault of a text, `error: line L: CAUSE`; then the line of the text with its number, and one sentence on
/// what is wrong and how it is mended.
#[tactic(auto, unfolding(crate::specs::Explained::explained))]
pub fn explain(alloc: Global, text: &[u8], fault: &Fault) -> Result<Bytes, Memory>
    ensures { IfOk result (λ lines. lines ≡ spec.explained text.now fault.now) }
{
    explain_in(alloc, line_numbered(text, fault.line), fault)
}
