//! The line that says what is wrong with a text.
ghost use Rattle.std.specs.Prelude.{◌≡◌, ◌++◌, IfOk, codes};
ghost use Rattle.std.specs.String.{string_bytes};
ghost use Rattle.book.specs.FaultLine.{assertion_text, cause_text, fault_line};

use crate::amount::Amount;
use crate::fault::{Cause, Fault};
use crate::printed::print_plain;
use hl_base::{Bytes, Memory};
use std::alloc::Global;
use std::string::ToString;

/// The line of a fault, `error: line L: CAUSE`, with the line feed that ends it. Amounts stand in plain form.
pub fn print_fault(alloc: Global, fault: &Fault) -> Result<Bytes, Memory>
    ensures { IfOk result (λ line. line ≡ fault_line fault.now) }
{
    let mut line = String::from_str(alloc, "error: line ")?;
    line.push_str(fault.line.to_string(alloc)?.as_str())?;
    line.push_str(": ")?;
    line.push_str(cause_words(alloc, &fault.cause)?.as_str())?;
    line.push_str("\n")?;
    Ok(Bytes::from_vec(line.into_bytes()))
}

/// The words for what is wrong.
fn cause_words(alloc: Global, cause: &Cause) -> Result<String, Memory>
    ensures { IfOk result (λ text. string_bytes text ≡ cause_text cause.now) }
{
    match cause {
        Cause::Form => Ok(String::from_str(alloc, "form")?),
        Cause::Date => Ok(String::from_str(alloc, "date")?),
        Cause::Number => Ok(String::from_str(alloc, "number")?),
        Cause::Account => Ok(String::from_str(alloc, "account")?),
        Cause::StatusMark => Ok(String::from_str(alloc, "status mark")?),
        Cause::Directive => Ok(String::from_str(alloc, "directive")?),
        Cause::Quote => Ok(String::from_str(alloc, "quote")?),
        Cause::TooLong => Ok(String::from_str(alloc, "too long")?),
        Cause::Encoding => Ok(String::from_str(alloc, "encoding")?),
        Cause::TwoMissing => Ok(String::from_str(alloc, "two missing amounts")?),
        Cause::NotAllowed => Ok(String::from_str(alloc, "not allowed")?),
        Cause::Unbalanced { symbol, sum } => {
            let mut text = String::from_str(alloc, "unbalanced ")?;
            text.push_str(print_plain(alloc, symbol, *sum.get())?.as_str())?;
            Ok(text)
        }
        Cause::AssertionFailed { wanted, found } => assertion_words(
            alloc,
            wanted.get(),
            found.get(),
        ),
        Cause::Range => Ok(String::from_str(alloc, "range")?),
    }
}

/// The words for an assertion that doesn't hold.
fn assertion_words(alloc: Global, wanted: &Amount, found: &Amount) -> Result<String, Memory>
    ensures { IfOk result (λ text. string_bytes text ≡ assertion_text wanted.now found.now) }
{
    let mut text = String::from_str(alloc, "assertion: wanted ")?;
    text.push_str(print_plain(alloc, &wanted.symbol, wanted.value)?.as_str())?;
    text.push_str(", found ")?;
    text.push_str(print_plain(alloc, &found.symbol, found.value)?.as_str())?;
    Ok(text)
}
