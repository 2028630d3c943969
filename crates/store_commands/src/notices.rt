//! What a dry run of an import says of its rules: the columns that they refer to and don't name.
ghost use Rattle.std.specs.Prelude.{◌≡◌, ◌++◌, IfOk, OnOk};
ghost use Rattle.std.specs.List.{flat_map};
ghost use Rattle.std.specs.String.{string_bytes};
ghost use Rattle.store_commands.specs.Notices as spec;

use csv_rules::{Reference, unknown_columns};
use desk::Request;
use hl_base::{Bytes, Memory};
use std::alloc::Global;
use std::string::ToString;

/// The line on a column that a rule refers to and that there isn't.
fn notice_line(alloc: Global, reference: &Reference) -> Result<String, Memory>
    ensures { IfOk result (λ line. string_bytes line ≡ spec.notice_line reference.now) }
{
    let mut line = String::from_str(alloc, "note: rule line ")?;
    line.push_str(reference.line.to_string(alloc)?.as_str())?;
    line.push_str(": no column ")?;
    line.push_str(reference.name.as_str())?;
    line.push_str("\n")?;
    Ok(line)
}

fn push_notice(alloc: Global, text: &mut String, reference: &Reference) -> Result<(), Memory>
    ensures { OnOk result (string_bytes text.new ≡ string_bytes text.old
        ++ spec.notice_line reference.now) }
{
    let line = notice_line(alloc, reference)?;
    text.push_str(line.as_str())?;
    Ok(())
}

/// The lines on some columns.
#[tactic(auto, using(crate::proofs::NoticeLaws::lines_more, crate::proofs::NoticeLaws::lines_done))]
fn notice_lines(alloc: Global, references: &[Reference]) -> Result<Bytes, Memory>
    ensures { IfOk result (λ lines. lines ≡ flat_map spec.notice_line references.now) }
{
    let mut text = String::new(alloc);
    for reference in references {
        push_notice(alloc, &mut text, reference)?;
    }
    Ok(Bytes::from_vec(text.into_bytes()))
}

/// What a dry run of an import says of its rules: a line for each column that they refer to and don't name, with the first line
/// of the rules that does. Nothing where a line of the rules isn't of its form or their last block has no assignment; whether the
/// patterns compile doesn't matter.
pub fn import_notices(alloc: Global, request: &Request) -> Result<Bytes, Memory>
    ensures { IfOk result (λ lines. lines ≡ spec.notices_of request.now) }
{
    match request {
        Request::Import { rules, .. } => {
            let references = unknown_columns(alloc, rules.as_slice())?;
            notice_lines(alloc, references.as_slice())
        }
        _ => Ok(Bytes::new(alloc)),
    }
}
