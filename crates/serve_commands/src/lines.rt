//! What is said of serving a store: the exit status and the line.
ghost use Rattle.std.specs.Prelude.{◌≡◌, ◌++◌, ◌^◌, ◌<◌, IfOk};
ghost use Rattle.std.specs.Fmt.{decimal};
ghost use Rattle.std.specs.String.{string_bytes};
ghost use Rattle.serve_commands.specs.Lines as spec;

use crate::outcome::{Tally, Unserved};
use desk_team::HouseFault;
use error_lines::{door_fault, memory};
use hl_base::{Bytes, Memory, Text};
use std::alloc::Global;
use std::string::ToString;
use store_making::{journal_line, journal_status};

/// A word and a number.
fn counted(alloc: Global, word: &str, number: u64) -> Result<String, Memory>
    ensures text { IfOk result (λ text. string_bytes text ≡ word.now ++ decimal number) }
    ensures small { number < 2 ^ 64 }
{
    let mut text = String::from_str(alloc, word)?;
    text.push_str(number.to_string(alloc)?.as_str())?;
    Ok(text)
}

/// The line of what is told when all workers have ended.
pub fn tally_line(alloc: Global, tally: &Tally) -> Result<Bytes, Memory>
    ensures line { IfOk result (λ line. line ≡ spec.tally_line tally.now) }
    ensures small { IfOk result (λ line. (tally.now.revision < 2 ^ 64)
        × (tally.now.requests < 2 ^ 64) × (tally.now.refused < 2 ^ 64)) }
{
    let mut line = counted(alloc, "revision ", tally.revision)?;
    let requests = counted(alloc, ", requests ", tally.requests)?;
    line.push_str(requests.as_str())?;
    let refused = counted(alloc, ", refused ", tally.refused)?;
    line.push_str(refused.as_str())?;
    line.push_str("\n")?;
    Ok(Bytes::from_vec(line.into_bytes()))
}

fn house_line(alloc: Global, fault: HouseFault) -> Result<Bytes, Memory>
    ensures { IfOk result (λ line. line ≡ spec.house_line fault) }
{
    match fault {
        HouseFault::Failed => door_fault(alloc),
        HouseFault::Memory => memory(alloc),
    }
}

/// The line that says why a store of this name wasn't served.
pub fn unserved_line(alloc: Global, name: &Text, unserved: &Unserved) -> Result<Bytes, Memory>
    ensures { IfOk result (λ line. line ≡ spec.line_of name.now unserved.now) }
{
    match unserved {
        Unserved::Store(refusal) => journal_line(alloc, name, refusal),
        Unserved::House(fault) => house_line(alloc, *fault),
    }
}

fn house_status(fault: HouseFault) -> u8
    ensures { result ≡ spec.house_status fault }
{
    match fault {
        HouseFault::Failed => 9,
        HouseFault::Memory => 6,
    }
}

/// The exit status of such a refusal: that of the store where it wasn't opened, 9 where the house failed, and 6 where memory ran
/// out.
pub fn unserved_status(unserved: &Unserved) -> u8
    ensures { result ≡ spec.status_of unserved.now }
{
    match unserved {
        Unserved::Store(refusal) => journal_status(refusal),
        Unserved::House(fault) => house_status(*fault),
    }
}
