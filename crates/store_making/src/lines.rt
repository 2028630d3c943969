//! The exit statuses of refusals, and the lines that say why.
ghost use Rattle.std.specs.Prelude.{◌≡◌, IfOk};
ghost use Rattle.store_making.specs.Lines as spec;

use crate::refusal::JournalRefusal;
use book::print_fault;
use error_lines::{memory, past_limit};
use hl_base::{Bytes, Memory, Text};
use refusals::status_for;
use std::alloc::Global;
use store_text::{refusal_line, refusal_status};

/// The line that says why a store of this name isn't made or opened.
pub fn journal_line(alloc: Global, name: &Text, refusal: &JournalRefusal) -> Result<Bytes, Memory>
    ensures { IfOk result (λ line. line ≡ spec.line_of name.now refusal.now) }
{
    match refusal {
        JournalRefusal::Store(refusal) => refusal_line(alloc, name, *refusal),
        JournalRefusal::Load(fault) => print_fault(alloc, fault),
        JournalRefusal::TooLarge { limit, size } => past_limit(alloc, *size, *limit),
        JournalRefusal::Memory => memory(alloc),
    }
}

/// The exit status of such a refusal: that of the store, 1 where the text has a fault, 7 where it or an entry of it is past a
/// limit, and 6 where memory ran out.
pub fn journal_status(refusal: &JournalRefusal) -> u8
    ensures { result ≡ spec.status_of refusal.now }
{
    match refusal {
        JournalRefusal::Store(refusal) => refusal_status(*refusal),
        JournalRefusal::Load(fault) => status_for(&fault.cause),
        JournalRefusal::TooLarge { .. } => 7,
        JournalRefusal::Memory => 6,
    }
}
