//! The exit statuses of refusals of a store, and the lines that say why.
ghost use Rattle.std.specs.Prelude.{◌≡◌, IfOk};
ghost use Rattle.store_text.specs.Refusals as spec;

use crate::refusal::StoreRefusal;
use error_lines::{absent, disk_fault, exists, full, memory, newer, not_a_store, read_fault};
use hl_base::{Bytes, Memory, Text};
use std::alloc::Global;

/// The line that says why a store of this name isn't read, opened or made.
pub fn refusal_line(alloc: Global, name: &Text, refusal: StoreRefusal) -> Result<Bytes, Memory>
    ensures { IfOk result (λ line. line ≡ spec.line_of name.now refusal) }
{
    match refusal {
        StoreRefusal::Absent => absent(alloc, name.as_str()),
        StoreRefusal::NotAStore { at } => not_a_store(alloc, at),
        StoreRefusal::Newer { version } => newer(alloc, u64::from(version)),
        StoreRefusal::Exists { len } => exists(alloc, len),
        StoreRefusal::Full { size, limit } => full(alloc, size, limit),
        StoreRefusal::ReadFault => read_fault(alloc),
        StoreRefusal::DiskFault => disk_fault(alloc),
        StoreRefusal::Memory => memory(alloc),
    }
}

/// The exit status of such a refusal: 3 where a disk couldn't be taken, 5 where a call of a disk failed, 6 where memory ran
/// out, 7 where the store has no room, and else 8.
pub fn refusal_status(refusal: StoreRefusal) -> u8
    ensures { result ≡ spec.status_of refusal }
{
    match refusal {
        StoreRefusal::ReadFault => 3,
        StoreRefusal::DiskFault => 5,
        StoreRefusal::Memory => 6,
        StoreRefusal::Full { .. } => 7,
        StoreRefusal::Absent
        | StoreRefusal::NotAStore { .. }
        | StoreRefusal::Newer { .. }
        | StoreRefusal::Exists { .. } => 8,
    }
}
