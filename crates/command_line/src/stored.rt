//! The text of a store.
ghost use Rattle.refusals.specs.Refusing.{Refuses};
ghost use Rattle.store_text.specs.Refusals.{line_of, status_of};
ghost use Rattle.command_line.specs.Stored.{RefusesStore, StoreText};

use hl_base::{Bytes, Memory, Shelf, Text};
use refusals::Refusal;
use std::alloc::Global;
use store_text::{StoreRefusal, read_store, refusal_line, refusal_status};

/// The refusal of a store that is told by a line.
fn store_line(alloc: Global, name: &Text, refusal: StoreRefusal) -> Refusal
    ensures { Refuses result (status_of refusal) (line_of name.now refusal) }
{
    let status = refusal_status(refusal);
    match refusal_line(alloc, name, refusal) {
        Ok(line) => Refusal::Line { status, line },
        Err(Memory) => Refusal::Memory,
    }
}

/// The refusal of a store of this name.
pub(crate) fn refuse_store(alloc: Global, name: &Text, refusal: StoreRefusal) -> Refusal
    ensures { RefusesStore result name.now refusal }
{
    match refusal {
        StoreRefusal::ReadFault => Refusal::ReadFault,
        StoreRefusal::DiskFault => Refusal::DiskFault,
        StoreRefusal::Memory => Refusal::Memory,
        refusal => store_line(alloc, name, refusal),
    }
}

/// The text of the store of this name, without a load. Its image stays, and so does each other file.
pub(crate) fn load_store<S: Shelf>(
    alloc: Global,
    name: &Text,
    shelf: &mut S,
) -> Result<Bytes, Refusal>
    ensures { StoreText S.Shelf name.now shelf.old shelf.new result }
{
    match read_store(alloc, name, shelf) {
        Ok(text) => Ok(text),
        Err(refusal) => Err(refuse_store(alloc, name, refusal)),
    }
}
