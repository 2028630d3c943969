//! The size of a store as it grows, and after it is written anew; the bytes of its files are in tests/commands/talk.rows,
//! and what files open as in tests/commands/stores.rows and records.rows.
ghost use Rattle.text_store.specs.Changes.{HasShortName};

use crate::files::{keep, splice};
use hl_base::MemDisk;
use std::alloc::Global;
use std::test::Fail;
use text_store::{Change, Store, StoreFault};

/// An entry of 68 bytes.
const ENTRY: [u8; 68] = *b"2024-01-05 bread\n    expenses:food  10 EUR\n    assets:cash  -10 EUR\n";

// A store of the empty text with a limit in bytes.
fn made(alloc: Global, limit: u64) -> Result<Store<MemDisk>, Fail> {
    let first = MemDisk::new(alloc, b"", 250, None, &[])?;
    let second = MemDisk::new(alloc, b"", 250, None, &[])?;
    match Store::create(alloc, first, second, b"", limit) {
        Ok(store) => Ok(store),
        Err((_first, _second, _fault)) => Err(Fail::new("it is made")),
    }
}

// The size of a store with a change more, or why it isn't made.
fn put(
    alloc: Global,
    store: &mut Store<MemDisk>,
    change: &Change,
) -> Result<Result<u64, StoreFault>, Fail>
    requires { HasShortName change.now }
{
    if store.needs_repair() {
        return Err(Fail::new("no repair is due"));
    }
    match store.append(alloc, change) {
        Ok(()) => Ok(Ok(store.size())),
        Err(fault) => Ok(Err(fault)),
    }
}

#[test]
fn a_full_half_is_followed_by_the_next_generation(rt: HostRuntime) -> Result<(), Fail> {
    let add = splice(rt.alloc(), 0, &ENTRY)?;
    let delete = splice(rt.alloc(), 68, b"")?;
    let mut store = made(rt.alloc(), 250)?;
    assert_eq!(rt; store.limit(), 250);
    assert_eq!(rt; put(rt.alloc(), &mut store, &add)?, Ok(141));
    assert_eq!(rt; put(rt.alloc(), &mut store, &delete)?, Ok(167));
    assert!(rt; store.due(94, 47));
    assert!(rt; keep(rt.alloc(), &mut store, b"", 2)?);
    assert_eq!(rt; put(rt.alloc(), &mut store, &add)?, Ok(141));
    Ok(())
}
