//! A deed to a store that stops at each of its calls, and what an opening finds then.
use crate::contents::{Fate, Service};
use crate::crash_disk::CrashDisk;
use hl_base::{Bytes, List, MemDisk, Memory, Splice};
use std::alloc::Global;
use std::test::Fail;
use text_store::{Change, Image, Store, StoreFault};

/// How many bytes each file may have.
const LIMIT: u64 = 1_048_576;

/// The empty text in a store with that limit.
const MADE: &[u8] =
    b"HLSTORE\x02\0\0\x10\0\0\0\0\0\x01\0\0\0\0\0\0\0\0\0\0\0\0\0\0\0\x01C\x04\0\0\0\0\0\0\0\0\0\0\0\0";

/// The text `b` and a line in an older store.
const OLDER: &[u8] = b"HLSTORE\x01\0\0\x10\0\0\0\0\0\x01T\x02\0\0\0\0\0\0\0b\n\0";

/// A file that serves all calls.
const ENDLESS: Service = Service {
    calls: 1_000_000,
    failing: 0,
};

/// What may become of a call.
const FATES: [Fate; 9] = [
    Fate::Lost,
    Fate::Done,
    Fate::Torn(1),
    Fate::Torn(9),
    Fate::Torn(20),
    Fate::Junk { after: 0, byte: 0 },
    Fate::Junk { after: 0, byte: 1 },
    Fate::Junk { after: 0, byte: 67 },
    Fate::Junk { after: 9, byte: 1 },
];

/// What is done to a store.
#[derive(Clone, Copy)]
enum Deed {
    /// It is made of the text `a` and a line.
    Make,
    /// The text `a` and a line is put into the empty store at revision 0.
    Append,
    /// The text `b` and a line is kept in it at revision 2.
    Keep,
    /// Such an append that failed is repaired.
    UndoAppend,
    /// Such a checkpoint that failed is repaired.
    UndoKeep,
    /// An older store is opened.
    Renew,
}

/// The files after a deed, and whether it was acknowledged.
#[derive(Drop)]
struct Stopped {
    first: CrashDisk,
    second: CrashDisk,
    acknowledged: bool,
}

fn append(alloc: Global, store: &mut Store<CrashDisk>) -> Result<bool, Memory> {
    let change = Change::Splice(Splice {
        at: 0,
        removed: 0,
        inserted: Bytes::copied(alloc, b"a\n")?,
    });
    if store.needs_repair() {
        return Ok(false);
    }
    Ok(store.append(alloc, &change).is_ok())
}

fn keep(alloc: Global, store: &mut Store<CrashDisk>) -> Result<bool, Memory> {
    let image = Image {
        text: Bytes::copied(alloc, b"b\n")?,
        latest: List::new(alloc),
        revision: 2,
    };
    if store.needs_repair() {
        return Ok(false);
    }
    Ok(store.checkpoint(alloc, &image).is_ok())
}

// The repair of what failed.
fn repair(store: &mut Store<CrashDisk>, has_failed: bool) -> bool {
    has_failed && store.needs_repair() && store.repair().is_ok()
}

fn done(alloc: Global, store: &mut Store<CrashDisk>, deed: Deed) -> Result<bool, Memory> {
    match deed {
        Deed::Make | Deed::Renew => Ok(true),
        Deed::Append => append(alloc, store),
        Deed::Keep => keep(alloc, store),
        Deed::UndoAppend => {
            let has_failed = !append(alloc, store)?;
            Ok(repair(store, has_failed))
        }
        Deed::UndoKeep => {
            let has_failed = !keep(alloc, store)?;
            Ok(repair(store, has_failed))
        }
    }
}

// A store is made in two files.
fn made(alloc: Global, first: CrashDisk, second: CrashDisk) -> Stopped {
    match Store::create(alloc, first, second, b"a\n", LIMIT) {
        Ok(store) => {
            let (first, second) = store.close();
            Stopped {
                first,
                second,
                acknowledged: true,
            }
        }
        Err((first, second, _fault)) => Stopped {
            first,
            second,
            acknowledged: false,
        },
    }
}

// A deed to the store that two files open as.
fn changed(
    alloc: Global,
    deed: Deed,
    first: CrashDisk,
    second: CrashDisk,
) -> Result<Stopped, Memory> {
    match Store::open(alloc, first, second) {
        Ok((mut store, _image)) => {
            let acknowledged = done(alloc, &mut store, deed)?;
            let (first, second) = store.close();
            Ok(Stopped {
                first,
                second,
                acknowledged,
            })
        }
        Err((first, second, _fault)) => Ok(Stopped {
            first,
            second,
            acknowledged: false,
        }),
    }
}

// The bytes of the first file before a deed.
fn first_bytes(deed: Deed) -> &'static [u8] {
    match deed {
        Deed::Make => b"",
        Deed::Renew => OLDER,
        _ => MADE,
    }
}

// Whether a deed writes the second file.
fn is_in_second(deed: Deed) -> bool {
    match deed {
        Deed::Keep | Deed::UndoKeep | Deed::Renew => true,
        _ => false,
    }
}

// A deed to two files, of which the one that it writes serves calls so.
fn stop_after(alloc: Global, deed: Deed, service: Service) -> Result<Stopped, Memory> {
    let (of_first, of_second) = if is_in_second(deed) {
        (ENDLESS, service)
    } else {
        (service, ENDLESS)
    };
    let first = CrashDisk::new(alloc, first_bytes(deed), of_first)?;
    let second = CrashDisk::new(alloc, b"", of_second)?;
    match deed {
        Deed::Make => Ok(made(alloc, first, second)),
        _ => changed(alloc, deed, first, second),
    }
}

// A file that doesn't fail.
fn sound(alloc: Global, bytes: &[u8]) -> Result<MemDisk, Memory> {
    MemDisk::new(alloc, bytes, bytes.len() as u64 + 200, None, &[])
}

// The image that two files open as, if there is one.
fn opened(alloc: Global, first: &[u8], second: &[u8]) -> Result<Option<Image>, Fail> {
    let first = sound(alloc, first)?;
    let second = sound(alloc, second)?;
    match Store::open(alloc, first, second) {
        Ok((_store, image)) => Ok(Some(image)),
        Err((_first, _second, StoreFault::NotAStore { at: _ })) => Ok(None),
        Err((_first, _second, _fault)) => Err(Fail::new("it opens, or isn't a store")),
    }
}

fn is_shown(image: &Option<Image>, revision: u64, text: &[u8]) -> bool {
    match image {
        Some(image) => {
            image.revision == revision && image.text.as_slice() == text && image.latest.is_empty()
        }
        None => false,
    }
}

// Whether files open with the deed.
fn has_deed(image: &Option<Image>, deed: Deed) -> bool {
    match deed {
        Deed::Make => is_shown(image, 0, b"a\n"),
        Deed::Append => is_shown(image, 1, b"a\n"),
        Deed::Keep => is_shown(image, 2, b"b\n"),
        Deed::UndoAppend | Deed::UndoKeep => is_shown(image, 0, b""),
        Deed::Renew => is_shown(image, 0, b"b\n"),
    }
}

// Whether files open without the deed, as they may where it wasn't acknowledged. An older store opens as it is at any moment.
fn lacks_deed(image: &Option<Image>, deed: Deed) -> bool {
    match deed {
        Deed::Make => image.is_none(),
        Deed::Append | Deed::Keep => is_shown(image, 0, b""),
        Deed::UndoAppend => is_shown(image, 1, b"a\n"),
        Deed::UndoKeep => is_shown(image, 2, b"b\n"),
        Deed::Renew => false,
    }
}

// Whatever becomes of three calls that a crash decides about, the files open so.
fn survives(
    alloc: Global,
    deed: Deed,
    left: &Stopped,
    fates: [Fate; 3],
    backwards: bool,
) -> Result<(), Fail> {
    let first = left.first.file.crashed(alloc, &fates, backwards)?;
    let second = left.second.file.crashed(alloc, &fates, backwards)?;
    let image = opened(alloc, first.as_slice(), second.as_slice())?;
    if has_deed(&image, deed) || (!left.acknowledged && lacks_deed(&image, deed)) {
        return Ok(());
    }
    Err(Fail::new("the old image, or the new one"))
}

// How many calls of a file a crash decides about, at most.
fn unsettled(left: &Stopped) -> usize {
    left.first
        .file
        .unsettled()
        .max(left.second.file.unsettled())
}

// Each fate of a third call, if there is one.
fn survives_fates(alloc: Global, deed: Deed, left: &Stopped, a: Fate, b: Fate) -> Result<(), Fail> {
    for c in FATES {
        survives(alloc, deed, left, [a, b, c], false)?;
        survives(alloc, deed, left, [a, b, c], true)?;
        if unsettled(left) < 3 {
            return Ok(());
        }
    }
    Ok(())
}

// Each fate of a second call, if there is one.
fn survives_fate(alloc: Global, deed: Deed, left: &Stopped, a: Fate) -> Result<(), Fail> {
    for b in FATES {
        survives_fates(alloc, deed, left, a, b)?;
        if unsettled(left) < 2 {
            return Ok(());
        }
    }
    Ok(())
}

// A stop at one moment leaves at most three calls to a crash, and each of their fates is survived.
fn survives_stop(alloc: Global, deed: Deed, left: &Stopped) -> Result<(), Fail> {
    if unsettled(left) > 3 {
        return Err(Fail::new("three calls at most since a sync"));
    }
    for a in FATES {
        survives_fate(alloc, deed, left, a)?;
    }
    Ok(())
}

// How many calls a deed makes of the file that it writes, of which one may fail. A repair makes two at least.
fn calls_of(alloc: Global, deed: Deed, failing: u64) -> Result<u64, Fail> {
    let service = Service {
        calls: ENDLESS.calls,
        failing,
    };
    let left = stop_after(alloc, deed, service)?;
    let calls = if is_in_second(deed) {
        left.second.file.asked()
    } else {
        left.first.file.asked()
    };
    let fewest = if failing == 0 {
        8
    } else {
        failing.saturating_add(2)
    };
    if !left.acknowledged || calls < fewest {
        return Err(Fail::new("it is acknowledged, after its own calls"));
    }
    Ok(calls)
}

// A deed of which a call fails is stopped at each call from that one on.
fn survives_stops(alloc: Global, deed: Deed, failing: u64) -> Result<(), Fail> {
    let calls = calls_of(alloc, deed, failing)?;
    for served in failing..calls.saturating_add(1) {
        let service = Service {
            calls: served,
            failing,
        };
        let left = stop_after(alloc, deed, service)?;
        survives_stop(alloc, deed, &left)?;
    }
    Ok(())
}

// A deed fails at one of its last calls, so many of which are its own, and its repair is stopped.
fn survives_repairs(alloc: Global, deed: Deed, undo: Deed, own: u64) -> Result<(), Fail> {
    let calls = calls_of(alloc, deed, 0)?;
    for back in 0..own {
        survives_stops(alloc, undo, calls.saturating_sub(back))?;
    }
    Ok(())
}

#[test]
fn a_deed_survives_what_a_crash_makes_of_it(rt: HostRuntime) -> Result<(), Fail> {
    for deed in [Deed::Make, Deed::Append, Deed::Keep, Deed::Renew] {
        survives_stops(rt.alloc(), deed, 0)?;
    }
    Ok(())
}

#[test]
fn a_repair_survives_what_a_crash_makes_of_it(rt: HostRuntime) -> Result<(), Fail> {
    survives_repairs(rt.alloc(), Deed::Append, Deed::UndoAppend, 4)?;
    survives_repairs(rt.alloc(), Deed::Keep, Deed::UndoKeep, 8)
}
