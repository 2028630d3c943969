//! Two files in memory, what is done to them as a store, and the image that they open as.
ghost use Rattle.std.specs.Prelude.{◌<◌, IfOk};
ghost use Rattle.text_store.specs.Changes.{HasShortName};

use hl_base::{Bytes, List, MemDisk, Memory, Splice};
use std::alloc::Global;
use std::test::Fail;
use text_store::{Change, Image, Store, StoreFault};

/// The empty text in a store with a limit of 1048576 bytes.
pub const MADE: [u8; 47] =
    *b"HLSTORE\x02\0\0\x10\0\0\0\0\0\x01\0\0\0\0\0\0\0\0\0\0\0\0\0\0\0\x01C\x04\0\0\0\0\0\0\0\0\0\0\0\0";

/// The files of a store.
#[derive(Drop)]
pub struct Files {
    pub first: MemDisk,
    pub second: MemDisk,
}

/// What is done to files: they are made a store of the text `b`, or opened as a store; then no more is done to it, the
/// line `a` is put before its text, or the text `b` is kept at a revision.
#[derive(Clone, Copy)]
pub enum Deed {
    Create,
    Open,
    Append,
    Keep(u64),
}

/// A revision and a text without import states; none, where files have no image.
pub type Shown<'a> = Option<(u64, &'a [u8])>;

/// A file that keeps a record of its calls, of which some are to fail.
pub fn file(alloc: Global, bytes: &[u8], fails: &[u64]) -> Result<MemDisk, Memory> {
    let room = bytes.len() as u64 + 200;
    MemDisk::new(alloc, bytes, room, Some((80, 2000)), fails)
}

/// Two files none of whose calls is to fail.
pub fn files_of(alloc: Global, first: &[u8], second: &[u8]) -> Result<Files, Memory> {
    Ok(Files {
        first: file(alloc, first, &[])?,
        second: file(alloc, second, &[])?,
    })
}

/// Files with these bytes, of which the first's calls or the second's are to fail.
pub fn failing(
    alloc: Global,
    first: &[u8],
    second: &[u8],
    in_second: bool,
    fails: &[u64],
) -> Result<Files, Memory> {
    let none: &[u64] = &[];
    Ok(Files {
        first: file(alloc, first, if in_second { none } else { fails })?,
        second: file(alloc, second, if in_second { fails } else { none })?,
    })
}

/// The numbers from one on, so many.
pub fn numbers(alloc: Global, from: u64, count: u64) -> Result<Vec<u64>, Memory> {
    let mut numbers = Vec::new(alloc);
    for i in 0..count {
        numbers.push(from.saturating_add(i))?;
    }
    Ok(numbers)
}

/// A splice at the text's start.
pub fn splice(alloc: Global, removed: u64, inserted: &[u8]) -> Result<Change, Memory>
    ensures { IfOk result (λ change. HasShortName change) }
{
    Ok(Change::Splice(Splice {
        at: 0,
        removed,
        inserted: Bytes::copied(alloc, inserted)?,
    }))
}

/// The image that two files open as, if there is one.
pub fn opened(alloc: Global, first: MemDisk, second: MemDisk) -> Result<Option<Image>, Fail> {
    match Store::open(alloc, first, second) {
        Ok((_store, image)) => Ok(Some(image)),
        Err((_first, _second, StoreFault::NotAStore { at: _ })) => Ok(None),
        Err((_first, _second, _fault)) => Err(Fail::new("it opens, or isn't a store")),
    }
}

/// The image that files open as after a crash inside a call of the first or of the second, with so many bytes of its
/// piece.
pub fn stopped(
    alloc: Global,
    files: &Files,
    in_second: bool,
    call: u64,
    bytes: u64,
) -> Result<Option<Image>, Fail>
    requires { 0 < call }
{
    let first = files
        .first
        .stopped(alloc, if in_second { u64::MAX } else { call }, bytes)?;
    let second = files
        .second
        .stopped(alloc, if in_second { call } else { u64::MAX }, bytes)?;
    opened(alloc, first, second)
}

/// Whether an image is the one that is wanted.
pub fn is_shown(image: &Option<Image>, wanted: Shown) -> bool {
    match (image, wanted) {
        (None, None) => true,
        (Some(image), Some((revision, text))) => {
            image.revision == revision && image.text.as_slice() == text
        }
        _ => false,
    }
}

// Puts the line before the text of a store, and says whether that was acknowledged.
fn append(alloc: Global, store: &mut Store<MemDisk>) -> Result<bool, Memory> {
    let change = splice(alloc, 0, b"a\n")?;
    if store.needs_repair() {
        return Ok(false);
    }
    Ok(store.append(alloc, &change).is_ok())
}

/// Keeps a text at a revision in the other file, and says whether that was acknowledged.
pub fn keep(
    alloc: Global,
    store: &mut Store<MemDisk>,
    text: &[u8],
    revision: u64,
) -> Result<bool, Memory> {
    if store.needs_repair() || revision > 1 << 62 {
        return Ok(false);
    }
    let image = Image {
        text: Bytes::copied(alloc, text)?,
        latest: List::new(alloc),
        revision,
    };
    Ok(store.checkpoint(alloc, &image).is_ok())
}

/// Does a deed to an open store, and says whether it was acknowledged.
pub fn done(alloc: Global, store: &mut Store<MemDisk>, deed: Deed) -> Result<bool, Memory> {
    match deed {
        Deed::Create | Deed::Open => Ok(true),
        Deed::Append => append(alloc, store),
        Deed::Keep(revision) => keep(alloc, store, b"b\n", revision),
    }
}

// The files again.
fn closed(store: Store<MemDisk>) -> Files {
    let (first, second) = store.close();
    Files { first, second }
}

// Makes a store in empty files, and says whether that was acknowledged.
fn made(alloc: Global, files: Files) -> (bool, Files) {
    match Store::create(alloc, files.first, files.second, b"b\n", 150) {
        Ok(store) => (true, closed(store)),
        Err((first, second, _fault)) => (false, Files { first, second }),
    }
}

// Opens files, does a deed, and repairs what a fault left of it; says whether the deed was acknowledged.
fn opened_and_done(alloc: Global, files: Files, deed: Deed) -> Result<(bool, Files), Memory> {
    match Store::open(alloc, files.first, files.second) {
        Ok((mut store, _image)) => {
            let acknowledged = done(alloc, &mut store, deed)?;
            let _repaired = store.repair();
            Ok((acknowledged, closed(store)))
        }
        Err((first, second, _fault)) => Ok((false, Files { first, second })),
    }
}

/// Does a deed to files, and says whether it was acknowledged.
pub fn tried(alloc: Global, files: Files, deed: Deed) -> Result<(bool, Files), Memory> {
    match deed {
        Deed::Create => Ok(made(alloc, files)),
        Deed::Open | Deed::Append | Deed::Keep(_) => opened_and_done(alloc, files, deed),
    }
}

/// Opens files and does a deed, at which a fault is to come, one in the repair after it, and none from then on; says
/// whether all went so.
pub fn done_at_last(alloc: Global, files: Files, deed: Deed) -> Result<(bool, Files), Memory> {
    match Store::open(alloc, files.first, files.second) {
        Ok((mut store, _image)) => {
            let at_once = done(alloc, &mut store, deed)?;
            let mended_at_once = store.repair().is_ok();
            let is_due = store.needs_repair();
            let mended = store.repair().is_ok();
            let at_last = done(alloc, &mut store, deed)?;
            let all_so = !at_once && !mended_at_once && is_due && mended && at_last;
            Ok((all_so, closed(store)))
        }
        Err((first, second, _fault)) => Ok((false, Files { first, second })),
    }
}

/// The files, if it was acknowledged.
pub fn acknowledged(tried: (bool, Files)) -> Result<Files, Fail> {
    if !tried.0 {
        return Err(Fail::new("it is acknowledged"));
    }
    Ok(tried.1)
}

/// The bytes of two files, put into others that don't fail.
pub fn again(alloc: Global, files: &Files) -> Result<Files, Memory> {
    files_of(alloc, files.first.as_slice(), files.second.as_slice())
}

/// How many calls of the first file or of the second a deed makes.
pub fn calls(alloc: Global, in_second: bool, deed: Deed) -> Result<u64, Fail> {
    let made = files_of(alloc, &MADE, b"")?;
    let files = acknowledged(tried(alloc, made, deed)?)?;
    Ok(if in_second {
        files.second.calls()
    } else {
        files.first.calls()
    })
}
