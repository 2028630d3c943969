//! Edits of a store at which a take of the shelf or a call of a disk fails, or in which they are stopped, and then an opening.
ghost use Rattle.std.specs.Prelude.{◌≡◌, ◌<◌};
ghost use Rattle.hl_time.specs.Calendar.{IsDay};
ghost use Rattle.store_commands.specs.Replies.{IsEdit};

use crate::rows::{BREAD, addition, import, is_done};
use hl_base::{Bytes, List, MemShelf, Memory, Steps, Text};
use query::RegexMaker;
use std::alloc::Global;
use std::marker::Brand;
use std::sync::ledger::{Blank, Ledger};
use std::test::Fail;
use store_commands::{StoreEdit, edit_store};
use text_store::{Image, Store};

/// The empty text at revision 0 in a store with a limit of 1048576 bytes.
const MADE: &[u8] =
    b"HLSTORE\x02\0\0\x10\0\0\0\0\0\x01\0\0\0\0\0\0\0\0\0\0\0\0\0\0\0\x01C\x04\0\0\0\0\0\0\0\0\0\0\0\0";

/// The empty text at revision 2 in a store with a limit of 260 bytes, of which 167 hold an entry that was added and deleted: a
/// further edit is put behind a checkpoint in the second file.
const DUE: &[u8] =
    b"HLSTORE\x02\x04\x01\0\0\0\0\0\0\x01\0\0\0\0\0\0\0\0\0\0\0\0\0\0\0\x01C\x04\0\0\0\0\0\0\0\0\0\0\0\x01ST\0\0\0\0\0\0\0\0\0\0\0\0\0\0\0\0\0\0\0\0\0\0\x002024-01-05 bread\n    expenses:food  10 EUR\n    assets:cash  -10 EUR\n\x01S\x10\0\0\0\0\0\0\0\0\0\0\0\0\0\0\0D\0\0\0\0\0\0\0\0";

/// The text after the import.
const BOUGHT: &[u8] =
    b"2024-03-01 rent\n    assets:bank       -500 EUR\n    expenses:unknown   500 EUR\n\n2024-03-02 shop\n    assets:bank       -20 EUR\n    expenses:unknown   20 EUR\n";

/// 2024-03-02, the last day of the import's records.
const LAST_DAY: u32 = 738_947;

/// A store's first file, the revision of the empty text in it, the text after an edit, and how many records of its last day
/// are told then of the import.
#[derive(Clone, Copy)]
struct Turn {
    file: &'static [u8],
    revision: u64,
    text: &'static [u8],
    told: u32,
}

/// How many bytes of a piece have reached the file where it is stopped.
const PARTS: [u64; 4] = [0, 1, 20, 500];

/// More calls than an edit makes of a disk or of the shelf.
const MOST_CALLS: u64 = 40;

/// Which call of each file an edit is stopped in, and how many bytes of its piece have reached the file.
#[derive(Clone, Copy)]
struct Stop {
    first: u64,
    second: u64,
    bytes: u64,
}

/// Not stopped at all.
const NEVER: Stop = Stop {
    first: u64::MAX,
    second: u64::MAX,
    bytes: 0,
};

/// A shelf with a store, of which these calls fail, and these calls of each of its disks.
fn shelf_of(
    alloc: Global,
    file: &[u8],
    fails: &[u64],
    disk_fails: &[u64],
) -> Result<MemShelf, Memory> {
    let mut files = Vec::new(alloc);
    let name = Text::copied(alloc, "home")?;
    let text = Bytes::copied(alloc, file)?;
    files.push((name, text))?;
    let files = List::from_vec(files);
    MemShelf::new(alloc, files, 4096, Some((100, 8192)), fails, disk_fails)
}

/// What the two files open as, as a crash leaves them, if both were taken.
fn opened(alloc: Global, shelf: &MemShelf, stop: Stop) -> Result<Option<Image>, Fail>
    requires first { 0 < stop.first }
    requires second { 0 < stop.second }
{
    let (Some(first), Some(second)) = (shelf.disk(b"home"), shelf.disk(b"home.2")) else {
        return Ok(None);
    };
    let first = first.stopped(alloc, stop.first, stop.bytes)?;
    let second = second.stopped(alloc, stop.second, stop.bytes)?;
    match Store::open(alloc, first, second) {
        Ok((_store, image)) => Ok(Some(image)),
        Err((_first, _second, _fault)) => Err(Fail::new("it opens")),
    }
}

/// Whether so many records of the last day are told of the import, and of no other one any.
fn tells(image: &Image, count: u32) -> bool {
    match image.latest.as_slice() {
        [] => count == 0,
        [state] => {
            state.name.as_str() == "bank.csv" && state.day == LAST_DAY && state.count == count
        }
        _ => false,
    }
}

/// Whether it is the store before an edit, which has no imports.
fn is_before(image: &Option<Image>, turn: Turn) -> bool {
    match image {
        Some(image) => {
            image.revision == turn.revision && image.text.as_slice().is_empty() && tells(image, 0)
        }
        None => true,
    }
}

/// Whether it is the store after it.
fn is_after(image: &Option<Image>, turn: Turn) -> bool {
    match image {
        Some(image) => {
            image.revision == turn.revision.saturating_add(1)
                && image.text.as_slice() == turn.text
                && tells(image, turn.told)
        }
        None => false,
    }
}

/// Whether an edit was acknowledged.
fn is_acknowledged<L: Ledger>(
    alloc: Global,
    edit: &StoreEdit,
    turn: Turn,
    shelf: &mut MemShelf,
    steps: &mut Steps<L>,
) -> bool
    requires day { IsDay edit.now.day.0 }
    requires edit { IsEdit edit.now.request }
{
    let mut maker = RegexMaker::new();
    match edit_store(alloc, edit, shelf, &mut maker, steps) {
        Ok(reply) => is_done(&reply, turn.revision.saturating_add(1)),
        Err(_) => false,
    }
}

/// Where calls fail, what is there then has the edit or not, and has it where it was acknowledged, which is where none
/// failed.
fn calls_fail<L: Ledger>(
    alloc: Global,
    edit: &StoreEdit,
    turn: Turn,
    fails: &[u64],
    disk_fails: &[u64],
    steps: &mut Steps<L>,
) -> Result<(), Fail>
    requires day { IsDay edit.now.day.0 }
    requires edit { IsEdit edit.now.request }
{
    let mut shelf = shelf_of(alloc, turn.file, fails, disk_fails)?;
    let is_acknowledged = is_acknowledged(alloc, edit, turn, &mut shelf, steps);
    let none_failed = shelf.faults() == 0 && shelf.disk_faults() == 0;
    if is_acknowledged != none_failed {
        return Err(Fail::new("acknowledged where no call failed"));
    }
    let image = opened(alloc, &shelf, NEVER)?;
    if is_after(&image, turn) || (!is_acknowledged && is_before(&image, turn)) {
        return Ok(());
    }
    Err(Fail::new("the store before or after"))
}

/// Each call of the shelf and each of its disks fails in turn.
fn each_call_fails<L: Ledger>(
    alloc: Global,
    edit: &StoreEdit,
    turn: Turn,
    steps: &mut Steps<L>,
) -> Result<(), Fail>
    requires day { IsDay edit.now.day.0 }
    requires edit { IsEdit edit.now.request }
{
    for call in 1..MOST_CALLS {
        calls_fail(alloc, edit, turn, &[call], &[], steps)?;
        calls_fail(alloc, edit, turn, &[], &[call], steps)?;
    }
    Ok(())
}

/// After a crash the store is that before the edit or after it.
fn is_either(alloc: Global, shelf: &MemShelf, turn: Turn, stop: Stop) -> Result<(), Fail>
    requires first { 0 < stop.first }
    requires second { 0 < stop.second }
{
    let image = opened(alloc, shelf, stop)?;
    if is_before(&image, turn) || is_after(&image, turn) {
        return Ok(());
    }
    Err(Fail::new("the store before or after"))
}

/// Stops of both files in a call, so many bytes of whose piece have reached the file.
fn stops_in(alloc: Global, shelf: &MemShelf, turn: Turn, call: u64, bytes: u64) -> Result<(), Fail>
    requires { 0 < call }
{
    let never = u64::MAX;
    let first = Stop {
        first: call,
        second: never,
        bytes,
    };
    is_either(alloc, shelf, turn, first)?;
    let second = Stop {
        first: never,
        second: call,
        bytes,
    };
    is_either(alloc, shelf, turn, second)
}

/// An edit is stopped before and inside each call, and then the store is opened.
fn each_stop<L: Ledger>(
    alloc: Global,
    edit: &StoreEdit,
    turn: Turn,
    steps: &mut Steps<L>,
) -> Result<(), Fail>
    requires day { IsDay edit.now.day.0 }
    requires edit { IsEdit edit.now.request }
{
    let mut shelf = shelf_of(alloc, turn.file, &[], &[])?;
    let is_acknowledged = is_acknowledged(alloc, edit, turn, &mut shelf, steps);
    let image = opened(alloc, &shelf, NEVER)?;
    if !is_acknowledged || !is_after(&image, turn) {
        return Err(Fail::new("it stands"));
    }
    for call in 1..MOST_CALLS {
        for bytes in PARTS {
            stops_in(alloc, &shelf, turn, call, bytes)?;
        }
    }
    Ok(())
}

/// An edit of a store with room, and of one that is due for a checkpoint.
fn fails_in_both<L: Ledger>(
    alloc: Global,
    edit: &StoreEdit,
    text: &'static [u8],
    told: u32,
    steps: &mut Steps<L>,
) -> Result<(), Fail>
    requires day { IsDay edit.now.day.0 }
    requires edit { IsEdit edit.now.request }
{
    for (file, revision) in [(MADE, 0), (DUE, 2)] {
        let turn = Turn {
            file,
            revision,
            text,
            told,
        };
        each_call_fails(alloc, edit, turn, steps)?;
        each_stop(alloc, edit, turn, steps)?;
    }
    Ok(())
}

/// Both of an addition and of an import.
fn edits_fail<L: Ledger>(alloc: Global, blank: Blank) -> Result<(), Fail>
    requires name { blank.name ≡ L.name }
    requires parts { blank.parts ≡ L.parts }
    requires three { blank.parts ≡ 3 }
{
    let mut steps = Steps::<L>::start(blank);
    let bread = addition(alloc)?;
    let bank = import(alloc)?;
    fails_in_both(alloc, &bread, BREAD, 0, &mut steps)?;
    fails_in_both(alloc, &bank, BOUGHT, 1, &mut steps)
}

#[test]
fn a_call_fails_or_is_stopped(rt: HostRuntime) -> Result<(), Fail> {
    edits_fail::<Brand>(rt.alloc(), Blank::new(3))
}
