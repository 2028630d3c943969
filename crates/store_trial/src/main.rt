//! A writer and a reader of a store in real files. Trials kill the writer and look at what is left:
//!
//! - `store_trial write FILE` opens or makes the store at FILE and FILE.2, edits it for ever, and prints the revision
//!   of each edit once it is acknowledged.
//! - `store_trial show FILE` opens the store, prints its revision and its length, and checks its text.
//! - `store_trial fill FILE` makes a store of 8,388,608 bytes and appends 10,000 edits to it.
//! - `store_trial open FILE` opens any store, and prints its revision and its length.
#![tactic(auto)]

mod edits;

ghost use Rattle.std.specs.Prelude.{◌≡◌, IfOk, OnOk, false};
ghost use Rattle.text_store.specs.Stores.{repair_due};

use hl_base::{Bytes, Disk, Failed, List, Memory, Splice};
use real_files::FileDisk;
use std::alloc::{AllocError, Global};
use std::fs::File;
use std::process::ExitCode;
use std::rt::{Env, Files};
use std::{env, io};
use text_store::{Change, Image, Store, StoreFault};

/// How many bytes each file may have.
const LIMIT: u64 = 16_777_216;

/// The bytes of the text that is filled, and how many edits are appended to it.
const FILLED: usize = 8_388_608;

const APPENDED: u64 = 10_000;

/// A checkpoint is made at each so many revisions, below the last one.
const CHECKPOINT_EVERY: u64 = 50;

const LAST: u64 = 1 << 62;

/// Why a trial ended.
#[derive(Debug, Drop)]
enum TrialFault {
    Usage,
    Io(io::Error),
    Store(StoreFault),
    /// The text isn't what the edits make.
    OtherText,
}

impl From<io::Error> for TrialFault {
    fn from(error: io::Error) -> TrialFault {
        TrialFault::Io(error)
    }
}

impl From<StoreFault> for TrialFault {
    fn from(fault: StoreFault) -> TrialFault {
        TrialFault::Store(fault)
    }
}

impl From<Memory> for TrialFault {
    fn from(_memory: Memory) -> TrialFault {
        TrialFault::Store(StoreFault::Memory)
    }
}

impl From<Failed> for TrialFault {
    fn from(_failed: Failed) -> TrialFault {
        TrialFault::Store(StoreFault::DiskFault)
    }
}

impl From<AllocError> for TrialFault {
    fn from(_error: AllocError) -> TrialFault {
        TrialFault::Store(StoreFault::Memory)
    }
}

fn main(rt: HostRuntime) -> ExitCode {
    match run(&rt) {
        Ok(()) => ExitCode::from(0),
        Err(TrialFault::Usage) => tell(&rt, "store_trial write|show|fill|open FILE", 2),
        Err(TrialFault::Io(_)) => tell(&rt, "a file can't be opened, or the output failed", 3),
        Err(TrialFault::Store(StoreFault::Exists { len: _ })) => tell(&rt, "a file isn't empty", 4),
        Err(TrialFault::Store(StoreFault::NotAStore { at: _ })) => tell(&rt, "not a store", 5),
        Err(TrialFault::Store(_)) => tell(&rt, "the store's call was refused", 6),
        Err(TrialFault::OtherText) => tell(&rt, "the text isn't what the edits make", 7),
    }
}

// Says why a trial ended, and gives its status.
fn tell(rt: &impl Print, line: &str, status: u8) -> ExitCode {
    match println!(rt; "{line}") {
        Ok(()) => ExitCode::from(status),
        Err(_) => ExitCode::from(3),
    }
}

fn run<R: Env + Files<File = File> + Print + AllocGlobal>(rt: &R) -> Result<(), TrialFault> {
    let mut words = Vec::new(rt.alloc());
    for word in env::args(rt)?.skip(1) {
        if words.push(word).is_err() {
            return Err(TrialFault::Store(StoreFault::Memory));
        }
    }
    if words.len() != 2 {
        return Err(TrialFault::Usage);
    }
    let path = words[1].as_str();
    match words[0].as_str() {
        "write" => write(rt, path),
        "show" => show(rt, path),
        "fill" => fill(rt, path),
        "open" => open(rt, path),
        _ => Err(TrialFault::Usage),
    }
}

// The two files of a store.
fn disks<R: Files<File = File> + AllocGlobal>(
    rt: &R,
    path: &str,
    make: bool,
) -> Result<(FileDisk, FileDisk), TrialFault> {
    let second = format!(in rt.alloc(); "{path}.2")?;
    Ok((
        FileDisk::open(rt, path, make)?,
        FileDisk::open(rt, second.as_str(), make)?,
    ))
}

// A store with its text and revision.
#[derive(Drop)]
struct Trial {
    store: Store<FileDisk>,
    text: Vec<u8>,
    revision: u64,
}

// Makes a store of a text.
fn made(
    alloc: Global,
    first: FileDisk,
    second: FileDisk,
    text: Vec<u8>,
) -> Result<Trial, TrialFault>
    ensures { IfOk result (λ opened. repair_due opened.store ≡ false) }
{
    match Store::create(alloc, first, second, &text, LIMIT) {
        Ok(store) => Ok(Trial {
            store,
            text,
            revision: 0,
        }),
        Err((_, _, fault)) => Err(TrialFault::Store(fault)),
    }
}

// Opens a store.
fn opened(alloc: Global, first: FileDisk, second: FileDisk) -> Result<Trial, TrialFault>
    ensures { IfOk result (λ opened. repair_due opened.store ≡ false) }
{
    match Store::open(alloc, first, second) {
        Ok((store, image)) => Ok(Trial {
            store,
            text: image.text.into_vec(),
            revision: image.revision,
        }),
        Err((_, _, fault)) => Err(TrialFault::Store(fault)),
    }
}

// Edits a store for ever.
fn write<R: Files<File = File> + Print + AllocGlobal>(
    rt: &R,
    path: &str,
) -> Result<(), TrialFault> {
    let (mut first, mut second) = disks(rt, path, true)?;
    let is_new = first.len()? == 0 && second.len()? == 0;
    let mut opened = if is_new {
        made(rt.alloc(), first, second, Vec::new(rt.alloc()))?
    } else {
        opened(rt.alloc(), first, second)?
    };
    let revision = opened.revision;
    println!(rt; "{revision}")?;
    for revision in revision.saturating_add(1)..u64::MAX {
        edit(rt.alloc(), &mut opened, revision)?;
        println!(rt; "{revision}")?;
    }
    Ok(())
}

// Makes one edit, and a checkpoint at some revisions.
fn edit(alloc: Global, opened: &mut Trial, revision: u64) -> Result<(), TrialFault>
    requires { repair_due opened.old.store ≡ false }
    ensures { OnOk result (repair_due opened.new.store ≡ false) }
{
    let change = edits::next(alloc, &mut opened.text, revision)?;
    opened.store.append(alloc, &change)?;
    if revision < LAST && revision % CHECKPOINT_EVERY == 0 {
        let image = Image {
            text: Bytes::copied(alloc, &opened.text)?,
            latest: List::new(alloc),
            revision,
        };
        opened.store.checkpoint(alloc, &image)?;
    }
    Ok(())
}

// Opens a store, and compares its text with what the edits make.
fn show<R: Files<File = File> + Print + AllocGlobal>(rt: &R, path: &str) -> Result<(), TrialFault> {
    let (first, second) = disks(rt, path, false)?;
    let opened = opened(rt.alloc(), first, second)?;
    let expected = edits::text_at(rt.alloc(), opened.revision)?;
    if opened.text.as_slice() != expected.as_slice() {
        return Err(TrialFault::OtherText);
    }
    say(rt, &opened)
}

// Prints a store's revision and the length of its text.
fn say(rt: &impl Print, opened: &Trial) -> Result<(), TrialFault> {
    let revision = opened.revision;
    let len = opened.text.len();
    println!(rt; "{revision} {len}")?;
    Ok(())
}

// Opens any store.
fn open<R: Files<File = File> + Print + AllocGlobal>(rt: &R, path: &str) -> Result<(), TrialFault> {
    let (first, second) = disks(rt, path, false)?;
    say(rt, &opened(rt.alloc(), first, second)?)
}

// Makes a large store, and appends small edits all over it.
fn fill<R: Files<File = File> + Print + AllocGlobal>(rt: &R, path: &str) -> Result<(), TrialFault> {
    let (first, second) = disks(rt, path, true)?;
    let text = filled(rt.alloc(), FILLED)?;
    let mut opened = made(rt.alloc(), first, second, text)?;
    for number in 0..APPENDED {
        append_line(rt.alloc(), &mut opened.store, number)?;
    }
    let len = opened.store.size();
    println!(rt; "{len} bytes")?;
    Ok(())
}

// So many bytes.
fn filled(alloc: Global, count: usize) -> Result<Vec<u8>, AllocError> {
    vec![in alloc; b'x'; count]
}

// Appends one small edit.
fn append_line(alloc: Global, store: &mut Store<FileDisk>, number: u64) -> Result<(), TrialFault>
    requires { repair_due store.old ≡ false }
    ensures { OnOk result (repair_due store.new ≡ false) }
{
    let change = Change::Splice(Splice {
        at: number.wrapping_mul(7_919_993) % FILLED as u64,
        removed: 0,
        inserted: Bytes::copied(alloc, b"    expenses:food    10 EUR\n")?,
    });
    Ok(store.append(alloc, &change)?)
}
