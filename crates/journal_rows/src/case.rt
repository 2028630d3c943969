//! One run of the program over memory.
ghost use Rattle.std.specs.Prelude.{◌≡◌, ◌<◌};

use crate::cuts::Cuts;
use command_line::{Outside, Streams, asks_talk, run, run_waiting};
use hl_base::{
    Bytes, List, MemShelf, MemSink, MemSource, Memory, Shelf, Sink, Source, Steps, Text,
};
use hl_time::Day;
use query::{ListMaker, Maker};
use std::alloc::Global;
use std::marker::Brand;
use std::sync::Wait;
use std::sync::ledger::{Blank, Ledger};
use std::thread::Threads;

/// The words, the input, and the numbers of the reads and writes that are to fail.
#[derive(Clone, Copy)]
pub struct Case<'a> {
    pub words: &'a [&'a str],
    pub text: &'a [u8],
    pub read_fails: &'a [u64],
    pub write_fails: &'a [u64],
    pub error_fails: &'a [u64],
}

/// A file, the numbers of the loads and takes that are to fail, those of the calls of each of its disks, and a pattern that
/// is refused.
#[derive(Clone, Copy)]
pub struct Beside<'a> {
    pub name: &'a str,
    pub text: &'a [u8],
    pub load_fails: &'a [u64],
    pub disk_fails: &'a [u64],
    pub refused: &'a str,
}

/// The exit status, and what was written.
#[derive(Debug, Drop)]
pub struct Seen {
    pub status: u8,
    pub output: Bytes,
    pub error: Bytes,
}

/// The room of each output, in bytes.
const ROOM: u64 = 65536;

/// An empty file, and no fault.
pub fn nothing() -> Beside<'static> {
    Beside {
        name: "empty",
        text: &[],
        load_fails: &[],
        disk_fails: &[],
        refused: "a.refused.pattern",
    }
}

/// A shelf with that file.
fn shelf_of(alloc: Global, beside: &Beside) -> Result<MemShelf, Memory> {
    let mut files = Vec::new(alloc);
    let name = Text::copied(alloc, beside.name)?;
    let text = Bytes::copied(alloc, beside.text)?;
    files.push((name, text))?;
    MemShelf::new(
        alloc,
        List::from_vec(files),
        ROOM,
        None,
        beside.load_fails,
        beside.disk_fails,
    )
}

/// A maker that refuses that pattern.
fn maker_of(alloc: Global, beside: &Beside) -> Result<ListMaker, Memory> {
    let mut refused = Vec::new(alloc);
    refused.push(Text::copied(alloc, beside.refused)?)?;
    Ok(ListMaker::new(List::from_vec(refused)))
}

/// Runs the program on the case, beside a file.
pub fn answer_beside<W: Threads + Wait + Sync>(
    rt: &W,
    alloc: Global,
    case: &Case,
    beside: &Beside,
) -> Result<Seen, Memory> {
    let input = MemSource::new(alloc, case.text, case.read_fails)?;
    counted::<Brand, MemSource, W>(rt, alloc, Blank::new(3), case, input, beside)
}

/// Runs the program on the case, where a read gives at most so many bytes.
pub fn answer_in_cuts<W: Threads + Wait + Sync>(
    rt: &W,
    alloc: Global,
    case: &Case,
    most: usize,
) -> Result<Seen, Memory>
    requires { 0 < most }
{
    let input = Cuts::new(alloc, case.text, case.read_fails, most)?;
    counted::<Brand, Cuts, W>(rt, alloc, Blank::new(3), case, input, &nothing())
}

/// Words as the program is given them.
pub(crate) fn words_of(alloc: Global, given: &[&str]) -> Result<Vec<Text>, Memory> {
    let mut words = Vec::new(alloc);
    for word in given {
        words.push(Text::copied(alloc, word)?)?;
    }
    Ok(words)
}

/// Runs the program on a day of 2024, and gives its status.
pub(crate) fn status_of<L: Ledger, J: Source + Drop, W: Threads + Wait + Sync>(
    rt: &W,
    alloc: Global,
    words: &[Text],
    outside: &mut Outside<J, MemSink, MemSink, MemShelf, ListMaker>,
    steps: &mut Steps<L>,
) -> u8 {
    let day = Day(739_052);
    let status = if asks_talk(words) {
        run_waiting(rt, alloc, words, day, outside, steps)
    } else {
        run(rt, alloc, words, day, outside, steps)
    };
    status.0
}

fn counted<L: Ledger, J: Source + Drop, W: Threads + Wait + Sync>(
    rt: &W,
    alloc: Global,
    blank: Blank,
    case: &Case,
    input: J,
    beside: &Beside,
) -> Result<Seen, Memory>
    requires name { blank.name ≡ L.name }
    requires parts { blank.parts ≡ L.parts }
    requires three { blank.parts ≡ 3 }
{
    let words = words_of(alloc, case.words)?;
    let output = MemSink::new(alloc, ROOM, case.write_fails)?;
    let mut outside = Outside {
        streams: Streams { input, output },
        err: MemSink::new(alloc, ROOM, case.error_fails)?,
        shelf: shelf_of(alloc, beside)?,
        maker: maker_of(alloc, beside)?,
    };
    let mut steps = Steps::<L>::start(blank);
    let status = status_of(rt, alloc, words.as_slice(), &mut outside, &mut steps);
    Ok(Seen {
        status,
        output: Bytes::copied(alloc, outside.streams.output.as_slice())?,
        error: Bytes::copied(alloc, outside.err.as_slice())?,
    })
}
