//! Connections to a machine over small disks in memory: how they end, and what is sent.
ghost use Rattle.std.specs.Prelude.{◌≡◌, ◌<◌};

use desk::{Allow, Desk};
use hl_base::{Bytes, MemClock, MemDisk, MemLink, Memory, Steps};
use query::RegexMaker;
use std::alloc::Global;
use std::marker::Brand;
use std::sync::ledger::{Blank, Ledger};
use web_desk::{Alone, ConnEnd, serve_link};
use web_messages::page::Page;

/// The bytes that come, how many of them a read gives at most, and the numbers of the reads and writes that are to
/// fail, counted together.
#[derive(Clone, Copy)]
pub struct Connection<'a> {
    pub coming: &'a [u8],
    pub most: usize,
    pub fails: &'a [u64],
}

/// How a connection ended, and what was sent.
#[derive(Debug, Drop)]
pub struct Ended {
    pub end: ConnEnd,
    pub sent: Bytes,
}

/// The room of each disk, and of what is sent, in bytes.
const ROOM: u64 = 4096;

/// A machine of the empty text, to which entries may be added. These calls of its first disk fail.
fn machine<L: Ledger>(
    alloc: Global,
    disk_fails: &[u64],
    steps: &mut Steps<L>,
) -> Result<Desk<MemDisk>, Memory> {
    let first = MemDisk::new(alloc, &[], ROOM, None, disk_fails)?;
    let second = MemDisk::new(alloc, &[], ROOM, None, &[])?;
    match Desk::create(alloc, first, second, &[], ROOM, Allow::Add, steps) {
        Ok(desk) => Ok(desk),
        Err(_) => Err(Memory),
    }
}

/// Serves a connection.
fn serve<L: Ledger>(
    alloc: Global,
    page: &Page,
    desk: &mut Desk<MemDisk>,
    connection: &Connection,
    steps: &mut Steps<L>,
) -> Result<Ended, Memory> {
    let Connection {
        coming,
        most,
        fails,
    } = *connection;
    let mut link = MemLink::in_cuts(alloc, coming, ROOM, fails, most.max(1))?;
    let mut ask = Alone { desk };
    let end = serve_link(
        alloc,
        page,
        &mut ask,
        &mut link,
        &mut MemClock::new(739_052),
        &mut RegexMaker::new(),
        steps,
    );
    let sent = Bytes::copied(alloc, link.as_slice())?;
    Ok(Ended { end, sent })
}

/// Serves a connection to a machine of its own. These calls of its first disk fail.
fn alone<L: Ledger>(
    alloc: Global,
    blank: Blank,
    page: &Page,
    disk_fails: &[u64],
    connection: &Connection,
) -> Result<Ended, Memory>
    requires name { blank.name ≡ L.name }
    requires parts { blank.parts ≡ L.parts }
    requires three { blank.parts ≡ 3 }
{
    let mut steps = Steps::<L>::start(blank);
    let mut desk = machine(alloc, disk_fails, &mut steps)?;
    serve(alloc, page, &mut desk, connection, &mut steps)
}

/// The same, with counters of its own.
pub fn ended_with(
    alloc: Global,
    page: &Page,
    disk_fails: &[u64],
    connection: &Connection,
) -> Result<Ended, Memory> {
    alone::<Brand>(alloc, Blank::new(3), page, disk_fails, connection)
}

/// The same, without a page.
pub fn ended_of(
    alloc: Global,
    disk_fails: &[u64],
    connection: &Connection,
) -> Result<Ended, Memory> {
    let page = Page::Absent;
    ended_with(alloc, &page, disk_fails, connection)
}
