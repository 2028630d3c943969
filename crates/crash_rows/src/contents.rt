//! The bytes of a file at its last sync and now, and the calls between.
ghost use Rattle.std.specs.Prelude.{◌≤◌, IfOk, length};

use hl_base::{Bytes, Failed, Memory};
use std::alloc::Global;

/// A write or a cut since the last sync.
#[derive(Drop)]
enum Call {
    Write { at: usize, piece: Bytes },
    Cut { len: usize },
}

/// What becomes of such a call in a crash: it is lost, it is done, the first bytes of its piece or of what it cuts off are
/// done, or all of its range behind so many bytes of its piece holds a byte that nobody wrote.
#[derive(Clone, Copy)]
pub enum Fate {
    Lost,
    Done,
    Torn(usize),
    Junk { after: usize, byte: u8 },
}

/// How many calls a file serves, and the number of one, counted from 1, that is answered as failed: a sync that isn't done,
/// or a write or a cut that is.
#[derive(Clone, Copy)]
pub struct Service {
    pub calls: u64,
    pub failing: u64,
}

/// The bytes of a file, and how many calls were made of it.
#[derive(Drop)]
pub struct Contents {
    alloc: Global,
    synced: Vec<u8>,
    now: Vec<u8>,
    since: Vec<Call>,
    asked: u64,
    service: Service,
}

// Bytes that can be changed.
fn copied(alloc: Global, bytes: &[u8]) -> Result<Vec<u8>, Memory> {
    let mut copy = Vec::new(alloc);
    for byte in bytes {
        copy.push(*byte)?;
    }
    Ok(copy)
}

// Puts a byte at a place of a file, or behind its end.
fn put(file: &mut Vec<u8>, place: usize, byte: u8) -> Result<(), Memory> {
    if place < file.len() {
        file[place] = byte;
    } else {
        file.push(byte)?;
    }
    Ok(())
}

// Writes bytes at a place; a hole before it is zeros.
fn overwrite(file: &mut Vec<u8>, at: usize, piece: &[u8]) -> Result<(), Memory> {
    for _ in file.len()..at {
        file.push(0)?;
    }
    for (offset, byte) in piece.iter().enumerate() {
        put(file, at.saturating_add(offset), *byte)?;
    }
    Ok(())
}

// Fills a range with a byte.
fn spoil(file: &mut Vec<u8>, at: usize, count: usize, junk: u8) -> Result<(), Memory> {
    for _ in file.len()..at {
        file.push(junk)?;
    }
    for offset in 0..count {
        put(file, at.saturating_add(offset), junk)?;
    }
    Ok(())
}

// Does a call, as far as its fate lets it.
fn suffer(file: &mut Vec<u8>, call: &Call, fate: Fate) -> Result<(), Memory> {
    match call {
        Call::Write { at, piece } => suffer_write(file, *at, piece.as_slice(), fate),
        Call::Cut { len } => {
            suffer_cut(file, *len, fate);
            Ok(())
        }
    }
}

fn suffer_write(file: &mut Vec<u8>, at: usize, piece: &[u8], fate: Fate) -> Result<(), Memory> {
    match fate {
        Fate::Lost => Ok(()),
        Fate::Done => overwrite(file, at, piece),
        Fate::Torn(count) => overwrite(file, at, &piece[..count.min(piece.len())]),
        Fate::Junk { after, byte } => {
            spoil(file, at, piece.len(), byte)?;
            overwrite(file, at, &piece[..after.min(piece.len())])
        }
    }
}

// A cut leaves the old length, the new one or one between.
fn suffer_cut(file: &mut Vec<u8>, len: usize, fate: Fate) {
    match fate {
        Fate::Lost => {}
        Fate::Done | Fate::Junk { .. } => file.truncate(len),
        Fate::Torn(count) => file.truncate(len.saturating_add(count)),
    }
}

impl Contents {
    /// A file with these bytes, which serves calls so.
    pub fn new(alloc: Global, bytes: &[u8], service: Service) -> Result<Contents, Memory> {
        Ok(Contents {
            alloc,
            synced: copied(alloc, bytes)?,
            now: copied(alloc, bytes)?,
            since: Vec::new(alloc),
            asked: 0,
            service,
        })
    }

    /// How many calls were made.
    pub fn asked(&self) -> u64 {
        self.asked
    }

    // Whether one more call is served.
    fn turn(&mut self) -> Result<(), Failed> {
        if self.asked >= self.service.calls {
            return Err(Failed);
        }
        self.asked = self.asked.saturating_add(1);
        Ok(())
    }

    // Whether the call that was served last is answered so.
    fn told(&self) -> Result<(), Failed> {
        if self.asked == self.service.failing {
            return Err(Failed);
        }
        Ok(())
    }

    /// The length.
    pub fn len(&mut self) -> Result<u64, Failed> {
        self.turn()?;
        self.told()?;
        Ok(self.now.len() as u64)
    }

    /// Reads bytes from a place into the front of the room, and says how many.
    pub fn read(&mut self, at: u64, room: &mut [u8]) -> Result<usize, Failed>
        ensures { IfOk result (λ count. count ≤ length room.old) }
    {
        self.turn()?;
        self.told()?;
        let from = (at as usize).min(self.now.len());
        let rest = &self.now.as_slice()[from..];
        let count = rest.len().min(room.len());
        room[..count].copy_from_slice(&rest[..count]);
        Ok(count)
    }

    /// Writes bytes at a place.
    pub fn write(&mut self, at: u64, piece: &[u8]) -> Result<(), Failed> {
        self.turn()?;
        let at = at as usize;
        match self.keep_write(at, piece) {
            Ok(()) => self.told(),
            Err(_) => Err(Failed),
        }
    }

    fn keep_write(&mut self, at: usize, piece: &[u8]) -> Result<(), Memory> {
        let copy = Bytes::copied(self.alloc, piece)?;
        self.since.push(Call::Write { at, piece: copy })?;
        overwrite(&mut self.now, at, piece)
    }

    /// Cuts it to a length.
    pub fn cut(&mut self, len: u64) -> Result<(), Failed> {
        self.turn()?;
        let len = len as usize;
        match self.since.push(Call::Cut { len }) {
            Ok(()) => {
                self.now.truncate(len);
                self.told()
            }
            Err(_) => Err(Failed),
        }
    }

    /// Brings it to rest.
    pub fn sync(&mut self) -> Result<(), Failed> {
        self.turn()?;
        self.told()?;
        match copied(self.alloc, self.now.as_slice()) {
            Ok(copy) => {
                self.synced = copy;
                self.since = Vec::new(self.alloc);
                Ok(())
            }
            Err(_) => Err(Failed),
        }
    }

    /// How many calls a crash decides about.
    pub fn unsettled(&self) -> usize {
        self.since.len()
    }

    /// The bytes that a crash leaves, where the calls since the last sync have these fates in turn, in their order or in
    /// the other one.
    pub fn crashed(
        &self,
        alloc: Global,
        fates: &[Fate],
        backwards: bool,
    ) -> Result<Vec<u8>, Memory> {
        let mut file = copied(alloc, self.synced.as_slice())?;
        let calls = self.since.as_slice();
        for turn in 0..calls.len().min(fates.len()) {
            let at = if backwards {
                calls.len() - 1 - turn
            } else {
                turn
            };
            suffer(&mut file, &calls[at], fates[turn])?;
        }
        Ok(file)
    }
}
