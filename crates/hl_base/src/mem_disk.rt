//! A disk in memory.
ghost use Rattle.std.specs.Prelude.{◌≡◌, ◌≤◌, ◌<◌, ℕ, Some, length, IsTrue};
ghost use Rattle.hl_base.specs.History.{unfailing_room, IsReplayed};

use crate::disk::Disk;
use crate::disk_record::{Call, Record, enter};
use crate::fault::{Failed, Memory};
use crate::surface::{Surface, copy_out};
use std::alloc::Global;

/// A file in memory. All its memory is taken when it is made; a call past the room, one of the calls that are to
/// fail, and one for which the record has no room, fail and count. Calls are numbered from 1.
#[derive(Drop)]
pub struct MemDisk {
    surface: Surface,
    log: Option<Record>,
    fails: Vec<u64>,
    asked: u64,
    reach: u64,
    faults: u64,
    ghost replayed: { IsReplayed log surface.text },
    ghost unfailing: { (room : ℕ) → unfailing_room log fails.items surface.room ≡ Some room → reach ≤ room → faults ≡ 0 },
}

impl MemDisk {
    ghost use Rattle.std.specs.Prelude.{IfOk, None, min, ◌+◌, ◌-◌, ◌^◌};
    ghost use Rattle.hl_base.specs.History.{Recorded, Step, Still, added};
    ghost use Rattle.std.specs.Prelude.{None, []};
    ghost use Rattle.hl_base.specs.History.{stopped_text_of};
    ghost use Rattle.hl_base.specs.MemDisk.{IsFreshDisk, Refuses};

    /// A disk that reads as this text, within a room in bytes. `log` is the room of its record in calls and in
    /// bytes of their pieces; `fails` has the numbers of the calls that are to fail.
    pub fn new(
        alloc: Global,
        text: &[u8],
        room: u64,
        log: Option<(u64, u64)>,
        fails: &[u64],
    ) -> Result<MemDisk, Memory>
        requires { length text.now ≤ room }
        ensures { IfOk result (λ disk. IsFreshDisk disk text.now room log fails.now) }
    {
        let log = match log {
            Some((calls, bytes)) => {
                Some(Record::new(alloc, text, calls as usize, bytes as usize)?)
            }
            None => None,
        };
        Ok(MemDisk {
            surface: Surface::new(alloc, text, room as usize)?,
            log,
            fails: Vec::from_slice(alloc, fails)?,
            asked: 0,
            reach: 0,
            faults: 0,
        })
    }

    /// How many calls have been made.
    pub fn calls(&self) -> u64
        ensures { result ≡ self.now.asked }
    {
        self.asked
    }

    /// The bytes that the file reads as.
    pub fn as_slice(&self) -> &[u8]
        ensures { result.now ≡ self.now.surface.text }
    {
        self.surface.as_slice()
    }

    /// A disk as a crash inside a call leaves this one, where all writes and cuts before it have reached the file,
    /// and at most so many bytes of its piece. A number past the last call, or no record, gives the disk as it
    /// reads. It has the same room, no record and no calls that are to fail.
    pub fn stopped(&self, alloc: Global, call: u64, bytes: u64) -> Result<MemDisk, Memory>
        requires { 0 < call }
        ensures fresh { IfOk result (λ disk.
            IsFreshDisk disk (stopped_text_of self.now.log self.now.surface.text call bytes)
            self.now.surface.room None []) }
        // This disk tells of such a crash, at each moment before that call's end.
        ensures told { IfOk result (λ disk. (moment : ℕ) → moment < call
            → ⟦<MemDisk as Disk>⟧.left_since self.now moment disk.surface.text) }
    {
        let room = self.surface.room();
        let surface = match &self.log {
            Some(log) => log.stopped(alloc, room, call, bytes)?,
            None => Surface::new(alloc, self.surface.as_slice(), room)?,
        };
        Ok(MemDisk {
            surface,
            log: None,
            fails: Vec::new(alloc),
            asked: 0,
            reach: 0,
            faults: 0,
        })
    }

    // Counts a call, and says whether it is one of those that are to fail.
    fn is_to_fail(&mut self) -> bool
        ensures some { IsTrue result → 0 < length self.old.fails.items }
        ensures same { (asked : ℕ) × (self.new ≡ record self.old { asked = asked }) }
    {
        self.asked = self.asked.saturating_add(1);
        self.fails.contains(&self.asked)
    }

    // Counts a fault.
    fn refuse(&mut self) -> Failed
        requires { (room : ℕ) → unfailing_room self.old.log self.old.fails.items
            self.old.surface.room ≡ Some room → room < self.old.reach }
        ensures { Refuses self.old self.new }
    {
        enter(&mut self.log, Call::Still, &[]);
        self.faults = self.faults.saturating_add(1);
        Failed
    }
}

impl Disk for MemDisk {
    ghost use Rattle.std.specs.Prelude.{Some, is_some};
    ghost use Rattle.hl_base.specs.History.{MayLeaveOf, LeftSinceOf, moment_of, unfailing_room, counts_now, only_now};

    ghost seen = { λ d. Some (d.surface.text) };

    ghost tells_crashes = { λ d. is_some d.log };

    ghost may_leave = { λ d. MayLeaveOf d.log };

    ghost moment = { λ d. moment_of d.log };

    ghost left_since = { λ d. LeftSinceOf d.log };

    ghost reach = { λ d. d.reach };

    ghost failures = { λ d. d.faults };

    ghost unfailing_to = { λ d. unfailing_room d.log d.fails.items d.surface.room };

    ghost counts_now = { λ d t c le now. counts_now d.log t c le now };

    ghost only_now = { λ d c left. only_now d.log c left };

    ghost unfailing = { λ d room is le. d.unfailing room is le };

    fn len(&mut self) -> Result<u64, Failed> {
        if self.is_to_fail() || !enter(&mut self.log, Call::Still, &[]) {
            return Err(self.refuse());
        }
        Ok(self.surface.as_slice().len() as u64)
    }

    fn read(&mut self, at: u64, room: &mut [u8]) -> Result<usize, Failed> {
        if self.is_to_fail() || !enter(&mut self.log, Call::Still, &[]) {
            return Err(self.refuse());
        }
        Ok(copy_out(self.surface.as_slice(), at, room))
    }

    fn write_at(&mut self, at: u64, piece: &[u8]) -> Result<(), Failed> {
        let end = at + piece.len() as u64;
        self.reach = self.reach.max(end);
        let call = Call::Write {
            at: at as usize,
            len: piece.len(),
        };
        if self.is_to_fail()
            || end > self.surface.room() as u64
            || !enter(&mut self.log, call, piece)
        {
            return Err(self.refuse());
        }
        self.surface.write(at as usize, piece);
        Ok(())
    }

    fn cut(&mut self, len: u64) -> Result<(), Failed> {
        self.reach = self.reach.max(len);
        let call = Call::Cut { len: len as usize };
        if self.is_to_fail() || !enter(&mut self.log, call, &[]) {
            return Err(self.refuse());
        }
        self.surface.cut(len as usize);
        Ok(())
    }

    fn sync(&mut self) -> Result<(), Failed> {
        if self.is_to_fail() || !enter(&mut self.log, Call::Sync, &[]) {
            return Err(self.refuse());
        }
        Ok(())
    }

    fn faults(&self) -> u64 {
        self.faults
    }
}
