//! A shelf in memory, which fails where it is told to.
ghost use Rattle.std.specs.Prelude.{◌≡◌, ◌≢◌, ◌≤◌, ◌<◌, ◌-◌, ◌^◌, ℕ, Bool, true, false, List, [], ◌∷◌, ◌++◌, length, Option, Some, None, Err, IfOk, OnOk, IfErr, IfSome, IfNone, IsTrue, bytes_eq};
ghost use Rattle.std.specs.Prelude.{max, is_some};
ghost use Rattle.hl_base.specs.MemDisk.{IsFreshDisk};
ghost use Rattle.hl_base.specs.MemShelf.{bytes_of, disk_of, has_place, text_of, tells_of, IsFirst, PutsBack, PlacesStay};
ghost use Rattle.hl_base.specs.Shelf.{HasBlame, shelf_cause};

use crate::bytes::Bytes;
use crate::disk::Disk;
use crate::fault::Memory;
use crate::list::List;
use crate::mem_disk::MemDisk;
use crate::shelf::{Shelf, ShelfFault};
use crate::text::Text;
use std::alloc::Global;

/// The place of a name, with the disk that was given back last.
#[derive(Drop)]
pub struct Place {
    name: Text,
    disk: Option<MemDisk>,
}

/// Files in memory. The loads and takes whose numbers, counted together from 1, were named fail.
#[derive(Drop)]
pub struct MemShelf {
    files: Vec<(Text, Bytes)>,
    places: Vec<Place>,
    room: u64,
    log: Option<(u64, u64)>,
    disk_fails: Vec<u64>,
    fails: Vec<u64>,
    calls: u64,
    faults: u64,
    disk_faults: u64,
    last_failed: Option<Text>,
}

impl MemShelf {
    ghost use Rattle.std.specs.Prelude.{Some, None, length};

    /// A shelf of these files. `room` and `log` are the rooms of the disks that it hands out, and `disk_fails` has
    /// the numbers of the calls of each that are to fail. A file that is longer than `room` gets as much room as it
    /// needs. Of two files of one name the first is meant.
    pub fn new(
        alloc: Global,
        files: List<(Text, Bytes)>,
        room: u64,
        log: Option<(u64, u64)>,
        fails: &[u64],
        disk_fails: &[u64],
    ) -> Result<MemShelf, Memory>
        ensures files { IfOk result (λ shelf. (name : List ℕ)
            → ⟦<MemShelf as Shelf>⟧.file shelf name ≡ bytes_of name files) }
        ensures tells { IfOk result (λ shelf.
            ⟦<MemShelf as Shelf>⟧.tells shelf ≡ tells_of log disk_fails.now room) }
        ensures rest { IfOk result (λ shelf. (name c : List ℕ)
            → ⟦<MemShelf as Shelf>⟧.may_leave shelf name c
            → IfSome (bytes_of name files) (λ bytes. c ≡ bytes)) }
        ensures faults { IfOk result (λ shelf. ⟦<MemShelf as Shelf>⟧.faults shelf ≡ 0) }
        ensures disk_faults { IfOk result (λ shelf. ⟦<MemShelf as Shelf>⟧.disk_faults shelf ≡ 0) }
        ensures last_failed { IfOk result (λ shelf.
            ⟦<MemShelf as Shelf>⟧.last_failed shelf ≡ None) }
        ensures sound { IfOk result (λ shelf. fails.now ≡ []
            → ⟦<MemShelf as Shelf>⟧.IsSound shelf) }
    {
        Ok(MemShelf {
            files: files.into_vec(),
            places: Vec::new(alloc),
            room,
            log,
            disk_fails: Vec::from_slice(alloc, disk_fails)?,
            fails: Vec::from_slice(alloc, fails)?,
            calls: 0,
            faults: 0,
            disk_faults: 0,
            last_failed: None,
        })
    }

    /// The disk that was given back last under a name.
    pub fn disk(&self, name: &[u8]) -> Option<&MemDisk>
        ensures some { IfSome result (λ disk.
            ⟦<MemShelf as Shelf>⟧.file self.now name.now ≡ ⟦<MemDisk as Disk>⟧.seen disk.now) }
        ensures none { IfNone result (disk_of name.now self.now.places.items ≡ None) }
    {
        disk_under(&self.places, name)
    }

    /// How many loads and takes have failed.
    pub fn faults(&self) -> u64
        ensures { result ≡ ⟦<MemShelf as Shelf>⟧.faults self.now }
    {
        self.faults
    }

    /// The faults of the disks that were given back.
    pub fn disk_faults(&self) -> u64
        ensures { result ≡ ⟦<MemShelf as Shelf>⟧.disk_faults self.now }
    {
        self.disk_faults
    }

    // Counts a call, and fails it if it is one of those that are to fail.
    fn begin(&mut self, alloc: Global, name: &Text) -> Result<(), ShelfFault>
        ensures same { (calls faults : ℕ) × (last : Option (List ℕ))
            × (self.new ≡ record self.old { calls = calls; faults = faults; last_failed = last }) }
        ensures cause { IfErr result (λ e. shelf_cause e ≡ None) }
        ensures blame { HasBlame self.old.faults self.new.faults self.old.last_failed
            self.new.last_failed name.now result }
        ensures some { result ≡ Err ShelfFault.Failed → 0 < length self.old.fails.items }
    {
        self.calls = self.calls.saturating_add(1);
        if !self.fails.contains(&self.calls) {
            return Ok(());
        }
        let failed = Text::copied(alloc, name.as_str())?;
        self.last_failed = Some(failed);
        self.faults = self.faults.saturating_add(1);
        Err(ShelfFault::Failed)
    }

    // The bytes under a name.
    fn bytes(&self, name: &[u8]) -> Option<&[u8]>
        ensures some { IfSome result (λ bytes.
            text_of (disk_of name.now self.now.places.items)
            (bytes_of name.now self.now.files.items) ≡ Some bytes.now) }
        ensures none { IfNone result
            (text_of (disk_of name.now self.now.places.items)
            (bytes_of name.now self.now.files.items) ≡ None) }
    {
        match disk_under(&self.places, name) {
            Some(disk) => Some(disk.as_slice()),
            None => bytes_under(&self.files, name),
        }
    }

    // A new disk that reads as these bytes.
    fn disk_over(&self, alloc: Global, bytes: &[u8]) -> Result<MemDisk, ShelfFault>
        ensures made { IfOk result (λ disk.
            IsFreshDisk disk bytes.now (max self.now.room (length bytes.now)) self.now.log
            self.now.disk_fails.items) }
        ensures err { IfErr result (λ e. e ≡ ShelfFault.Memory) }
    {
        let room = self.room.max(bytes.len() as u64);
        Ok(MemDisk::new(alloc, bytes, room, self.log, &self.disk_fails)?)
    }
}

impl Shelf for MemShelf {
    type Disk = MemDisk;

    ghost use Rattle.std.specs.Prelude.{◌≡◌, [], IsTrue};
    ghost use Rattle.hl_base.specs.MemShelf.{bytes_of, disk_of, has_place, text_of, MayLeaveUnder, LeftUnder, tells_of};

    ghost tells = { λ s. tells_of s.log s.disk_fails.items s.room };

    ghost file = { λ s name. text_of (disk_of name s.places.items) (bytes_of name s.files.items) };

    ghost may_leave = { λ s name. MayLeaveUnder (disk_of name s.places.items) (bytes_of name s.files.items) };

    ghost left_since = { λ s name. LeftUnder (disk_of name s.places.items) (bytes_of name s.files.items) };

    ghost HasPlace = { λ s name. IsTrue (has_place name s.places.items) };

    ghost faults = { λ s. s.faults };

    ghost disk_faults = { λ s. s.disk_faults };

    ghost last_failed = { λ s. s.last_failed };

    ghost IsSound = { λ s. s.fails.items ≡ [] };

    fn load(&mut self, alloc: Global, name: &Text, limit: u64) -> Result<Bytes, ShelfFault> {
        self.begin(alloc, name)?;
        let Some(bytes) = self.bytes(name.as_bytes()) else {
            return Err(ShelfFault::Absent)
        };
        if bytes.len() as u64 > limit {
            return Err(ShelfFault::TooLong {
                limit,
                seen: limit + 1,
            });
        }
        Ok(Bytes::copied(alloc, bytes)?)
    }

    fn take(&mut self, alloc: Global, name: &Text, make: bool) -> Result<MemDisk, ShelfFault> {
        self.begin(alloc, name)?;
        let disk = match self.bytes(name.as_bytes()) {
            Some(bytes) => self.disk_over(alloc, bytes)?,
            None if make => self.disk_over(alloc, &[])?,
            None => return Err(ShelfFault::Absent),
        };
        make_place(alloc, &mut self.places, name)?;
        Ok(disk)
    }

    fn give_back(&mut self, name: &Text, disk: MemDisk) {
        self.disk_faults = self.disk_faults.saturating_add(disk.faults());
        put_back(&mut self.places, name.as_bytes(), disk);
    }
}

// Two texts are the same.
fn is_same(a: &[u8], b: &[u8]) -> bool
    ensures { result ≡ bytes_eq a.now b.now }
{
    a == b
}

// The disk that lies in the place of a name.
fn disk_under<'a>(places: &'a [Place], name: &[u8]) -> Option<&'a MemDisk>
    ensures some { IfSome result (λ disk. disk_of name.now places.now ≡ Some disk.now) }
    ensures none { IfNone result (disk_of name.now places.now ≡ None) }
{
    for place in places {
        if is_same(place.name.as_bytes(), name) {
            return place.disk.as_ref();
        }
    }
    None
}

// The bytes of the first file of a name.
fn bytes_under<'a>(files: &'a [(Text, Bytes)], name: &[u8]) -> Option<&'a [u8]>
    ensures some { IfSome result (λ bytes. bytes_of name.now files.now ≡ Some bytes.now) }
    ensures none { IfNone result (bytes_of name.now files.now ≡ None) }
{
    for file in files {
        if is_same(file.0.as_bytes(), name) {
            return Some(file.1.as_slice());
        }
    }
    None
}

// The number of the place of a name.
fn place_number(places: &[Place], name: &[u8]) -> Option<usize>
    ensures some { IfSome result (λ i. IsFirst name.now places.now i) }
    ensures inside { IfSome result (λ i. i < length places.now) }
    ensures has { is_some result ≡ has_place name.now places.now }
{
    for (i, place) in places.iter().enumerate() {
        if is_same(place.name.as_bytes(), name) {
            return Some(i);
        }
    }
    None
}

// Makes a place for a name, if there is none.
fn make_place(alloc: Global, places: &mut Vec<Place>, name: &Text) -> Result<(), ShelfFault>
    ensures stay { PlacesStay places.old.items places.new.items }
    ensures made { OnOk result (IsTrue (has_place name.now places.new.items)) }
    ensures err { IfErr result (λ e. e ≡ ShelfFault.Memory) }
{
    if place_number(places, name.as_bytes()).is_some() {
        return Ok(());
    }
    let name = Text::copied(alloc, name.as_str())?;
    let place = Place { name, disk: None };
    if places.push(place).is_err() {
        return Err(ShelfFault::Memory);
    }
    Ok(())
}

// Puts a disk into the place of a name.
fn put_back(places: &mut [Place], name: &[u8], disk: MemDisk)
    requires { IsTrue (has_place name.now places.old) }
    ensures { PutsBack name.now disk places.old places.new }
{
    if let Some(i) = place_number(places, name) {
        places[i].disk = Some(disk);
    }
}
