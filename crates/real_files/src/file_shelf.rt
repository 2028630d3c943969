//! The files of the operating system under their paths.
ghost use Rattle.std.specs.Prelude.{◌≡◌, ◌≢◌, ◌≤◌, ◌^◌, ◌-◌, ◌<◌, ℕ, List, length, Option, IfOk, IfErr, OnOk, None, Some};
ghost use Rattle.hl_base.specs.Shelf.{HasBlame, NotTooLong};
ghost use Rattle.hl_base.specs.declared.shelf.ShelfFault.TheVariants as shelf_fault;

use crate::file_disk::FileDisk;
use hl_base::{Bytes, Disk, Failed, ReadAllFault, Shelf, ShelfFault, Source, Text, read_all};
use std::alloc::Global;
use std::fs::{self, File};
use std::io::{self, ErrorKind, Read};
use std::rt::Files;

/// The files of the operating system. A name is a path. A file that `take` made and to which nothing was written is removed
/// when it is given back, so a command that is refused leaves no empty files. It is kept where something was written to the
/// file that was given back just before: the second file of a new store is empty until the first checkpoint.
#[derive(Drop)]
pub struct FileShelf<'a, R: Files<File = File>> {
    files: &'a R,
    faults: u64,
    disk_faults: u64,
    last_failed: Option<Text>,
    keeps_next: bool,
}

impl<'a, R: Files<File = File>> FileShelf<'a, R> {
    /// The files, of which no call has failed.
    pub fn new(files: &'a R) -> FileShelf<'a, R>
        ensures { (result.faults ≡ 0) × (result.disk_faults ≡ 0) × (result.last_failed ≡ None) }
    {
        FileShelf {
            files,
            faults: 0,
            disk_faults: 0,
            last_failed: None,
            keeps_next: false,
        }
    }

    // Counts a failed call under a name, and refuses it.
    fn refuse<T>(&mut self, alloc: Global, name: &Text) -> Result<T, ShelfFault>
        ensures blame { HasBlame self.old.faults self.new.faults self.old.last_failed
            self.new.last_failed name.now result }
        ensures short { IfErr result NotTooLong }
        ensures refused { OnOk result ⊥ }
        ensures disk_faults { self.new.disk_faults ≡ self.old.disk_faults }
    {
        let failed = Text::copied(alloc, name.as_str())?;
        self.last_failed = Some(failed);
        self.faults = self.faults.saturating_add(1);
        Err(ShelfFault::Failed)
    }
}

impl<R: Files<File = File>> Shelf for FileShelf<'_, R> {
    type Disk = FileDisk;

    ghost use Rattle.std.specs.Prelude.{None, false};

    ghost tells = { λ _. record { files = false; crashes = false; disk_room = None } };

    ghost file = { λ _ _. None };

    ghost may_leave = { λ _ _ _. Unit {0} };

    ghost left_since = { λ _ _ _. Unit {0} };

    ghost HasPlace = { λ _ _. Unit {0} };

    ghost faults = { λ s. s.faults };

    ghost disk_faults = { λ s. s.disk_faults };

    ghost last_failed = { λ s. s.last_failed };

    ghost IsSound = { λ _. ⊥ };

    fn load(&mut self, alloc: Global, name: &Text, limit: u64) -> Result<Bytes, ShelfFault> {
        let outcome = match fs::open(self.files, name.as_str()) {
            Ok(file) => read_all(alloc, &mut Opened { file, faults: 0 }, limit),
            Err(error) if error.kind() == ErrorKind::NotFound => return Err(ShelfFault::Absent),
            Err(_) => return self.refuse(alloc, name),
        };
        match outcome {
            Ok(bytes) => Ok(bytes),
            Err(ReadAllFault::ReadFault) => self.refuse(alloc, name),
            Err(ReadAllFault::TooLong { limit, seen }) => Err(ShelfFault::TooLong { limit, seen }),
            Err(ReadAllFault::Memory) => Err(ShelfFault::Memory),
        }
    }

    fn take(&mut self, alloc: Global, name: &Text, make: bool) -> Result<FileDisk, ShelfFault> {
        match FileDisk::open(self.files, name.as_str(), make) {
            Ok(disk) => Ok(disk),
            Err(error) if !make && error.kind() == ErrorKind::NotFound => Err(ShelfFault::Absent),
            Err(_) => self.refuse(alloc, name),
        }
    }

    fn give_back(&mut self, name: &Text, disk: FileDisk) {
        self.disk_faults = self.disk_faults.saturating_add(disk.faults());
        self.keeps_next = disk.give_up(self.files, name.as_str(), self.keeps_next);
    }
}

// A file that is read to its end.
#[derive(Drop)]
struct Opened {
    file: File,
    faults: u64,
}

impl Source for Opened {
    ghost use Rattle.std.specs.Prelude.{None};

    ghost left = { λ _. None };

    ghost faults = { λ s. s.faults };

    ghost IsSound = { λ _. ⊥ };

    fn read(&mut self, room: &mut [u8]) -> Result<usize, Failed> {
        match self.file.read(room) {
            Ok(count) => Ok(count),
            Err(_) => {
                self.faults = self.faults.saturating_add(1);
                Err(Failed)
            }
        }
    }
}

#[cfg(test)]
mod tests {
    use super::*;
    use std::test::Fail;
    use std::time::{SystemTime, UNIX_EPOCH};

    // A new path.
    fn path(rt: &HostRuntime, name: &str) -> Result<Text, Fail> {
        let now = SystemTime::now(rt)?.duration_since(UNIX_EPOCH);
        let nanos = now.ok().ok_or("clock")?.as_nanos();
        let path = format!(in rt.alloc(); "/tmp/real_shelf_{name}_{nanos}")?;
        Ok(Text::copied(rt.alloc(), path.as_str())?)
    }

    #[test]
    fn an_empty_file_that_was_made_is_removed(rt: HostRuntime) -> Result<(), Fail> {
        let name = path(&rt, "made")?;
        let mut shelf = FileShelf::new(&rt);
        let disk = shelf.take(rt.alloc(), &name, true).ok().ok_or("take")?;
        shelf.give_back(&name, disk);
        let absent = shelf.load(rt.alloc(), &name, 9).err();
        assert_eq!(rt; absent, Some(ShelfFault::Absent));
        Ok(())
    }

    #[test]
    fn a_file_that_was_written_and_cut_stays(rt: HostRuntime) -> Result<(), Fail> {
        let name = path(&rt, "cut")?;
        let mut shelf = FileShelf::new(&rt);
        let mut disk = shelf.take(rt.alloc(), &name, true).ok().ok_or("take")?;
        disk.write_at(0, b"abc")?;
        disk.cut(0)?;
        shelf.give_back(&name, disk);
        let loaded = shelf.load(rt.alloc(), &name, 9).ok().ok_or("load")?;
        assert_eq!(rt; loaded.as_slice(), b"".as_slice());
        fs::remove_file(&rt, name.as_str())?;
        Ok(())
    }

    #[test]
    fn an_empty_file_that_was_there_stays(rt: HostRuntime) -> Result<(), Fail> {
        let name = path(&rt, "there")?;
        fs::create(&rt, name.as_str())?;
        let mut shelf = FileShelf::new(&rt);
        let disk = shelf.take(rt.alloc(), &name, true).ok().ok_or("take")?;
        shelf.give_back(&name, disk);
        let loaded = shelf.load(rt.alloc(), &name, 9).ok().ok_or("load")?;
        assert_eq!(rt; loaded.as_slice(), b"".as_slice());
        fs::remove_file(&rt, name.as_str())?;
        Ok(())
    }

    #[test]
    fn an_empty_file_after_a_new_one_stays(rt: HostRuntime) -> Result<(), Fail> {
        let name = path(&rt, "first")?;
        let second = path(&rt, "second")?;
        let mut shelf = FileShelf::new(&rt);
        let mut disk = shelf.take(rt.alloc(), &name, true).ok().ok_or("take")?;
        let beside = shelf.take(rt.alloc(), &second, true).ok().ok_or("take")?;
        disk.write_at(0, b"abc")?;
        shelf.give_back(&name, disk);
        shelf.give_back(&second, beside);
        let loaded = shelf.load(rt.alloc(), &second, 9).ok().ok_or("load")?;
        assert_eq!(rt; loaded.as_slice(), b"".as_slice());
        fs::remove_file(&rt, name.as_str())?;
        fs::remove_file(&rt, second.as_str())?;
        Ok(())
    }

    #[test]
    fn the_files_are_a_shelf(rt: HostRuntime) -> Result<(), Fail> {
        let now = SystemTime::now(&rt)?.duration_since(UNIX_EPOCH);
        let nanos = now.ok().ok_or("clock")?.as_nanos();
        let path = format!(in rt.alloc(); "/tmp/real_shelf_{nanos}")?;
        let name = Text::copied(rt.alloc(), path.as_str())?;
        let mut shelf = FileShelf::new(&rt);
        let absent = shelf.load(rt.alloc(), &name, 9).err();
        assert_eq!(rt; absent, Some(ShelfFault::Absent));
        assert!(rt;
            shelf.take(rt.alloc(), &name, false).is_err(),
            "it isn't there"
        );
        let mut disk = shelf.take(rt.alloc(), &name, true).ok().ok_or("take")?;
        disk.write_at(0, b"abc")?;
        shelf.give_back(&name, disk);
        let loaded = shelf.load(rt.alloc(), &name, 3).ok().ok_or("load")?;
        assert_eq!(rt; loaded.as_slice(), b"abc".as_slice());
        let long = shelf.load(rt.alloc(), &name, 2).err();
        assert_eq!(rt; long, Some(ShelfFault::TooLong { limit: 2, seen: 3 }));
        fs::remove_file(&rt, path.as_str())?;
        let folder = Text::copied(rt.alloc(), "/tmp")?;
        let failed = shelf.load(rt.alloc(), &folder, 9).err();
        assert_eq!(rt; failed, Some(ShelfFault::Failed));
        Ok(())
    }
}
