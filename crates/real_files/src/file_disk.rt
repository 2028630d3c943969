//! A file of the operating system as a disk.
ghost use Rattle.std.specs.Prelude.{◌≡◌, Ok, IfOk, OnErr, IsOk};
ghost use Rattle.hl_base.specs.Causes.{HasCause};

use hl_base::{Disk, Failed};
use std::fs::{self, File, Metadata, OpenFile, OpenOptions};
use std::io::{self, ErrorKind};
use std::os::unix::fs::{FileExt, MetadataExt};
use std::path::Path;
use std::rt::Files;

/// A file that is open for reading and writing, and taken: no other process can take it meanwhile.
#[derive(Drop)]
pub struct FileDisk {
    file: File,
    made: bool,
    reach: u64,
    faults: u64,
}

impl FileDisk {
    /// Opens a file at a path and takes it, until the disk is dropped or its process ends. It is refused while another
    /// open of the file has taken it, and where the file was removed before it could be taken. With `make` an absent one is
    /// made, and its folder is synced, so that its name lasts.
    pub fn open<R: Files<File = File>>(files: &R, path: &str, make: bool) -> io::Result<FileDisk>
        ensures reach { IfOk result (λ disk. ⟦<FileDisk as Disk>⟧.reach disk ≡ 0) }
        ensures faults { IfOk result (λ disk. ⟦<FileDisk as Disk>⟧.failures disk ≡ 0) }
    {
        let (file, made) = open_or_make(files, path, make)?;
        file.try_lock()?;
        if !is_same_file(&fs::metadata(files, path)?, &file.metadata()?) {
            return Err(io::Error::from(ErrorKind::WouldBlock));
        }
        if make {
            sync_folder(files, path)?;
        }
        Ok(FileDisk {
            file,
            made,
            reach: 0,
            faults: 0,
        })
    }

    /// Ends the use of the file at this path. Where `open` made it and nothing was ever written to it, it is removed, unless it
    /// is to be kept. Answers whether something was written to it, or it was cut to a length, since it was opened. A removal
    /// that fails leaves the file.
    ///
    /// The lock is held until the file is removed. Another process may have opened the file before, but it can take the lock
    /// only afterwards, and `open` then finds that the path no longer names the file. So nobody goes on to write to a file
    /// that has no name.
    pub(crate) fn give_up<R: Files<File = File>>(self, files: &R, path: &str, keep: bool) -> bool {
        let written = self.reach > 0;
        if self.made && !written && !keep && has_no_bytes(&self.file) {
            remove_held(files, path, &self.file).ok();
        }
        written
    }

    // Counts a fault, if the call failed.
    fn counted<T>(&mut self, outcome: io::Result<T>) -> Result<T, Failed>
        ensures value { IfOk result (λ value. outcome ≡ Ok value) }
        ensures cause { HasCause self.old.faults self.new.faults result }
        ensures same { self.new ≡ record self.old { faults = self.new.faults } }
    {
        match outcome {
            Ok(value) => Ok(value),
            Err(_) => {
                self.faults = self.faults.saturating_add(1);
                Err(Failed)
            }
        }
    }
}

impl Disk for FileDisk {
    ghost use Rattle.std.specs.Prelude.{None, false};
    ghost use Rattle.std.proofs.Common.{rules};

    ghost seen = { λ _. None };

    ghost tells_crashes = { λ _. false };

    ghost may_leave = { λ _ _. Unit {0} };

    ghost moment = { λ _. 0 };

    ghost left_since = { λ _ _ _. Unit {0} };

    ghost reach = { λ d. d.reach };

    ghost failures = { λ d. d.faults };

    ghost unfailing_to = { λ _. None };

    ghost counts_now = { λ d t c le now. tt };

    ghost only_now = { λ d c left. tt };

    ghost unfailing = { λ d room is le. absurd (Prim.search rules) };

    fn len(&mut self) -> Result<u64, Failed> {
        let outcome = length_of(&self.file);
        self.counted(outcome)
    }

    fn read(&mut self, at: u64, room: &mut [u8]) -> Result<usize, Failed> {
        let outcome = self.file.read_at(room, at);
        self.counted(outcome)
    }

    fn write_at(&mut self, at: u64, piece: &[u8]) -> Result<(), Failed> {
        self.reach = self.reach.max(at + piece.len() as u64);
        let outcome = self.file.write_all_at(piece, at);
        self.counted(outcome)
    }

    fn cut(&mut self, len: u64) -> Result<(), Failed> {
        self.reach = self.reach.max(len);
        let outcome = shorten(&self.file, len);
        self.counted(outcome)
    }

    fn sync(&mut self) -> Result<(), Failed> {
        let outcome = self.file.sync_all();
        self.counted(outcome)
    }

    fn faults(&self) -> u64 {
        self.faults
    }
}

// The file at a path, open for reading and writing, and whether it was made now.
fn open_or_make<R: Files<File = File>>(
    files: &R,
    path: &str,
    make: bool,
) -> io::Result<(File, bool)> {
    if make {
        match File::create_new(files, path) {
            Ok(file) => return Ok((file, true)),
            Err(error) if error.kind() == ErrorKind::AlreadyExists => {}
            Err(error) => return Err(error),
        }
    }
    let file = OpenOptions::new()
        .read(true)
        .write(true)
        .create(make)
        .open(files, path)?;
    Ok((file, false))
}

// Whether two files are the same one.
fn is_same_file(one: &Metadata, other: &Metadata) -> bool {
    one.dev() == other.dev() && one.ino() == other.ino()
}

// Whether a file is known to be empty.
fn has_no_bytes(file: &File) -> bool {
    match length_of(file) {
        Ok(len) => len == 0,
        Err(_) => false,
    }
}

// Removes an open file, where it is the one that the path names.
fn remove_held<R: Files<File = File>>(files: &R, path: &str, file: &File) -> io::Result<()> {
    if is_same_file(&fs::symlink_metadata(files, path)?, &file.metadata()?) {
        fs::remove_file(files, path)?;
    }
    Ok(())
}

// The folder of a path.
fn folder_of(path: &str) -> &str {
    match Path::new(path).parent() {
        Some(folder) if !folder.as_str().is_empty() => folder.as_str(),
        _ => ".",
    }
}

// Waits until the names in the folder of a path are kept.
fn sync_folder<R: Files<File = File>>(files: &R, path: &str) -> io::Result<()> {
    fs::open(files, folder_of(path))?.sync_all()
}

// The file's length in bytes.
fn length_of(file: &File) -> io::Result<u64> {
    Ok(file.metadata()?.len())
}

// Cuts a file to a length; a shorter one stays.
fn shorten(file: &File, len: u64) -> io::Result<()> {
    if length_of(file)? > len {
        file.set_len(len)?;
    }
    Ok(())
}

#[cfg(test)]
mod tests {
    use super::*;
    use std::test::Fail;
    use std::time::{SystemTime, UNIX_EPOCH};

    #[test]
    fn a_file_is_a_disk(rt: HostRuntime) -> Result<(), Fail> {
        let now = SystemTime::now(&rt)?.duration_since(UNIX_EPOCH);
        let nanos = now.ok().ok_or("clock")?.as_nanos();
        let path = format!(in rt.alloc(); "/tmp/real_files_{nanos}")?;
        assert!(rt;
            FileDisk::open(&rt, path.as_str(), false).is_err(),
            "it isn't there"
        );
        let mut disk = FileDisk::open(&rt, path.as_str(), true)?;
        disk.write_at(0, b"abc")?;
        disk.write_at(5, b"fg")?;
        let mut room = [9u8; 8];
        assert_eq!(rt; disk.read(1, &mut room)?, 6);
        assert_eq!(rt; &room[..6], b"bc\0\0fg".as_slice());
        assert_eq!(rt; disk.read(7, &mut room)?, 0);
        disk.cut(4)?;
        disk.cut(9)?;
        disk.sync()?;
        assert_eq!(rt; disk.len()?, 4);
        assert_eq!(rt; disk.faults(), 0);
        assert!(rt;
            FileDisk::open(&rt, path.as_str(), true).is_err(),
            "it is taken"
        );
        fs::remove_file(&rt, path.as_str())?;
        Ok(())
    }
}
